//! What texts are read as, and written back as.

use krml_reader::{ReadRefusal, read_file, write_file};
use krml_syntax::{Def, LimitKind, SourceFile};
use krml_trace::NoMemory;
use std::alloc::Global;
use std::test::Fail;

/// What reading a text should come to.
#[derive(Clone, Copy, Debug)]
enum Want {
    File,
    TooLarge,
    Syntax(u64),
    Nesting(u64),
    Shape(u32),
    Limit(LimitKind, u64),
}

/// Forms, what stands before and behind each, and what it is read as there.
struct Forms {
    before: &'static [u8],
    behind: &'static [u8],
    forms: &'static [&'static [u8]],
    want: Want,
}

/// The pieces in a row, each as often as it says.
fn text_of(alloc: Global, pieces: &[(&[u8], usize)]) -> Result<Vec<u8>, NoMemory> {
    let mut text = Vec::new(alloc);
    for (piece, times) in pieces {
        for _ in 0..*times {
            text.extend_from_slice(piece)?;
        }
    }
    Ok(text)
}

fn is_wanted(answer: &Result<SourceFile, ReadRefusal>, want: Want) -> bool {
    match (answer, want) {
        (Ok(_), Want::File) => true,
        (Err(ReadRefusal::TooLarge), Want::TooLarge) => true,
        (Err(ReadRefusal::Syntax { at }), Want::Syntax(place)) => *at == place,
        (Err(ReadRefusal::Nesting { at }), Want::Nesting(place)) => *at == place,
        (Err(ReadRefusal::Shape { form }), Want::Shape(index)) => *form == index,
        (Err(ReadRefusal::Limit { which, count }), Want::Limit(kind, number)) => {
            *which == kind && *count == number
        }
        _ => false,
    }
}

/// Whether a text is read as wanted.
fn reads(alloc: Global, text: &[u8], want: Want) -> bool {
    is_wanted(&read_file(alloc, text), want)
}

/// Whether these pieces are read as wanted.
fn reads_pieces(alloc: Global, pieces: &[(&[u8], usize)], want: Want) -> Result<bool, NoMemory> {
    let text = text_of(alloc, pieces)?;
    Ok(reads(alloc, text.as_slice(), want))
}

/// The first of these forms that is not read as wanted.
fn first_wrong(alloc: Global, table: &Forms) -> Result<Option<usize>, NoMemory> {
    for (i, form) in table.forms.iter().enumerate() {
        let pieces = [(table.before, 1), (*form, 1), (table.behind, 1)];
        if !reads_pieces(alloc, &pieces, table.want)? {
            return Ok(Some(i));
        }
    }
    Ok(None)
}

/// The first of these tables that has a form that is not read as wanted, and the form.
fn first_wrong_of(alloc: Global, tables: &[Forms]) -> Result<Option<(usize, usize)>, NoMemory> {
    for (i, table) in tables.iter().enumerate() {
        if let Some(form) = first_wrong(alloc, table)? {
            return Ok(Some((i, form)));
        }
    }
    Ok(None)
}

/// The first of these cases that is not read as wanted.
fn first_wrong_case(
    alloc: Global,
    cases: &[(&[(&[u8], usize)], Want)],
) -> Result<Option<usize>, NoMemory> {
    for (i, (pieces, want)) in cases.iter().enumerate() {
        if !reads_pieces(alloc, pieces, *want)? {
            return Ok(Some(i));
        }
    }
    Ok(None)
}

const NUMBERS: [&[u8]; 8] = [
    b"0",
    b"9",
    b"10",
    b"18446744073709551615",
    b"0x0",
    b"0xfF",
    b"0x0000000000000001",
    b"0xffffffffffffffff",
];

const NO_NUMBERS: [&[u8]; 12] = [
    b"00",
    b"01",
    b"0x",
    b"0X1",
    b"0xg",
    b"0x00000000000000001",
    b"18446744073709551616",
    b"1_0",
    b"'1",
    b"a",
    b"ff",
    b"(1)",
];

const TYPES: [&[u8]; 20] = [
    b"bool",
    b"unit",
    b"u8",
    b"u32",
    b"u64",
    b"su8",
    b"su32",
    b"su64",
    b"(buf u8)",
    b"(buf (buf bool))",
    b"'a",
    b"'add",
    b"'Z_9",
    b"Pair",
    b"add",
    b"u128",
    b"(Pair u8)",
    b"(Pair 'a (Pair unit))",
    b"(add u8 u8)",
    b"(Pair;\nu8)",
];

const NO_TYPES: [&[u8]; 21] = [
    b"u16",
    b"su16",
    b"buf",
    b"true",
    b"()",
    b"(buf)",
    b"(buf u8 u8)",
    b"(u8)",
    b"(u8 u8)",
    b"(Pair)",
    b"(bool u8)",
    b"('a u8)",
    b"((Pair) u8)",
    b"(Pair (buf))",
    b"''a",
    b"'",
    b"'u8",
    b"'1",
    b"a'",
    b"1",
    b"_a",
];

const PATTERNS: [&[u8]; 14] = [
    b"_",
    b"x",
    b"true",
    b"false",
    b"add",
    b"con",
    b"(u8 0)",
    b"(u8 255)",
    b"(su64 0xffffffffffffffff)",
    b"(con C)",
    b"(con C _ x (make S))",
    b"(make S)",
    b"(make S false (con C (u32 1)))",
    b"(con con con)",
];

const NO_PATTERNS: [&[u8]; 20] = [
    b"unit",
    b"u8",
    b"u16",
    b"buf",
    b"__",
    b"1",
    b"'a",
    b"()",
    b"(_)",
    b"(true)",
    b"(C x)",
    b"(u8)",
    b"(u8 256)",
    b"(u8 01)",
    b"(u8 1 2)",
    b"(u16 1)",
    b"(con)",
    b"(con true)",
    b"(con (C))",
    b"(make)",
];

const WORDS: [Forms; 6] = [
    Forms {
        before: b"(table t u64 ",
        behind: b")",
        forms: &NUMBERS,
        want: Want::File,
    },
    Forms {
        before: b"(table t u64 ",
        behind: b")",
        forms: &NO_NUMBERS,
        want: Want::Shape(0),
    },
    Forms {
        before: b"(fun f () ((x ",
        behind: b")) unit unit)",
        forms: &TYPES,
        want: Want::File,
    },
    Forms {
        before: b"(fun f () ((x ",
        behind: b")) unit unit)",
        forms: &NO_TYPES,
        want: Want::Shape(0),
    },
    Forms {
        before: b"(fun f () () unit (match x (",
        behind: b" unit)))",
        forms: &PATTERNS,
        want: Want::File,
    },
    Forms {
        before: b"(fun f () () unit (match x (",
        behind: b" unit)))",
        forms: &NO_PATTERNS,
        want: Want::Shape(0),
    },
];

#[test]
fn reads_words_types_and_patterns(rt: HostRuntime) -> Result<(), Fail> {
    assert_eq!(rt; first_wrong_of(rt.alloc(), &WORDS)?, None);
    Ok(())
}

const EXPRESSIONS: [&[u8]; 54] = [
    b"x",
    b"add",
    b"unit",
    b"true",
    b"false",
    b"(u8 255)",
    b"(u32 4294967295)",
    b"(u64 18446744073709551615)",
    b"(su8 0x00ff)",
    b"(add u8 x y)",
    b"(sub su8 x y)",
    b"(mul u32 x y)",
    b"(div u64 x y)",
    b"(rem u8 x y)",
    b"(and su32 x y)",
    b"(or su64 x y)",
    b"(xor u8 x y)",
    b"(eqmask u8 x y)",
    b"(gtemask u8 x y)",
    b"(shl u8 x y)",
    b"(shr su64 x y)",
    b"(eq u8 x y)",
    b"(ne u8 x y)",
    b"(lt u8 x y)",
    b"(le u8 x y)",
    b"(gt u8 x y)",
    b"(ge u8 x y)",
    b"(not x)",
    b"(cast u8 su64 x)",
    b"(hide u8 x)",
    b"(make S ())",
    b"(make S (u8 'a) x unit)",
    b"(get f x)",
    b"(con C ())",
    b"(con C ((buf u8)) x)",
    b"(read x y)",
    b"(write x y z)",
    b"(slice x y z)",
    b"(tab t x)",
    b"(if x y z)",
    b"(match x (_ y))",
    b"(match x ((con C a) y) (_ (match x (_ y))))",
    b"(do x y)",
    b"(do (let x u8 y) z)",
    b"(do x (let y (buf u8) z) (do x y) unit)",
    b"(frame x)",
    b"(alloc u8 1 x)",
    b"(alloc (buf 'a) 65536 (alloc u8 0x1 x))",
    b"(while x y)",
    b"(for i x y z)",
    b"(call f ())",
    b"(call f (u8 (S 'a)) x (call g ()))",
    b"(make make (make) make)",
    b"(add\nu8;\n(u8 1)(u8 2))",
];

const NO_EXPRESSIONS: [&[u8]; 39] = [
    b"u8",
    b"buf",
    b"bool",
    b"1",
    b"'a",
    b"_",
    b"()",
    b"(x)",
    b"(unit)",
    b"(true)",
    b"(u8)",
    b"(u8 256)",
    b"(u32 4294967296)",
    b"(u64 18446744073709551616)",
    b"(u8 1 1)",
    b"(u16 1)",
    b"(u8 x)",
    b"(add u8 x)",
    b"(add u8 x y z)",
    b"(add x y)",
    b"(add u16 x y)",
    b"(add bool x y)",
    b"(shl u8 x)",
    b"(lt x y)",
    b"(not)",
    b"(not x y)",
    b"(cast u8 x)",
    b"(cast u8 bool x)",
    b"(hide x)",
    b"(make S)",
    b"(make S x)",
    b"(make true ())",
    b"(make S ((u8)))",
    b"(get 1 x)",
    b"(get f)",
    b"(con C)",
    b"(con (C) ())",
    b"(sum x y)",
    b"(cases)",
];

const NO_STEPS: [&[u8]; 38] = [
    b"(read x)",
    b"(read x y z)",
    b"(write x y)",
    b"(slice x y)",
    b"(tab (t) x)",
    b"(tab t)",
    b"(if x y)",
    b"(if x y z z)",
    b"(match)",
    b"(match x)",
    b"(match x y)",
    b"(match x (_))",
    b"(match x (_ y z))",
    b"(match x (_ y) (1 y))",
    b"(do)",
    b"(do x)",
    b"(do (let x u8 y))",
    b"(do (let x u8) y)",
    b"(do (let x u8 y y) z)",
    b"(do (let true u8 y) z)",
    b"(do (let x 1 y) z)",
    b"(do x (let y u8 z))",
    b"(let x u8 y)",
    b"(frame)",
    b"(frame x y)",
    b"(frame () x)",
    b"(alloc u8 0 x)",
    b"(alloc u8 4294967296 x)",
    b"(alloc u8 x)",
    b"(alloc 1 1 x)",
    b"(while x)",
    b"(for i x y)",
    b"(for 1 x y z)",
    b"(call f)",
    b"(call f x)",
    b"(call 1 ())",
    b"(fill 1 x)",
    b"(part C 0 x)",
];

const BODIES: [Forms; 3] = [
    Forms {
        before: b"(fun f () () unit ",
        behind: b")",
        forms: &EXPRESSIONS,
        want: Want::File,
    },
    Forms {
        before: b"(fun f () () unit ",
        behind: b")",
        forms: &NO_EXPRESSIONS,
        want: Want::Shape(0),
    },
    Forms {
        before: b"(fun f () () unit ",
        behind: b")",
        forms: &NO_STEPS,
        want: Want::Shape(0),
    },
];

#[test]
fn reads_expressions(rt: HostRuntime) -> Result<(), Fail> {
    assert_eq!(rt; first_wrong_of(rt.alloc(), &BODIES)?, None);
    Ok(())
}

const DEFINITIONS: [&[u8]; 15] = [
    b"",
    b"; nothing",
    b"(entry f)",
    b"(entry entry)",
    b"(entry f) ; )\n(entry f)",
    b"(struct S () (f u8))",
    b"(struct S ('a 'b) (f 'a) (g (buf (S 'b unit))))",
    b"(sum S () (A))",
    b"(sum S ('a) (A) (B u8 'a))",
    b"(table t u8 0)",
    b"(table t su64 1 0xF 18446744073709551615)",
    b"(fun f () () u8 (u8 1))",
    b"(fun f ('a) ((x 'a) (y u8)) 'a x)",
    b"(fun f()()unit unit)(entry f)",
    b"(fun\tfun\r\n()((fun u8)) u8 fun)",
];

const NO_DEFINITIONS: [&[u8]; 38] = [
    b"f",
    b"()",
    b"(f)",
    b"((entry f))",
    b"(Entry f)",
    b"(entry)",
    b"(entry f g)",
    b"(entry u8)",
    b"(entry (f))",
    b"(entry f')",
    b"(struct S)",
    b"(struct S ())",
    b"(struct S (f u8))",
    b"(struct S (a) (f u8))",
    b"(struct S 'a (f u8))",
    b"(struct S () f)",
    b"(struct S () (f))",
    b"(struct S () (f u8 u8))",
    b"(struct S () (1 u8))",
    b"(struct true () (f u8))",
    b"(sum S ())",
    b"(sum S () A)",
    b"(sum S () ())",
    b"(sum S () (A 1))",
    b"(table t u8)",
    b"(table t u8 256)",
    b"(table t u8 x)",
    b"(table t u8 00)",
    b"(table t 1)",
    b"(table t bool 1)",
    b"(fun f () () u8)",
    b"(fun f () u8 (u8 1))",
    b"(fun f () () u8 (u8 1) (u8 2))",
    b"(fun f (a) () u8 (u8 1))",
    b"(fun f () (x) u8 (u8 1))",
    b"(fun f () x u8 (u8 1))",
    b"(fun 1 () () u8 (u8 1))",
    b"(let x u8 y)",
];

const ENTRIES: [&[u8]; 2] = [b"(entry f)", b"(entry entry)"];

const FILES: [Forms; 4] = [
    Forms {
        before: b"",
        behind: b"",
        forms: &DEFINITIONS,
        want: Want::File,
    },
    Forms {
        before: b"",
        behind: b"",
        forms: &NO_DEFINITIONS,
        want: Want::Shape(0),
    },
    Forms {
        before: b"(entry f)",
        behind: b" x",
        forms: &NO_DEFINITIONS,
        want: Want::Shape(1),
    },
    Forms {
        before: b"",
        behind: b" x",
        forms: &ENTRIES,
        want: Want::Shape(1),
    },
];

#[test]
fn reads_definitions(rt: HostRuntime) -> Result<(), Fail> {
    assert_eq!(rt; first_wrong_of(rt.alloc(), &FILES)?, None);
    Ok(())
}

#[test]
fn gives_the_numbers_of_a_table(rt: HostRuntime) {
    let text = b"(table t u64 0 7 0xfF 0x00000000deadBEEF 18446744073709551615)";
    let file = read_file(rt.alloc(), text).expect(&rt, "a file");
    let want = [0, 7, 255, 3_735_928_559, 18_446_744_073_709_551_615];
    assert!(rt;
        match file.defs.as_slice() {
            [Def::Table { nums, .. }] => nums.as_slice() == want.as_slice(),
            _ => false,
        }
    );
}

const CAUSES: [(&[(&[u8], usize)], Want); 18] = [
    (&[(b" ", 1_048_576)], Want::File),
    (&[(b" ", 1_048_577)], Want::TooLarge),
    (&[(b"(", 1_048_577)], Want::TooLarge),
    (&[(b"(", 1_048_576)], Want::Syntax(1_048_576)),
    (&[(b";(\"\x80\n(entry f)", 1)], Want::File),
    (&[(b"(entry f", 1)], Want::Syntax(8)),
    (&[(b"(entry f) \"", 1)], Want::Syntax(10)),
    (&[(b"x )", 1)], Want::Syntax(2)),
    (&[(b"(", 65), (b")", 66)], Want::Syntax(130)),
    (&[(b"x ", 1), (b"(", 65), (b")", 65)], Want::Nesting(66)),
    (&[(b"(", 64), (b")", 64)], Want::Shape(0)),
    (&[(b"x ", 524_288)], Want::Shape(0)),
    (&[(b"(entry f)", 3), (b"x y", 1)], Want::Shape(3)),
    (&[(b"(entry f)", 2_001), (b"x", 1)], Want::Shape(2_001)),
    (&[(b"(entry ", 1), (b"f", 65), (b") x", 1)], Want::Shape(1)),
    (
        &[
            (b"(fun f () () bool ", 1),
            (b"(not ", 63),
            (b"x", 1),
            (b")", 64),
        ],
        Want::File,
    ),
    (
        &[
            (b"(fun f () () bool ", 1),
            (b"(not ", 64),
            (b"x", 1),
            (b")", 65),
        ],
        Want::Nesting(333),
    ),
    (
        &[
            (b"(struct S () (f ", 1),
            (b"(buf ", 62),
            (b"u8", 1),
            (b")", 64),
        ],
        Want::File,
    ),
];

#[test]
fn answers_the_first_cause(rt: HostRuntime) -> Result<(), Fail> {
    assert_eq!(rt; first_wrong_case(rt.alloc(), &CAUSES)?, None);
    Ok(())
}

/// What stands before and behind as many as may be of a piece, and what is answered where there is one more.
struct Limit {
    before: &'static [u8],
    piece: &'static [u8],
    behind: &'static [u8],
    most: usize,
    which: LimitKind,
    count: u64,
}

const LIMITS: [Limit; 14] = [
    Limit {
        before: b"",
        piece: b"(entry f)",
        behind: b"",
        most: 2_000,
        which: LimitKind::Definitions,
        count: 2_001,
    },
    Limit {
        before: b"(entry ",
        piece: b"f",
        behind: b")",
        most: 64,
        which: LimitKind::Name,
        count: 65,
    },
    Limit {
        before: b"(struct S ('",
        piece: b"a",
        behind: b") (f u8))",
        most: 64,
        which: LimitKind::Name,
        count: 65,
    },
    Limit {
        before: b"(struct S () (f '",
        piece: b"a",
        behind: b"))",
        most: 64,
        which: LimitKind::Name,
        count: 65,
    },
    Limit {
        before: b"(fun f () () unit (call g () ",
        piece: b"x ",
        behind: b"))",
        most: 7_990,
        which: LimitKind::Forms,
        count: 8_001,
    },
    Limit {
        before: b"(struct S (",
        piece: b"'a ",
        behind: b") (f u8))",
        most: 8,
        which: LimitKind::Variables,
        count: 9,
    },
    Limit {
        before: b"(sum S (",
        piece: b"'a ",
        behind: b") (A))",
        most: 8,
        which: LimitKind::Variables,
        count: 9,
    },
    Limit {
        before: b"(fun f (",
        piece: b"'a ",
        behind: b") () unit unit)",
        most: 8,
        which: LimitKind::Variables,
        count: 9,
    },
    Limit {
        before: b"(fun f () (",
        piece: b"(x u8)",
        behind: b") unit unit)",
        most: 32,
        which: LimitKind::Parameters,
        count: 33,
    },
    Limit {
        before: b"(struct S () ",
        piece: b"(f u8)",
        behind: b")",
        most: 24,
        which: LimitKind::Fields,
        count: 25,
    },
    Limit {
        before: b"(sum S () ",
        piece: b"(A u8)",
        behind: b")",
        most: 256,
        which: LimitKind::Constructors,
        count: 257,
    },
    Limit {
        before: b"(table t u8 ",
        piece: b"0 ",
        behind: b")",
        most: 65_536,
        which: LimitKind::Elements,
        count: 65_537,
    },
    // the first place where a limit is exceeded
    Limit {
        before: b"(table t u8 ",
        piece: b"0 ",
        behind: b")(fun f () () u8 (alloc u8 65536 x))",
        most: 65_536,
        which: LimitKind::Elements,
        count: 65_537,
    },
    Limit {
        before: b"(fun f (",
        piece: b"'a ",
        behind: b") ((x u8)) u8 (alloc u8 65536 (alloc u8 1 x)))",
        most: 8,
        which: LimitKind::Variables,
        count: 9,
    },
];

/// Whether a limit is kept to: a text within it is read, and the one with a piece more is refused.
fn keeps_to(alloc: Global, limit: &Limit) -> Result<bool, NoMemory> {
    let (before, piece, behind) = ((limit.before, 1), limit.piece, (limit.behind, 1));
    let within = [before, (piece, limit.most), behind];
    let past = [before, (piece, limit.most), (piece, 1), behind];
    let want = Want::Limit(limit.which, limit.count);
    Ok(reads_pieces(alloc, &within, Want::File)? && reads_pieces(alloc, &past, want)?)
}

#[test]
fn keeps_to_the_limits(rt: HostRuntime) -> Result<(), Fail> {
    for limit in &LIMITS {
        assert!(rt; keeps_to(rt.alloc(), limit)?, "{:?}", limit.which);
    }
    Ok(())
}

const EXCESSES: [(&[(&[u8], usize)], Want); 9] = [
    // the order of kinds
    (
        &[
            (b"(entry ", 1),
            (b"f", 65),
            (b")", 1),
            (b"(entry f)", 2_000),
        ],
        Want::Limit(LimitKind::Definitions, 2_001),
    ),
    (
        &[
            (b"(fun f () () unit (call g () ", 1),
            (b"x ", 7_991),
            (b"))(entry ", 1),
            (b"f", 65),
            (b")", 1),
        ],
        Want::Limit(LimitKind::Name, 65),
    ),
    (
        &[
            (b"(fun f () (", 1),
            (b"(x u8)", 33),
            (b") unit unit)(struct S (", 1),
            (b"'a ", 9),
            (b") (f u8))", 1),
        ],
        Want::Limit(LimitKind::Variables, 9),
    ),
    (
        &[
            (b"(table t u8 ", 1),
            (b"0 ", 65_537),
            (b")(sum S () ", 1),
            (b"(A)", 257),
            (b")", 1),
        ],
        Want::Limit(LimitKind::Constructors, 257),
    ),
    // the first place
    (
        &[
            (b"(entry ", 1),
            (b"f", 66),
            (b")(entry ", 1),
            (b"f", 65),
            (b")", 1),
        ],
        Want::Limit(LimitKind::Name, 66),
    ),
    (
        &[(b"(fun f () () u8 (alloc u8 65537 x))", 1)],
        Want::Limit(LimitKind::Elements, 65_537),
    ),
    (
        &[(b"(fun f () () u8 (alloc u8 65538 (alloc u8 65537 x)))", 1)],
        Want::Limit(LimitKind::Elements, 65_538),
    ),
    (
        &[(b"(fun f () () u8 (alloc u8 1 (alloc u8 4294967295 x)))", 1)],
        Want::Limit(LimitKind::Elements, 4_294_967_295),
    ),
    (
        &[(b"(entry ", 1), (b"f", 1_048_568), (b")", 1)],
        Want::Limit(LimitKind::Name, 1_048_568),
    ),
];

#[test]
fn answers_the_first_excess(rt: HostRuntime) -> Result<(), Fail> {
    assert_eq!(rt; first_wrong_case(rt.alloc(), &EXCESSES)?, None);
    Ok(())
}

/// The written text of the file that a text spells; empty where it spells none.
fn rewritten(alloc: Global, text: &[u8]) -> Result<Vec<u8>, NoMemory> {
    match read_file(alloc, text) {
        Ok(file) => write_file(alloc, &file),
        Err(_) => Ok(Vec::new(alloc)),
    }
}

/// A definition of each kind, as they are written.
const WRITTEN: &[u8] = b"(struct p ('a) (x 'a) (y (buf u8)))
(sum o () (none) (some bool (p unit)))
(table t su32 0 4294967295)
(fun f () ((x su32)) unit (do (let y u8 (sub u8 z (u8 7))) (match x ((con some _ (u8 7)) (call g (u8) z)))))
(entry f)
";

const WRITES: [(&[u8], &[u8]); 10] = [
    (b"", b""),
    (WRITTEN, WRITTEN),
    (b"\t( entry\nf ) ; end", b"(entry f)\n"),
    (
        b"(struct S('a)(f u8)(g(buf(S(S 'a)))))",
        b"(struct S ('a) (f u8) (g (buf (S (S 'a)))))\n",
    ),
    (
        b"(sum S()(A)(B bool S))(entry A)",
        b"(sum S () (A) (B bool S))\n(entry A)\n",
    ),
    (
        b"(table t su64 0x0fF 0 18446744073709551615)",
        b"(table t su64 255 0 18446744073709551615)\n",
    ),
    (
        b"(fun f()((x u32))u32(if(lt u32 x(u32 0xa))(add u32 x(u32 1))x))",
        b"(fun f () ((x u32)) u32 (if (lt u32 x (u32 10)) (add u32 x (u32 1)) x))\n",
    ),
    (
        b"(fun f('a)()unit(do(let x(buf u8)(alloc u8 0x10(u8 1)))(write x y(not z))(frame(while true unit))))",
        b"(fun f ('a) () unit (do (let x (buf u8) (alloc u8 16 (u8 1))) (write x y (not z)) (frame (while true unit))))\n",
    ),
    (
        b"(fun f()()unit(match(con C('a)(get g x))(_(call h()))((con C(make S true(su8 0x1)))(for i a b(slice x i j)))))",
        b"(fun f () () unit (match (con C ('a) (get g x)) (_ (call h ())) ((con C (make S true (su8 1))) (for i a b (slice x i j)))))\n",
    ),
    (
        b"(fun f()()unit(make S()(shr u8 x(cast u64 u32 y))(shl u8 a(hide u8 b))(read b(tab t i))false(gtemask su8 x y)))",
        b"(fun f () () unit (make S () (shr u8 x (cast u64 u32 y)) (shl u8 a (hide u8 b)) (read b (tab t i)) false (gtemask su8 x y)))\n",
    ),
];

/// Whether a text is read and written back as wanted, and what was written as it is.
fn is_rewritten(alloc: Global, text: &[u8], want: &[u8]) -> Result<bool, NoMemory> {
    Ok(rewritten(alloc, text)?.as_slice() == want && rewritten(alloc, want)?.as_slice() == want)
}

#[test]
fn writes_what_it_read(rt: HostRuntime) -> Result<(), Fail> {
    for (text, want) in &WRITES {
        assert!(rt; is_rewritten(rt.alloc(), text, want)?);
    }
    Ok(())
}
