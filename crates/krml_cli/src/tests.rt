//! Tests of the top call: whole texts in and out.

ghost use Rattle.std.specs.Prelude.{◌≢◌, ◌≤◌, IfOk};

use crate::built::first_unbuilt;
use crate::krml::krml;
use crate::pipeline::plain;
use krml_ast::PlainFile;
use krml_hoist::{HoistRefusal, hoist};
use krml_match::MatchRefusal;
use krml_reader::read_file;
use krml_trace::{MemSink, MemSource, SureSink, SureSource};
use krml_types::check_types;
use std::alloc::{AllocError, Global};
use std::test::Fail;

const FIRST: &[u8] = b"(fun f () ((x u32)) u32 (if (lt u32 x (u32 10)) (add u32 x (u32 1)) x))
(entry f)
";

const FIRST_TEXT: &[u8] = b"#include <stdint.h>
uint32_t f_f(uint32_t v0_x);
uint32_t f_f(uint32_t v0_x) {
  uint32_t v1;
  if (((uint8_t)(v0_x < ((uint32_t)10u)))) {
    v1 = (v0_x + ((uint32_t)1u));
  } else {
    v1 = v0_x;
  }
  return v1;
}
";

/// What a call over memory gave.
#[derive(Drop)]
struct Answer {
    status: u8,
    out: MemSink,
    notes: MemSink,
}

fn words_of(alloc: Global, words: &[&str]) -> Result<Vec<String>, AllocError> {
    let mut all = Vec::new(alloc);
    for word in words {
        all.push(String::from_str(alloc, word)?)?;
    }
    Ok(all)
}

/// Runs a command over memory, in pieces of at most `chunk` bytes, where these calls of the source, of the output
/// and of the notes fail.
fn run(
    alloc: Global,
    words: &[&str],
    input: &[u8],
    chunk: usize,
    fails: [&[u64]; 3],
) -> Result<Answer, AllocError>
    requires { 1 ≤ chunk }
{
    let words = words_of(alloc, words)?;
    let mut source = MemSource::new(alloc, input, fails[0], chunk)?;
    let mut out = MemSink::new(alloc, fails[1], chunk)?;
    let mut notes = MemSink::new(alloc, fails[2], chunk)?;
    let status = krml(alloc, words.as_slice(), &mut source, &mut out, &mut notes);
    Ok(Answer { status, out, notes })
}

/// Over ends that never fail no status of a fault comes.
fn sure_status(alloc: Global, words: &[&str], input: &[u8]) -> Result<u8, AllocError>
    ensures no_read_fault { IfOk result (λ status. status ≢ 3) }
    ensures no_write_fault { IfOk result (λ status. status ≢ 4) }
{
    let words = words_of(alloc, words)?;
    let mut source = SureSource::new(alloc, input)?;
    let mut out = SureSink::new(alloc)?;
    let mut notes = SureSink::new(alloc)?;
    Ok(krml(alloc, words.as_slice(), &mut source, &mut out, &mut notes))
}

/// What a call is to give.
#[derive(Clone, Copy)]
struct Want<'a> {
    status: u8,
    out: &'a [u8],
    notes: &'a [u8],
}

impl Answer {
    fn is(&self, want: Want<'_>) -> bool {
        self.status == want.status
            && self.out.bytes() == want.out
            && self.notes.bytes() == want.notes
    }
}

/// Whether a command over memory that never fails gives this.
fn gives(alloc: Global, words: &[&str], input: &[u8], want: Want<'_>) -> Result<bool, AllocError> {
    Ok(run(alloc, words, input, 4096, [&[], &[], &[]])?.is(want))
}

/// Which calls fail, and the status, the output and the notes that `c` then gives in pieces of 16 bytes.
const FAULTS: [([&[u64]; 3], u8, &[u8], &[u8]); 5] = [
    ([&[], &[], &[]], 0, FIRST_TEXT, b""),
    (
        [&[], &[1], &[]],
        4,
        b"#include <stdint",
        b"krml: write fault\n",
    ),
    ([&[0], &[], &[]], 3, b"", b"krml: read fault\n"),
    ([&[2], &[], &[]], 3, b"", b"krml: read fault\n"),
    ([&[0], &[], &[1]], 4, b"", b"krml: read fault"),
];

#[test]
fn faults(rt: HostRuntime) -> Result<(), Fail> {
    for (fails, status, out, notes) in FAULTS {
        let want = Want { status, out, notes };
        assert!(rt; run(rt.alloc(), &["c"], FIRST, 16, fails)?.is(want));
    }
    Ok(())
}

const COMMANDS: [&[&str]; 7] = [
    &["c"],
    &["check"],
    &["--", "c"],
    &["check", "--"],
    &["--pages", "4", "c"],
    &[
        "check",
        "--pages=4",
        "--bound=0",
        "--depth",
        "100",
        "--trace",
    ],
    &[
        "--trace",
        "--depth=1",
        "c",
        "--bound=10000000",
        "--pages=1024",
    ],
];

const NO_COMMANDS: [&[&str]; 24] = [
    // No command, an unknown one, and words after one.
    &[],
    &["C"],
    &["--"],
    &["c", "f"],
    &["check", "c"],
    &["c", "--", "c"],
    &["--help"],
    &["c", "--help"],
    &["--version"],
    // Options that are none, stand twice, or behind the options' end.
    &["--fast", "c"],
    &["--trace", "c", "--trace"],
    &["--pages=4", "c", "--pages=4"],
    &["c", "--", "--pages=4"],
    // Values that are none, or out of their form or range.
    &["c", "--pages"],
    &["c", "--pages="],
    &["--pages", "", "check"],
    &["c", "--pages=0"],
    &["check", "--pages=1025"],
    &["check", "--bound=10000001"],
    &["c", "--bound=+1"],
    &["c", "--depth=0"],
    &["check", "--depth=101"],
    &["check", "--opt=fold"],
    &["c", "--opt="],
];

const USAGE: Want<'static> = Want {
    status: 2,
    out: b"",
    notes: b"krml: usage\n",
};

#[test]
fn command_lines(rt: HostRuntime) -> Result<(), Fail> {
    for words in &COMMANDS {
        let answer = run(rt.alloc(), words, FIRST, 4096, [&[], &[], &[]])?;
        assert!(rt; answer.status == 0);
    }
    for words in &NO_COMMANDS {
        assert!(rt; gives(rt.alloc(), words, FIRST, USAGE)?);
    }
    Ok(())
}

const ACCEPTED_TEXTS: [&[u8]; 9] = [
    b"",
    b"; a comment",
    FIRST,
    b"(table t u32 5 6) (fun f () ((i u32)) u32 (tab t i)) (entry f)",
    b"(struct p () (x u8) (y bool)) (fun f () ((a p)) p (make p () (get x a) (not (get y a))))",
    b"(fun f () ((a u32)) bool (do (let b u64 (cast u32 u64 (shl u32 a (u32 3)))) (le u64 b (u64 9))))",
    b"(fun f () () unit (while true unit)) (entry f)",
    b"(fun f () () unit (for i (u32 0) (u32 9) unit))",
    b"(fun f () () unit (call g ())) (fun g () () unit (call f ()))",
];

const ACCEPTED: Want<'static> = Want {
    status: 0,
    out: b"accepted\n",
    notes: b"",
};

#[test]
fn accepted_texts(rt: HostRuntime) -> Result<(), Fail> {
    for input in &ACCEPTED_TEXTS {
        assert!(rt; gives(rt.alloc(), &["check"], input, ACCEPTED)?);
    }
    Ok(())
}

/// The pieces in a row, each as often as it says.
fn text_of(alloc: Global, pieces: &[(&[u8], usize)]) -> Result<Vec<u8>, AllocError> {
    let mut text = Vec::new(alloc);
    for (piece, times) in pieces {
        for _ in 0..*times {
            text.extend_from_slice(piece)?;
        }
    }
    Ok(text)
}

/// A text of 1,048,576 bytes is accepted.
#[test]
fn largest_text(rt: HostRuntime) -> Result<(), Fail> {
    let input = text_of(rt.alloc(), &[(b";", 1), (b"x", 1_048_575)])?;
    assert!(rt; gives(rt.alloc(), &["check"], input.as_slice(), ACCEPTED)?);
    Ok(())
}

/// Whether both commands refuse an input for this, and write nothing else.
fn is_refused(alloc: Global, input: &[u8], words: &[u8]) -> Result<bool, AllocError> {
    let line = text_of(alloc, &[(b"krml: refused: ", 1), (words, 1), (b"\n", 1)])?;
    let want = Want {
        status: 1,
        out: b"",
        notes: line.as_slice(),
    };
    Ok(gives(alloc, &["c"], input, want)? && gives(alloc, &["check"], input, want)?)
}

const REFUSED_DEFINITIONS: [(&[u8], &[u8]); 14] = [
    (b"(sum s () (A))", b"not built 0"),
    (
        b"(fun f () () unit (frame (while true (do (let b (buf u8) (alloc u8 1 (u8 0))) unit)))) (entry f)",
        b"type fault in definition 0",
    ),
    (
        b"(fun f () () u32 (u8 1)) (sum s () (A))",
        b"type fault in definition 0",
    ),
    (b"(sum s () (A)) (entry g)", b"type fault in definition 1"),
    (b"(entry f)", b"type fault in definition 0"),
    (
        b"(fun f () ((a u32) (a u32)) u32 a) (entry f)",
        b"type fault in definition 0",
    ),
    // The first of several, by place.
    (
        b"(table t u8 1) (sum s () (A)) (sum r () (B))",
        b"not built 1",
    ),
    // Buffers, type variables and secret types.
    (b"(fun f () ((b (buf u8))) unit unit)", b"not built 0"),
    (b"(fun f () () u8 (frame (u8 1)))", b"not built 0"),
    (b"(struct p ('a) (x 'a))", b"not built 0"),
    (b"(table t su8 1)", b"not built 0"),
    (b"(fun f () ((a u8)) su8 (hide u8 a))", b"not built 0"),
    (b"(fun f () () su8 (su8 1))", b"not built 0"),
    (
        b"(fun f () () unit unit) (fun g ('a) () unit unit)",
        b"not built 1",
    ),
];

#[test]
fn refused_definitions(rt: HostRuntime) -> Result<(), Fail> {
    for (input, words) in &REFUSED_DEFINITIONS {
        assert!(rt; is_refused(rt.alloc(), input, words)?);
    }
    Ok(())
}

/// A struct of 13 numbers, and one of 12.
const THIRTEEN: &[u8] =
    b"(struct h () (a u32) (b u32) (c u32) (d u32) (e u32) (f u32) (g u32) (h u32) (i u32) (j u32) (k u32) (l u32) (m u32)) ";

const TWELVE: &[u8] =
    b"(struct h () (a u32) (b u32) (c u32) (d u32) (e u32) (f u32) (g u32) (h u32) (i u32) (j u32) (k u32) (l u32)) ";

const TWO: &[u8] = b"(struct w () (x h) (y h)) (fun f () ((a w)) u32 (get a (get x a)))";

/// The first type with more than 24 leaves is blamed, behind what is not built; 24 are not too many.
#[test]
fn wide_types(rt: HostRuntime) -> Result<(), Fail> {
    let wide = text_of(rt.alloc(), &[(THIRTEEN, 1), (TWO, 1)])?;
    assert!(rt; is_refused(rt.alloc(), wide.as_slice(), b"wide w 26")?);
    let wider = text_of(
        rt.alloc(),
        &[
            (THIRTEEN, 1),
            (b"(struct v () (x h) (y h) (z u8)) ", 1),
            (TWO, 1),
        ],
    )?;
    assert!(rt; is_refused(rt.alloc(), wider.as_slice(), b"wide v 27")?);
    let unbuilt = text_of(
        rt.alloc(),
        &[(THIRTEEN, 1), (TWO, 1), (b"(sum s () (A))", 1)],
    )?;
    assert!(rt; is_refused(rt.alloc(), unbuilt.as_slice(), b"not built 3")?);
    let narrow = text_of(
        rt.alloc(),
        &[(TWELVE, 1), (b"(struct w () (x h) (y h))", 1)],
    )?;
    assert!(rt; gives(rt.alloc(), &["check"], narrow.as_slice(), ACCEPTED)?);
    Ok(())
}

/// What hoisting says of a plain file.
fn hoisted_of(
    alloc: Global,
    plain: Result<PlainFile, MatchRefusal>,
) -> Option<Result<(), HoistRefusal>> {
    let plain = plain.ok()?;
    match hoist(alloc, &plain) {
        Ok(_) => Some(Ok(())),
        Err(why) => Some(Err(why)),
    }
}

/// What hoisting says of a text that holds nothing but what is built and buffers.
fn hoisted(alloc: Global, text: &[u8]) -> Option<Result<(), HoistRefusal>> {
    let file = read_file(alloc, text).ok()?;
    let typed = check_types(alloc, file).ok()?;
    match first_unbuilt(true, typed.file()) {
        None => hoisted_of(alloc, plain(alloc, typed, true)),
        Some(_) => None,
    }
}

/// Whether hoisting refuses a text for this frame.
fn is_large(alloc: Global, text: &[u8], fun: &[u8], bytes: u64) -> bool {
    match hoisted(alloc, text) {
        Some(Err(HoistRefusal::FrameTooLarge { fun: f, bytes: n })) => f.as_bytes() == fun
            && n == bytes,
        _ => false,
    }
}

/// A buffer of half a mebibyte, of which a frame holds 32.
const BUFFER: &[u8] = b" (let b (buf u64) (alloc u64 65536 (u64 0)))";

/// The first frame above 16,777,216 bytes is blamed, an outer one before those inside it.
#[test]
fn large_frames(rt: HostRuntime) -> Result<(), Fail> {
    let fits = [
        (b"(fun f () () unit (frame (do" as &[u8], 1),
        (BUFFER, 32),
        (b" unit)))", 1),
    ];
    let text = text_of(rt.alloc(), &fits)?;
    assert!(rt; matches!(hoisted(rt.alloc(), text.as_slice()), Some(Ok(()))));
    let large = [
        (
            b"(fun f () () unit unit) (fun g () () unit (frame (do" as &[u8],
            1,
        ),
        (BUFFER, 33),
        (b" unit)))", 1),
    ];
    let text = text_of(rt.alloc(), &large)?;
    assert!(rt; is_large(rt.alloc(), text.as_slice(), b"g", 17_301_504));
    let nested = [
        (b"(fun f () () unit (frame (do" as &[u8], 1),
        (BUFFER, 33),
        (b" (frame (do", 1),
        (BUFFER, 34),
        (b" unit)))))", 1),
    ];
    let text = text_of(rt.alloc(), &nested)?;
    assert!(rt; is_large(rt.alloc(), text.as_slice(), b"f", 17_301_504));
    let inside = [
        (b"(fun f () () unit (frame (do" as &[u8], 1),
        (BUFFER, 32),
        (b" (frame (do", 1),
        (BUFFER, 34),
        (b" unit)))))", 1),
    ];
    let text = text_of(rt.alloc(), &inside)?;
    assert!(rt; is_large(rt.alloc(), text.as_slice(), b"f", 17_825_792));
    Ok(())
}

const REFUSALS: [(&[(&[u8], usize)], &[u8]); 9] = [
    (&[(b";", 1), (b"x", 1_048_576)], b"too large"),
    (&[(b"(fun f", 1)], b"syntax at 6"),
    (&[(b"(", 524_288)], b"syntax at 524288"),
    (&[(b"(", 65), (b")", 65)], b"nesting at 64"),
    (&[(b"(", 64), (b")", 64)], b"shape of form 0"),
    (
        &[(b"(fun f () () u32 (u32 4294967296)) (entry f)", 1)],
        b"shape of form 0",
    ),
    (&[(b"(entry f) f", 1)], b"shape of form 1"),
    (
        &[(b"(fun ", 1), (b"f", 65), (b" () () u32 (u32 1))", 1)],
        b"limit name 65",
    ),
    (
        &[
            (b"(fun f () (", 1),
            (b"(a u32)", 33),
            (b") u32 a) (entry f)", 1),
        ],
        b"limit parameters 33",
    ),
];

/// Whether both commands refuse the text of these pieces for this.
fn are_refused(alloc: Global, pieces: &[(&[u8], usize)], words: &[u8]) -> Result<bool, AllocError> {
    let input = text_of(alloc, pieces)?;
    is_refused(alloc, input.as_slice(), words)
}

#[test]
fn refusals(rt: HostRuntime) -> Result<(), Fail> {
    for (pieces, words) in &REFUSALS {
        assert!(rt; are_refused(rt.alloc(), pieces, words)?);
    }
    Ok(())
}

/// A prefix is accepted where it ends between definitions.
#[test]
fn cut_at_every_byte(rt: HostRuntime) -> Result<(), Fail> {
    let function = FIRST.len() - b"\n(entry f)\n".len();
    let whole = FIRST.len() - 1;
    for at in 0..=whole {
        let between = at == 0 || at == function || at == function + 1 || at == whole;
        assert_eq!(rt;
            sure_status(rt.alloc(), &["c"], &FIRST[..at])?,
            if between { 0 } else { 1 },
            "at {at}"
        );
    }
    Ok(())
}

/// Texts, and what `c` writes for them behind the first line.
const TEXTS: [(&[u8], &[u8]); 13] = [
    // The empty text.
    (b";", b""),
    // A table is a constant array.
    (
        b"(table t u32 5 6) (fun f () ((i u32)) u32 (tab t i)) (entry f)",
        b"static const uint32_t t_t[2] = {5u, 6u};
uint32_t f_f(uint32_t v0_i);
uint32_t f_f(uint32_t v0_i) {
  uint32_t v1 = t_t[v0_i];
  return v1;
}
",
    ),
    // A sum of 8 bits is computed with 32, and cast back.
    (
        b"(fun f () () u8 (add u8 (u8 255) (u8 1))) (entry f)",
        b"uint8_t f_f(void);
uint8_t f_f(void) {
  return ((uint8_t)(((uint32_t)((uint8_t)((uint32_t)255u))) + ((uint32_t)((uint8_t)((uint32_t)1u)))));
}
",
    ),
    // A shift has its amount as it is.
    (
        b"(fun f () ((x u32) (n u32)) u32 (shl u32 x n)) (entry f)",
        b"uint32_t f_f(uint32_t v0_x, uint32_t v1_n);
uint32_t f_f(uint32_t v0_x, uint32_t v1_n) {
  return (v0_x << v1_n);
}
",
    ),
    // A variable that is not used is declared all the same.
    (
        b"(fun f () ((x u32)) u32 (do (let y u32 (add u32 x (u32 1))) x)) (entry f)",
        b"uint32_t f_f(uint32_t v0_x);
uint32_t f_f(uint32_t v0_x) {
  uint32_t v1_y = (v0_x + ((uint32_t)1u));
  return v0_x;
}
",
    ),
    // Masks have no branch.
    (
        b"(fun f () ((a u64) (b u64)) u64 (eqmask u64 a b)) (fun g () ((a u8) (b u8)) u8 (gtemask u8 a b))",
        b"uint64_t f_f(uint64_t v0_a, uint64_t v1_b);
uint8_t f_g(uint8_t v0_a, uint8_t v1_b);
uint64_t f_f(uint64_t v0_a, uint64_t v1_b) {
  uint64_t v2 = (v0_a ^ v1_b);
  return (((v2 | (((uint64_t)0ull) - v2)) >> ((uint32_t)63u)) - ((uint64_t)1ull));
}
uint8_t f_g(uint8_t v0_a, uint8_t v1_b) {
  uint32_t v2 = ((uint32_t)v0_a);
  uint32_t v3 = ((uint32_t)v1_b);
  return ((uint8_t)(((v2 ^ ((v2 ^ v3) | ((v2 - v3) ^ v3))) >> ((uint32_t)31u)) - ((uint32_t)1u)));
}
",
    ),
    // A quotient is a statement, a cast to the same C type is none, and a truth value is a number.
    (
        b"(fun f () ((a u8) (b u32)) bool (not (ge u32 (cast u32 u32 b) (cast u8 u32 (div u8 a (u8 2)))))) (fun g () () bool true)",
        b"uint8_t f_f(uint8_t v0_a, uint32_t v1_b);
uint8_t f_g(void);
uint8_t f_f(uint8_t v0_a, uint32_t v1_b) {
  uint32_t v2 = (((uint32_t)v0_a) / ((uint32_t)((uint8_t)((uint32_t)2u))));
  return ((uint8_t)(((uint32_t)((uint8_t)(v1_b >= ((uint32_t)((uint8_t)v2))))) ^ ((uint32_t)1u)));
}
uint8_t f_g(void) {
  return ((uint8_t)((uint32_t)1u));
}
",
    ),
    // Each operator has its symbol.
    (
        b"(fun f () ((x u32) (y u32)) u32 (mul u32 (sub u32 x y) (or u32 (and u32 x y) (xor u32 x y)))) (fun g () ((x u64) (n u32)) u64 (shr u64 (rem u64 x (u64 10)) n))",
        b"uint32_t f_f(uint32_t v0_x, uint32_t v1_y);
uint64_t f_g(uint64_t v0_x, uint32_t v1_n);
uint32_t f_f(uint32_t v0_x, uint32_t v1_y) {
  return ((v0_x - v1_y) * ((v0_x & v1_y) | (v0_x ^ v1_y)));
}
uint64_t f_g(uint64_t v0_x, uint32_t v1_n) {
  uint64_t v2 = (v0_x % ((uint64_t)10ull));
  return (v2 >> v1_n);
}
",
    ),
    // So has each comparison.
    (
        b"(struct p () (a bool) (b bool) (c bool) (d bool)) (fun f () ((x u32) (y u32)) p (make p () (eq u32 x y) (ne u32 x y) (le u32 x y) (gt u32 x y)))",
        b"struct s_p {
  uint8_t m_a;
  uint8_t m_b;
  uint8_t m_c;
  uint8_t m_d;
};
struct s_p f_f(uint32_t v0_x, uint32_t v1_y);
struct s_p f_f(uint32_t v0_x, uint32_t v1_y) {
  return ((struct s_p){((uint8_t)(v0_x == v1_y)), ((uint8_t)(v0_x != v1_y)), ((uint8_t)(v0_x <= v1_y)), ((uint8_t)(v0_x > v1_y))});
}
",
    ),
    // Numbers of a table have the suffix of their width.
    (
        b"(table t u8 255 0) (table s u64 18446744073709551615)",
        b"static const uint8_t t_t[2] = {255u, 0u};
static const uint64_t t_s[1] = {18446744073709551615ull};
",
    ),
    // Structs.
    (
        b"(struct p () (x u8) (y bool)) (fun f () ((a p)) p (make p () (get x a) (not (get y a))))",
        b"struct s_p {
  uint8_t m_x;
  uint8_t m_y;
};
struct s_p f_f(struct s_p v0_a);
struct s_p f_f(struct s_p v0_a) {
  return ((struct s_p){v0_a.m_x, ((uint8_t)(((uint32_t)v0_a.m_y) ^ ((uint32_t)1u)))});
}
",
    ),
    // An `if` that gives nothing has no variable, and nothing behind `else` is not written.
    (
        b"(fun f () ((c bool)) unit (if c (call g () (u64 7)) unit)) (fun g () ((n u64)) unit unit)",
        b"void f_f(uint8_t v0_c);
void f_g(uint64_t v0_n);
void f_f(uint8_t v0_c) {
  if (v0_c) {
    f_g(((uint64_t)7ull));
  }
}
void f_g(uint64_t v0_n) {
}
",
    ),
    // Loops and calls.
    (
        b"(fun f () ((n u32)) u32 (do (for i (u32 1) n (call h () i)) (while (lt u32 (call k () n) (u32 3)) unit) (call k () n))) (fun h () ((i u32)) unit unit) (fun k () ((i u32)) u32 i) (entry f)",
        b"uint32_t f_f(uint32_t v0_n);
void f_h(uint32_t v0_i);
uint32_t f_k(uint32_t v0_i);
uint32_t f_f(uint32_t v0_n) {
  uint32_t v1_i = ((uint32_t)1u);
  uint32_t v2 = v0_n;
  for (;;) {
    if (((uint8_t)(v1_i < v2))) {
      f_h(v1_i);
      v1_i = (v1_i + ((uint32_t)1u));
    } else {
      break;
    }
  }
  for (;;) {
    uint32_t v3 = f_k(v0_n);
    if (((uint8_t)(v3 < ((uint32_t)3u)))) {
    } else {
      break;
    }
  }
  uint32_t v4 = f_k(v0_n);
  return v4;
}
void f_h(uint32_t v0_i) {
}
uint32_t f_k(uint32_t v0_i) {
  return v0_i;
}
",
    ),
];

/// Whether `c` writes this text behind the first line.
fn compiles_to(alloc: Global, source: &[u8], expected: &[u8]) -> Result<bool, AllocError> {
    let text = text_of(alloc, &[(b"#include <stdint.h>\n", 1), (expected, 1)])?;
    let want = Want {
        status: 0,
        out: text.as_slice(),
        notes: b"",
    };
    gives(alloc, &["c"], source, want)
}

#[test]
fn texts_in_c(rt: HostRuntime) -> Result<(), Fail> {
    for (source, expected) in &TEXTS {
        assert!(rt; compiles_to(rt.alloc(), source, expected)?);
    }
    Ok(())
}
