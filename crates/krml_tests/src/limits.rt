//! Limits that are exceeded by one.

use krml_forms::Form;
use krml_limits::{Excess, first_excess};
use krml_syntax::{Def, Expr, LimitKind, Ty};
use krml_trace::{Name, NoMemory, Seq};
use std::alloc::Global;

fn word(alloc: Global, letter: u8, length: usize) -> Result<Form, NoMemory> {
    let mut bytes = Seq::new(alloc);
    for _ in 0..length {
        bytes.push(letter)?;
    }
    Ok(Form::Atom(bytes))
}

fn atom(alloc: Global, word: &[u8]) -> Result<Form, NoMemory> {
    Ok(Form::Atom(Seq::from_slice(alloc, word)?))
}

/// `(LETTER.. (alloc u8 N f))`: a form with a word of a length, and an `alloc`.
fn form(alloc: Global, length: usize, elements: &[u8]) -> Result<Form, NoMemory> {
    let inner = Vec::from_array(
        alloc,
        [
            atom(alloc, b"alloc")?,
            atom(alloc, b"u8")?,
            atom(alloc, elements)?,
            atom(alloc, b"f")?,
        ],
    )?;
    let outer = Vec::from_array(
        alloc,
        [word(alloc, b'f', length)?, Form::List(Seq::from_vec(inner))],
    )?;
    Ok(Form::List(Seq::from_vec(outer)))
}

fn function(alloc: Global) -> Result<Def, NoMemory> {
    Ok(Def::Fun {
        name: Name::new(alloc, b"f")?,
        vars: Seq::new(alloc),
        params: Seq::new(alloc),
        result: Ty::Unit,
        body: Expr::Unit,
    })
}

/// The first excess of as many functions, each spelled by a form with a word of a length and an `alloc`.
fn excess_of(
    alloc: Global,
    functions: usize,
    length: usize,
    elements: &[u8],
) -> Result<Option<Excess>, NoMemory> {
    let mut forms = Vec::new(alloc);
    let mut defs = Vec::new(alloc);
    for _ in 0..functions {
        forms.push(form(alloc, length, elements)?)?;
        defs.push(function(alloc)?)?;
    }
    first_excess(forms.as_slice(), defs.as_slice())
}

#[test]
fn finds_the_first_excess(rt: HostRuntime) {
    let alloc = rt.alloc();
    let cases: [(usize, usize, &[u8], Option<(LimitKind, u64)>); 7] = [
        (1, 64, b"65536", None),
        (1, 65, b"65536", Some((LimitKind::Name, 65))),
        (1, 64, b"65537", Some((LimitKind::Elements, 65_537))),
        (1, 64, b"0x10001", Some((LimitKind::Elements, 65_537))),
        (1, 65, b"65537", Some((LimitKind::Name, 65))),
        (2_000, 1, b"1", None),
        (2_001, 65, b"1", Some((LimitKind::Definitions, 2_001))),
    ];
    for (functions, length, elements, want) in cases {
        let found = excess_of(alloc, functions, length, elements).expect(&rt, "memory");
        let want = want.map(|(which, count)| Excess { which, count });
        assert_eq!(rt; found, want);
    }
}
