//! The pattern that a form spells.

ghost use Rattle.std.specs.Prelude.{◌≡◌};
ghost use Rattle.krml_trace.specs.Gives.{Gives};
ghost use Rattle.krml_reader.specs.Pattern.{bound_of, word_by, atom_of, number_of, parts_at, con_at, make_at, pat_at, list_at, pats_of};

use crate::keyword::{Keyword, keyword_at, keyword_of};
use crate::name::{name_at, name_of};
use crate::room::room_for;
use crate::words::number_of_width;
use krml_forms::Form;
use krml_syntax::{IntTy, Pat};
use krml_trace::{Missing, Name, Seq, both};
use std::alloc::Global;

fn bound(alloc: Global, word: &[u8]) -> Result<Pat, Missing>
    ensures { Gives result (bound_of word.now) }
{
    let name = name_of(alloc, word)?;
    Ok(Pat::Bind(name))
}

fn atom(alloc: Global, word: &[u8]) -> Result<Pat, Missing>
    ensures { Gives result (atom_of word.now) }
{
    if word == b"_".as_slice() {
        return Ok(Pat::Any);
    }
    match keyword_of(word) {
        Some(Keyword::Truth(value)) => Ok(Pat::Bool(value)),
        _ => bound(alloc, word),
    }
}

/// `(I N)`, behind its type.
fn number(ty: IntTy, rest: &[Form]) -> Result<Pat, Missing>
    ensures { Gives result (number_of ty rest.now) }
{
    let [digits] = rest else {
        return Err(Missing::Absent);
    };
    match number_of_width(ty.width, digits) {
        Some(value) => Ok(Pat::Num(ty, value)),
        None => Err(Missing::Absent),
    }
}

/// The pattern that a form spells, where the lists in it may have so many levels.
#[cycle(pattern)]
pub fn pat_at(alloc: Global, levels: u32, form: &Form) -> Result<Pat, Missing>
    ensures { Gives result (pat_at levels form.now) }
{
    match form {
        Form::Atom(word) => atom(alloc, word.as_slice()),
        Form::List(forms) => list_at(alloc, levels, forms.as_slice()),
    }
}

/// What a list spells.
#[tactic(auto, unfolding(crate::specs::Pattern::list_at))]
#[cycle(pattern)]
fn list_at(alloc: Global, levels: u32, forms: &[Form]) -> Result<Pat, Missing>
    ensures { Gives result (list_at levels forms.now) }
{
    if levels == 0 {
        return Err(Missing::Absent);
    }
    let levels = levels - 1;
    let [head, rest @ ..] = forms else {
        return Err(Missing::Absent);
    };
    match keyword_at(head) {
        Some(Keyword::Int(ty)) => number(ty, rest),
        Some(Keyword::Con) => con(alloc, levels, rest),
        Some(Keyword::Make) => make(alloc, levels, rest),
        _ => Err(Missing::Absent),
    }
}

/// A name, and patterns.
#[cycle(pattern)]
fn parts(alloc: Global, levels: u32, rest: &[Form]) -> Result<(Name, Seq<Pat>), Missing>
    ensures { Gives result (parts_at levels rest.now) }
{
    let [name, forms @ ..] = rest else {
        return Err(Missing::Absent);
    };
    both(name_at(alloc, name), pats_of(alloc, levels, forms))
}

/// `(con C P..)`, behind its keyword.
#[cycle(pattern)]
fn con(alloc: Global, levels: u32, rest: &[Form]) -> Result<Pat, Missing>
    ensures { Gives result (con_at levels rest.now) }
{
    let (name, pats) = parts(alloc, levels, rest)?;
    Ok(Pat::Con(name, pats))
}

/// `(make S P..)`, behind its keyword.
#[cycle(pattern)]
fn make(alloc: Global, levels: u32, rest: &[Form]) -> Result<Pat, Missing>
    ensures { Gives result (make_at levels rest.now) }
{
    let (name, pats) = parts(alloc, levels, rest)?;
    Ok(Pat::Make(name, pats))
}

#[tactic(auto, unfolding(crate::specs::Each::each_after))]
#[cycle(pattern)]
fn pats_of(alloc: Global, levels: u32, forms: &[Form]) -> Result<Seq<Pat>, Missing>
    ensures { Gives result (pats_of levels forms.now) }
{
    let mut pats = room_for(alloc, forms)?;
    for form in forms {
        pats.push(pat_at(alloc, levels, form)?)?;
    }
    Ok(pats)
}
