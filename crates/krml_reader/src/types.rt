//! The type that a form spells.

ghost use Rattle.std.specs.Prelude.{◌≡◌};
ghost use Rattle.krml_trace.specs.Gives.{Gives};
ghost use Rattle.krml_reader.specs.Each.{below};
ghost use Rattle.krml_reader.specs.Types.{named_of, word_of, variable_of, atom_of, is_buf, buffer_by, applied_by, ty_at, list_at, tys_of, tys_at};

use crate::keyword::{Keyword, keyword_at, keyword_of};
use crate::name::{name_at, name_of};
use crate::room::room_for;
use krml_forms::Form;
use krml_syntax::Ty;
use krml_trace::{Box, Missing, Seq, both};
use std::alloc::Global;

/// A struct or a sum without type arguments.
fn named(alloc: Global, word: &[u8]) -> Result<Ty, Missing>
    ensures { Gives result (named_of word.now) }
{
    let name = name_of(alloc, word)?;
    Ok(Ty::Named(name, Seq::new(alloc)))
}

fn word(alloc: Global, word: &[u8]) -> Result<Ty, Missing>
    ensures { Gives result (word_of word.now) }
{
    match keyword_of(word) {
        Some(Keyword::Boolean) => Ok(Ty::Bool),
        Some(Keyword::Unit) => Ok(Ty::Unit),
        Some(Keyword::Int(ty)) => Ok(Ty::Int(ty)),
        _ => named(alloc, word),
    }
}

fn variable(alloc: Global, word: &[u8]) -> Result<Ty, Missing>
    ensures { Gives result (variable_of word.now) }
{
    let name = name_of(alloc, word)?;
    Ok(Ty::Var(name))
}

fn atom(alloc: Global, letters: &[u8]) -> Result<Ty, Missing>
    ensures { Gives result (atom_of letters.now) }
{
    match letters {
        [b'\'', name @ ..] => variable(alloc, name),
        _ => word(alloc, letters),
    }
}

fn is_buf(form: &Form) -> bool
    ensures { result ≡ is_buf form.now }
{
    matches!(keyword_at(form), Some(Keyword::Buf))
}

/// The type that a form spells, where the lists in it may have so many levels.
#[cycle(ty)]
pub fn ty_at(alloc: Global, levels: u32, form: &Form) -> Result<Ty, Missing>
    ensures { Gives result (ty_at levels form.now) }
{
    match form {
        Form::Atom(word) => atom(alloc, word.as_slice()),
        Form::List(forms) => list_at(alloc, levels, forms.as_slice()),
    }
}

/// What a list spells.
#[tactic(auto, unfolding(crate::specs::Types::list_at))]
#[cycle(ty)]
fn list_at(alloc: Global, levels: u32, forms: &[Form]) -> Result<Ty, Missing>
    ensures { Gives result (list_at levels forms.now) }
{
    if levels == 0 {
        return Err(Missing::Absent);
    }
    let levels = levels - 1;
    let [head, rest @ ..] = forms else {
        return Err(Missing::Absent);
    };
    if is_buf(head) {
        buffer(alloc, levels, rest)
    } else {
        applied(alloc, levels, head, rest)
    }
}

/// `(buf T)`, behind its keyword.
#[cycle(ty)]
fn buffer(alloc: Global, levels: u32, rest: &[Form]) -> Result<Ty, Missing>
    ensures { Gives result (buffer_by (ty_at levels) rest.now) }
{
    let [ty] = rest else {
        return Err(Missing::Absent);
    };
    let ty = ty_at(alloc, levels, ty)?;
    Ok(Ty::Buf(Box::new(alloc, ty)?))
}

/// `(NAME T..)`, with one type argument or more.
#[cycle(ty)]
fn applied(alloc: Global, levels: u32, head: &Form, rest: &[Form]) -> Result<Ty, Missing>
    ensures { Gives result (applied_by (ty_at levels) head.now rest.now) }
{
    if rest.is_empty() {
        return Err(Missing::Absent);
    }
    let (name, args) = both(name_at(alloc, head), tys_of(alloc, levels, rest))?;
    Ok(Ty::Named(name, args))
}

/// The types that forms spell, each of so many levels.
#[tactic(auto, unfolding(crate::specs::Each::each_after))]
#[cycle(ty)]
pub fn tys_of(alloc: Global, levels: u32, forms: &[Form]) -> Result<Seq<Ty>, Missing>
    ensures { Gives result (tys_of levels forms.now) }
{
    let mut tys = room_for(alloc, forms)?;
    for form in forms {
        tys.push(ty_at(alloc, levels, form)?)?;
    }
    Ok(tys)
}

fn tys_below(alloc: Global, levels: u32, forms: &[Form]) -> Result<Seq<Ty>, Missing>
    ensures { Gives result (below tys_of levels forms.now) }
{
    if levels == 0 {
        return Err(Missing::Absent);
    }
    tys_of(alloc, levels - 1, forms)
}

/// `(T..)`.
pub fn tys_at(alloc: Global, levels: u32, form: &Form) -> Result<Seq<Ty>, Missing>
    ensures { Gives result (tys_at levels form.now) }
{
    match form {
        Form::Atom(_) => Err(Missing::Absent),
        Form::List(forms) => tys_below(alloc, levels, forms.as_slice()),
    }
}
