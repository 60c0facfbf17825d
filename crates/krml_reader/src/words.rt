//! Type variables, integer types and numbers that forms spell.

ghost use Rattle.std.specs.Prelude.{◌≡◌};
ghost use Rattle.krml_trace.specs.Gives.{Gives};
ghost use Rattle.krml_reader.specs.Words.{var_of, var_at, int_at, number_of_width, length_by, length_at};

use crate::keyword::{Keyword, keyword_at};
use crate::name::name_of;
use krml_forms::Form;
use krml_syntax::{IntTy, number_at};
use krml_trace::{Missing, Name, Width};
use std::alloc::Global;

fn var_of(alloc: Global, word: &[u8]) -> Result<Name, Missing>
    ensures { Gives result (var_of word.now) }
{
    match word {
        [b'\'', name @ ..] => name_of(alloc, name),
        _ => Err(Missing::Absent),
    }
}

/// The type variable that a form is, by its name without the quote.
pub fn var_at(alloc: Global, form: &Form) -> Result<Name, Missing>
    ensures { Gives result (var_at form.now) }
{
    match form {
        Form::Atom(word) => var_of(alloc, word.as_slice()),
        Form::List(_) => Err(Missing::Absent),
    }
}

/// The integer type that a form is.
pub fn int_at(form: &Form) -> Option<IntTy>
    ensures { result ≡ int_at form.now }
{
    match keyword_at(form) {
        Some(Keyword::Int(ty)) => Some(ty),
        _ => None,
    }
}

/// The number that a form writes, where it is below 2 to the power of the width.
pub fn number_of_width(width: Width, form: &Form) -> Option<u64>
    ensures { result ≡ number_of_width width form.now }
{
    match number_at(form) {
        Some(number) => {
            if width.fits(number) {
                Some(number)
            } else {
                None
            }
        }
        None => None,
    }
}

fn length_by(number: u64) -> Option<u32>
    ensures { result ≡ length_by number }
{
    if number == 0 {
        return None;
    }
    u32::try_from(number).ok()
}

/// The number that a form writes, where it is 1 or more and below 2 to the power 32.
pub fn length_at(form: &Form) -> Option<u32>
    ensures { result ≡ length_at form.now }
{
    match number_at(form) {
        Some(number) => length_by(number),
        None => None,
    }
}
