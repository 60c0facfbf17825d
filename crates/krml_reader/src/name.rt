//! Names of the source, which no reserved word is.

ghost use Rattle.std.specs.Prelude.{◌≡◌};
ghost use Rattle.std.specs.List.{list_all};
ghost use Rattle.krml_trace.specs.Byte.{is_letter, is_name_byte};
ghost use Rattle.krml_syntax.specs.Name.{is_reserved, is_name};
ghost use Rattle.krml_trace.specs.Gives.{Gives};
ghost use Rattle.krml_reader.specs.Words.{name_of, name_at};

use krml_forms::Form;
use krml_trace::{Missing, Name};
use std::alloc::Global;

fn is_letter(byte: u8) -> bool
    ensures { result ≡ is_letter byte }
{
    byte.is_ascii_alphabetic()
}

fn is_name_byte(byte: u8) -> bool
    ensures { result ≡ is_name_byte byte }
{
    byte.is_ascii_alphanumeric() || byte == b'_'
}

fn are_name_bytes(bytes: &[u8]) -> bool
    ensures { result ≡ list_all is_name_byte bytes.now }
{
    bytes.iter().all(|byte| is_name_byte(*byte))
}

#[tactic(auto, unfolding(krml_syntax::specs::Name::is_reserved))]
fn is_reserved(word: &[u8]) -> bool
    ensures { result ≡ is_reserved word.now }
{
    matches!(
        word,
        b"bool"
            | b"unit"
            | b"buf"
            | b"true"
            | b"false"
            | b"u8"
            | b"u16"
            | b"u32"
            | b"u64"
            | b"su8"
            | b"su16"
            | b"su32"
            | b"su64"
    )
}

#[tactic(auto, unfolding(krml_syntax::specs::Name::is_name))]
fn is_name(word: &[u8]) -> bool
    ensures { result ≡ is_name word.now }
{
    let [first, rest @ ..] = word else {
        return false;
    };
    is_letter(*first) && are_name_bytes(rest) && !is_reserved(word)
}

/// The name that a word is.
pub fn name_of(alloc: Global, word: &[u8]) -> Result<Name, Missing>
    ensures { Gives result (name_of word.now) }
{
    if is_name(word) {
        Ok(Name::new(alloc, word)?)
    } else {
        Err(Missing::Absent)
    }
}

/// The name that a form is.
pub fn name_at(alloc: Global, form: &Form) -> Result<Name, Missing>
    ensures { Gives result (name_at form.now) }
{
    match form {
        Form::Atom(word) => name_of(alloc, word.as_slice()),
        Form::List(_) => Err(Missing::Absent),
    }
}
