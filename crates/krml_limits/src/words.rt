//! Words that are longer than a limit.

ghost use Rattle.std.specs.Prelude.{◌≡◌};
ghost use Rattle.std.specs.List.{flat_map};
ghost use Rattle.krml_syntax.specs.Limits.{first_above, word_length, word_lengths};

use crate::limit::above;
use krml_forms::Form;

/// The bytes of a word, without the quote of a type variable.
fn word_length(word: &[u8]) -> u64
    ensures { result ≡ word_length word.now }
{
    match word {
        [b'\'', name @ ..] => name.len() as u64,
        _ => word.len() as u64,
    }
}

/// The length of the first word of a form that is longer than a limit.
#[cycle(words)]
pub fn long_word(limit: u64, form: &Form) -> Option<u64>
    ensures { result ≡ first_above limit (word_lengths form.now) }
{
    match form {
        Form::Atom(word) => above(limit, word_length(word.as_slice())),
        Form::List(forms) => long_word_of(limit, forms.as_slice()),
    }
}

/// The same of forms in a row.
#[cycle(words)]
fn long_word_of(limit: u64, forms: &[Form]) -> Option<u64>
    ensures { result ≡ first_above limit (flat_map word_lengths forms.now) }
{
    for form in forms {
        if let Some(length) = long_word(limit, form) {
            return Some(length);
        }
    }
    None
}
