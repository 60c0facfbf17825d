//! The number that a word spells.

ghost use Rattle.std.specs.Prelude.{◌≡◌, true, ◌≤◌, length};
ghost use Rattle.krml_syntax.specs.Number.{is_digits, is_plain, are_hex_digits, decimal_of, value_of, hex_value_of, hexadecimal_of, number_of, number_at};

use krml_forms::Form;
use std::str;

fn is_digits(word: &[u8]) -> bool
    ensures { result ≡ is_digits word.now }
{
    word.iter().all(|byte| byte.is_ascii_digit())
}

/// One byte or more, and no zero before another.
fn is_plain(word: &[u8]) -> bool
    ensures { result ≡ is_plain word.now }
{
    match word {
        [] => false,
        [_] => true,
        [first, _, ..] => *first != b'0',
    }
}

fn value_of(word: &[u8]) -> Option<u64>
    requires digits { is_digits word.now ≡ true }
    requires plain { is_plain word.now ≡ true }
    ensures { result ≡ value_of word.now }
{
    match str::from_utf8(word) {
        Ok(text) => text.parse::<u64>().ok(),
        Err(_) => None,
    }
}

fn decimal_of(word: &[u8]) -> Option<u64>
    requires { is_digits word.now ≡ true }
    ensures { result ≡ decimal_of word.now }
{
    if is_plain(word) { value_of(word) } else { None }
}

fn are_hex_digits(word: &[u8]) -> bool
    ensures { result ≡ are_hex_digits word.now }
{
    word.iter().all(|byte| byte.is_ascii_hexdigit())
}

fn hex_value_of(digits: &[u8]) -> Option<u64>
    requires some { 1 ≤ length digits.now }
    requires few { length digits.now ≤ 16 }
    requires digits { are_hex_digits digits.now ≡ true }
    ensures { result ≡ hex_value_of digits.now }
{
    match str::from_utf8(digits) {
        Ok(text) => u64::from_str_radix(text, 16).ok(),
        Err(_) => None,
    }
}

/// `0x` and 1 to 16 digits of either case.
fn hexadecimal_of(word: &[u8]) -> Option<u64>
    ensures { result ≡ hexadecimal_of word.now }
{
    match word {
        [b'0', b'x', digits @ ..] => {
            if (1..=16).contains(&digits.len()) && are_hex_digits(digits) {
                hex_value_of(digits)
            } else {
                None
            }
        }
        _ => None,
    }
}

/// The number that a word writes, below 2 to the power 64.
#[tactic(auto, unfolding(crate::specs::Number::number_of))]
fn number_of(word: &[u8]) -> Option<u64>
    ensures { result ≡ number_of word.now }
{
    if is_digits(word) {
        decimal_of(word)
    } else {
        hexadecimal_of(word)
    }
}

/// The number that a form writes.
pub fn number_at(form: &Form) -> Option<u64>
    ensures { result ≡ number_at form.now }
{
    match form {
        Form::Atom(word) => number_of(word.as_slice()),
        Form::List(_) => None,
    }
}
