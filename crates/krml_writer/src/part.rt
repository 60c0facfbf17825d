//! Forms that may fail to be made, and lists of them.

ghost use Rattle.std.specs.Prelude.{◌≡◌, [], ◌∷◌, ◌++◌, IfOk, IsOkAnd, Ok, map};
ghost use Rattle.std.specs.Fmt.{decimal};
ghost use Rattle.krml_writer.specs.Parts.{AllOkAnd};

use krml_forms::Form;
use krml_trace::{Name, NoMemory, Seq, both};
use std::alloc::Global;

/// A form, or want of memory.
pub type Part = Result<Form, NoMemory>;

/// A word.
pub fn word(alloc: Global, bytes: &[u8]) -> Part
    ensures { IfOk result (λ form. form ≡ Form.Atom bytes.now) }
{
    Ok(Form::Atom(Seq::from_slice(alloc, bytes)?))
}

/// A number, in decimal digits.
pub fn number(alloc: Global, n: u64) -> Part
    ensures { IfOk result (λ form. form ≡ Form.Atom (decimal n)) }
{
    let digits = n.to_string(alloc)?;
    word(alloc, digits.as_bytes())
}

/// A type variable: a quote and its name.
pub fn variable(alloc: Global, name: &Name) -> Part
    ensures { IfOk result (λ form. form ≡ Form.Atom (39 ∷ name.now)) }
{
    let mut bytes = Seq::from_slice(alloc, b"'")?;
    bytes.append(Seq::from_slice(alloc, name.as_bytes())?)?;
    Ok(Form::Atom(bytes))
}

/// Forms in a row, from parts that have them.
fn row<const N: usize>(alloc: Global, parts: [Part; N]) -> Result<Seq<Form>, NoMemory>
    ensures { IfOk result (λ forms. parts.entry ≡ map Ok forms) }
{
    let mut forms = Seq::new(alloc);
    for part in Vec::from_array(alloc, parts)? {
        forms.push(part?)?;
    }
    Ok(forms)
}

/// The list of its parts.
#[tactic(auto, using(crate::proofs::Parts::all_ok_and))]
pub fn list<const N: usize>(alloc: Global, parts: [Part; N]) -> Part
    ensures { IfOk result (λ form. AllOkAnd parts.entry (λ forms. form ≡ Form.List forms)) }
{
    Ok(Form::List(row(alloc, parts)?))
}

/// The list of its first parts and of those that follow.
#[tactic(auto, using(crate::proofs::Parts::all_ok_and))]
pub fn list_with<const N: usize>(
    alloc: Global,
    first: [Part; N],
    rest: Result<Seq<Form>, NoMemory>,
) -> Part
    ensures { IfOk result (λ form. IsOkAnd rest (λ rest. AllOkAnd first.entry (λ first. form ≡ Form.List (first ++ rest)))) }
{
    let (mut forms, rest) = both(row(alloc, first), rest)?;
    forms.append(rest)?;
    Ok(Form::List(forms))
}

/// A word and a part.
pub fn unary(alloc: Global, head: &[u8], a: Part) -> Part
    ensures { IfOk result (λ form. IsOkAnd a (λ a. form ≡ Form.List (Form.Atom head.now ∷ a ∷ []))) }
{
    list(alloc, [word(alloc, head), a])
}

/// A word and two parts.
pub fn binary(alloc: Global, head: &[u8], a: Part, b: Part) -> Part
    ensures { IfOk result (λ form. IsOkAnd a (λ a. IsOkAnd b (λ b. form ≡ Form.List (Form.Atom head.now ∷ a ∷ b ∷ [])))) }
{
    list(alloc, [word(alloc, head), a, b])
}

/// A word and three parts.
pub fn ternary(alloc: Global, head: &[u8], a: Part, b: Part, c: Part) -> Part
    ensures { IfOk result (λ form. IsOkAnd a (λ a. IsOkAnd b (λ b. IsOkAnd c (λ c. form ≡ Form.List (Form.Atom head.now ∷ a ∷ b ∷ c ∷ []))))) }
{
    list(alloc, [word(alloc, head), a, b, c])
}
