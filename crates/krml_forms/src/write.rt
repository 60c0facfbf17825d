//! The text of forms.

ghost use Rattle.std.specs.Prelude.{◌≡◌, ◌++◌, ◌∷◌, [], map, OnOk, IfOk};
ghost use Rattle.krml_forms.specs.Writing.{joined, form_text, forms_text, space};

use crate::form::Form;
use krml_trace::NoMemory;
use std::alloc::Global;

/// Appends a form.
#[cycle(write)]
fn write_form(out: &mut Vec<u8>, form: &Form) -> Result<(), NoMemory>
    ensures { OnOk result (out.new.items ≡ out.old.items ++ form_text form.now) }
{
    match form {
        Form::Atom(word) => out.extend_from_slice(word.as_slice()),
        Form::List(forms) => write_list(out, forms.as_slice()),
    }
}

/// Appends forms between parentheses, with single spaces between them.
#[cycle(write)]
fn write_list(out: &mut Vec<u8>, forms: &[Form]) -> Result<(), NoMemory>
    ensures { OnOk result (out.new.items ≡ out.old.items ++ (40 ∷ joined (map form_text forms.now) ++ 41 ∷ [])) }
{
    out.push(b'(')?;
    for (i, form) in forms.iter().enumerate() {
        write_space(out, i)?;
        write_form(out, form)?;
    }
    out.push(b')')?;
    Ok(())
}

/// Appends a space, unless no form stands before.
fn write_space(out: &mut Vec<u8>, before: usize) -> Result<(), NoMemory>
    ensures { OnOk result (out.new.items ≡ out.old.items ++ space before) }
{
    if before > 0 {
        out.push(b' ')?;
    }
    Ok(())
}

/// Appends a form on a line of its own.
fn write_line(out: &mut Vec<u8>, form: &Form) -> Result<(), NoMemory>
    ensures { OnOk result (out.new.items ≡ out.old.items ++ (form_text form.now ++ 10 ∷ [])) }
{
    write_form(out, form)?;
    out.push(b'\n')?;
    Ok(())
}

/// The text of forms, each on a line of its own: single spaces between the parts of a list, and no others.
pub fn write_forms(alloc: Global, forms: &[Form]) -> Result<Vec<u8>, NoMemory>
    ensures { IfOk result (λ text. text.items ≡ forms_text forms.now) }
{
    let mut out = Vec::new(alloc);
    for form in forms {
        write_line(&mut out, form)?;
    }
    Ok(out)
}
