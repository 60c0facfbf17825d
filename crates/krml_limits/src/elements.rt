//! The `alloc` forms that have more elements than a limit.

ghost use Rattle.std.specs.Prelude.{◌≡◌};
ghost use Rattle.std.specs.List.{flat_map};
ghost use Rattle.krml_syntax.specs.Limits.{is_alloc_in, first_above, own_length, alloc_lengths};
ghost use Rattle.krml_forms.specs.declared.form.Form.{out-Form};

use crate::limit::above;
use krml_forms::Form;
use krml_syntax::number_at;

fn is_alloc(form: &Form) -> bool
    ensures { result ≡ is_alloc_in (out-Form form.now) }
{
    match form {
        Form::Atom(word) => matches!(word.as_slice(), b"alloc"),
        Form::List(_) => false,
    }
}

/// The number of elements of a list that is `(alloc T N e)`, where it is above a limit.
fn long_list(limit: u64, forms: &[Form]) -> Option<u64>
    ensures { result ≡ first_above limit (own_length forms.now) }
{
    match forms {
        [head, _, length, _] if is_alloc(head) => above(limit, number_at(length)?),
        _ => None,
    }
}

/// The first number of elements in the `alloc` forms of a form that is above a limit.
#[cycle(elements)]
pub fn long_alloc(limit: u64, form: &Form) -> Option<u64>
    ensures { result ≡ first_above limit (alloc_lengths form.now) }
{
    match form {
        Form::Atom(_) => None,
        Form::List(forms) => {
            let forms = forms.as_slice();
            match long_list(limit, forms) {
                Some(length) => Some(length),
                None => long_alloc_of(limit, forms),
            }
        }
    }
}

/// The same of forms in a row.
#[cycle(elements)]
fn long_alloc_of(limit: u64, forms: &[Form]) -> Option<u64>
    ensures { result ≡ first_above limit (flat_map alloc_lengths forms.now) }
{
    for form in forms {
        if let Some(length) = long_alloc(limit, form) {
            return Some(length);
        }
    }
    None
}
