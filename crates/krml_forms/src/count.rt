//! How many forms a form has, itself and those in it.

ghost use Rattle.std.specs.Prelude.{◌≡◌, ◌+◌, ◌≤◌, ◌^◌, IfOk, OnErr, map, sum};
ghost use Rattle.krml_forms.specs.Levels.{form_count};

use crate::form::Form;
use krml_trace::NoMemory;

/// The sum of two counts. `NoMemory` where it is past the last value of a u64.
fn plus(a: u64, b: u64) -> Result<u64, NoMemory>
    ensures sum { IfOk result (λ sum. sum ≡ a + b) }
    ensures past { OnErr result (2 ^ 64 ≤ a + b) }
{
    a.checked_add(b).ok_or(NoMemory)
}

/// How many forms a form has, itself and those in it. `NoMemory` where they are more than a u64 counts.
#[cycle(count)]
pub fn form_count(form: &Form) -> Result<u64, NoMemory>
    ensures count { IfOk result (λ count. count ≡ form_count form.now) }
    ensures past { OnErr result (2 ^ 64 ≤ form_count form.now) }
{
    match form {
        Form::Atom(_) => Ok(1),
        Form::List(forms) => plus(count_of(forms.as_slice())?, 1),
    }
}

/// How many forms these have together.
#[cycle(count)]
pub fn count_of(forms: &[Form]) -> Result<u64, NoMemory>
    ensures count { IfOk result (λ count. count ≡ sum (map form_count forms.now)) }
    ensures past { OnErr result (2 ^ 64 ≤ sum (map form_count forms.now)) }
{
    let mut count = 0;
    for form in forms {
        count = plus(count, form_count(form)?)?;
    }
    Ok(count)
}
