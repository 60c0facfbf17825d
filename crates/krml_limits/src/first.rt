//! The first limit that a file exceeds.

ghost use Rattle.std.specs.Prelude.{◌≡◌, ◌≤◌, ◌^◌, IfOk, OnErr, option_map};
ghost use Rattle.krml_syntax.specs.Limits.{limit_of, first_above, counts_in, counts_each, excess, first_excess_of, first_excess};
ghost use Rattle.krml_forms.specs.Levels.{form_count};
ghost use Rattle.krml_limits.specs.Excess.{pair};
ghost use Rattle.krml_limits.specs.Uncounted.{HasUncounted};

use crate::elements::long_alloc;
use crate::excess::Excess;
use crate::limit::{above, limit_of};
use crate::words::long_word;
use krml_forms::{Form, form_count};
use krml_syntax::{Def, LimitKind};
use krml_trace::NoMemory;

/// The kinds in the order in which they are answered.
const KINDS: [LimitKind; 8] = [
    LimitKind::Definitions,
    LimitKind::Name,
    LimitKind::Forms,
    LimitKind::Variables,
    LimitKind::Parameters,
    LimitKind::Fields,
    LimitKind::Constructors,
    LimitKind::Elements,
];

/// The first count of a kind in a definition, and the form that spells it, that is above a limit.
fn excess_in(limit: u64, kind: LimitKind, form: &Form, def: &Def) -> Result<Option<u64>, NoMemory>
    ensures first { IfOk result (λ count. count ≡ first_above limit (counts_in kind form.now def.now)) }
    ensures past { OnErr result (2 ^ 64 ≤ form_count form.now) }
{
    let count = match (kind, def) {
        (LimitKind::Name, _) => return Ok(long_word(limit, form)),
        (LimitKind::Elements, Def::Fun { .. }) => return Ok(long_alloc(limit, form)),
        (LimitKind::Elements, Def::Table { nums, .. }) => nums.len() as u64,
        (LimitKind::Forms, Def::Fun { .. }) => form_count(form)?,
        (
            LimitKind::Variables,
            Def::Struct { vars, .. } | Def::Sum { vars, .. } | Def::Fun { vars, .. },
        ) => vars.len() as u64,
        (LimitKind::Parameters, Def::Fun { params, .. }) => params.len() as u64,
        (LimitKind::Fields, Def::Struct { fields, .. }) => fields.len() as u64,
        (LimitKind::Constructors, Def::Sum { cons, .. }) => cons.len() as u64,
        _ => return Ok(None),
    };
    Ok(above(limit, count))
}

/// The first count of a kind in definitions, and the forms that spell them, that is above a limit.
fn excess_each(
    limit: u64,
    kind: LimitKind,
    forms: &[Form],
    defs: &[Def],
) -> Result<Option<u64>, NoMemory>
    ensures first { IfOk result (λ count. count ≡ first_above limit (counts_each kind forms.now defs.now)) }
    ensures past { OnErr result (HasUncounted forms.now) }
{
    for (form, def) in forms.iter().zip(defs) {
        if let Some(count) = excess_in(limit, kind, form, def)? {
            return Ok(Some(count));
        }
    }
    Ok(None)
}

/// The first count of a kind in a file that is above its limit.
fn excess_of(kind: LimitKind, forms: &[Form], defs: &[Def]) -> Result<Option<u64>, NoMemory>
    ensures first { IfOk result (λ count. count ≡ excess kind forms.now defs.now) }
    ensures past { OnErr result (HasUncounted forms.now) }
{
    let limit = limit_of(kind);
    match kind {
        LimitKind::Definitions => Ok(above(limit, defs.len() as u64)),
        _ => excess_each(limit, kind, forms, defs),
    }
}

/// The first of these kinds whose limit a file exceeds, with the first count that is above it.
fn first_excess_of(
    kinds: &[LimitKind],
    forms: &[Form],
    defs: &[Def],
) -> Result<Option<Excess>, NoMemory>
    ensures first { IfOk result (λ found. option_map pair found ≡ first_excess_of kinds.now forms.now defs.now) }
    ensures past { OnErr result (HasUncounted forms.now) }
{
    for kind in kinds {
        if let Some(count) = excess_of(*kind, forms, defs)? {
            return Ok(Some(Excess {
                which: *kind,
                count,
            }));
        }
    }
    Ok(None)
}

/// The first limit that a file exceeds, from its definitions and the forms that spell them, both in order. Takes no
/// memory: `NoMemory` only where a form has 2 to the power 64 forms or more, as in no text.
pub fn first_excess(forms: &[Form], defs: &[Def]) -> Result<Option<Excess>, NoMemory>
    ensures first { IfOk result (λ found. option_map pair found ≡ first_excess forms.now defs.now) }
    ensures past { OnErr result (HasUncounted forms.now) }
{
    first_excess_of(&KINDS, forms, defs)
}
