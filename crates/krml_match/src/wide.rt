//! The first type of a file that has more leaves than it may have.

ghost use Rattle.std.specs.Prelude.{◌≡◌, IfOk};
ghost use Rattle.krml_ast.specs.WellTyped.{AreWellTyped};
ghost use Rattle.krml_match.specs.Wide.{if_wide, first_wide};
ghost use Rattle.krml_match.specs.Counted.{wide_at};

use crate::leaves::of_def;
use krml_ast::{Def, Names, source_name};
use krml_trace::{Name, NoMemory, Seq};
use std::alloc::Global;

/// The leaves that a type may have.
const MAX_LEAVES: u64 = 24;

/// The name in the source, and the leaves, where these are more than a type may have.
fn if_wide(alloc: Global, x: &Name, leaves: u64) -> Result<Option<(Name, u64)>, NoMemory>
    ensures { IfOk result (λ r. r ≡ if_wide x.now leaves) }
{
    if MAX_LEAVES < leaves {
        let name = source_name(alloc, x)?;
        return Ok(Some((name, leaves)));
    }
    Ok(None)
}

/// The same of what a definition defines, which has so many leaves.
fn wide_at(alloc: Global, leaves: u64, def: &Def) -> Result<Option<(Name, u64)>, NoMemory>
    ensures { IfOk result (λ r. r ≡ wide_at leaves def.now) }
{
    match def {
        Def::Struct { name, .. } => if_wide(alloc, name, leaves),
        Def::Sum { name, .. } => if_wide(alloc, name, leaves),
        _ => Ok(None),
    }
}

/// The first struct or sum of a well typed file that has more leaves than it may have: its name in the source, and its leaves.
/// The leaves of each definition are counted once, from those of earlier ones.
pub(crate) fn first_wide(alloc: Global, defs: &[Def]) -> Result<Option<(Name, u64)>, NoMemory>
    ensures { IfOk result (λ r. AreWellTyped defs.now → r ≡ first_wide defs.now) }
{
    let names = Names::new(alloc, defs)?;
    let mut counts = Seq::new(alloc);
    for def in defs {
        let leaves = of_def(&names, counts.as_slice(), def)?;
        let wide = wide_at(alloc, leaves, def)?;
        if wide.is_some() {
            return Ok(wide);
        }
        counts.push(leaves)?;
    }
    Ok(None)
}
