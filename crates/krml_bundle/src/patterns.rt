//! Patterns under the new names.

ghost use Rattle.std.specs.Prelude.{◌≡◌, IfOk, map};
ghost use Rattle.krml_bundle.specs.Bundled.{pat_bundled};

use crate::new_names::emitted_type;
use krml_syntax::Pat;
use krml_trace::{NoMemory, Seq};
use std::alloc::Global;

/// A pattern under the new names.
#[cycle(rename)]
pub(crate) fn pat_bundled(alloc: Global, pat: &Pat) -> Result<Pat, NoMemory>
    ensures { IfOk result (λ r. r ≡ pat_bundled pat.now) }
{
    match pat {
        Pat::Any => Ok(Pat::Any),
        Pat::Bind(x) => Ok(Pat::Bind(x.copy(alloc)?)),
        Pat::Bool(b) => Ok(Pat::Bool(*b)),
        Pat::Num(i, n) => Ok(Pat::Num(*i, *n)),
        Pat::Con(x, pats) => {
            let pats = pats_bundled(alloc, pats.as_slice())?;
            Ok(Pat::Con(x.copy(alloc)?, pats))
        }
        Pat::Make(x, pats) => {
            let pats = pats_bundled(alloc, pats.as_slice())?;
            Ok(Pat::Make(emitted_type(alloc, x)?, pats))
        }
    }
}

/// Patterns under the new names.
#[cycle(rename)]
fn pats_bundled(alloc: Global, pats: &[Pat]) -> Result<Seq<Pat>, NoMemory>
    ensures { IfOk result (λ r. r ≡ map pat_bundled pats.now) }
{
    let mut all = Seq::new(alloc);
    for pat in pats {
        all.push(pat_bundled(alloc, pat)?)?;
    }
    Ok(all)
}
