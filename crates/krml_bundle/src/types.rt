//! Types under the new names.

ghost use Rattle.std.specs.Prelude.{◌≡◌, IfOk, map};
ghost use Rattle.krml_bundle.specs.Bundled.{ty_bundled};

use crate::new_names::emitted_type;
use krml_syntax::Ty;
use krml_trace::{Box, NoMemory, Seq};
use std::alloc::Global;

/// A type under the new names.
#[cycle(rename)]
pub(crate) fn ty_bundled(alloc: Global, a: &Ty) -> Result<Ty, NoMemory>
    ensures { IfOk result (λ r. r ≡ ty_bundled a.now) }
{
    match a {
        Ty::Bool => Ok(Ty::Bool),
        Ty::Unit => Ok(Ty::Unit),
        Ty::Int(i) => Ok(Ty::Int(*i)),
        Ty::Buf(b) => {
            let b = ty_bundled(alloc, b.get())?;
            Ok(Ty::Buf(Box::new(alloc, b)?))
        }
        Ty::Var(x) => Ok(Ty::Var(x.copy(alloc)?)),
        Ty::Named(x, args) => {
            let args = types_bundled(alloc, args.as_slice())?;
            Ok(Ty::Named(emitted_type(alloc, x)?, args))
        }
    }
}

/// Types under the new names.
#[cycle(rename)]
pub(crate) fn types_bundled(alloc: Global, types: &[Ty]) -> Result<Seq<Ty>, NoMemory>
    ensures { IfOk result (λ r. r ≡ map ty_bundled types.now) }
{
    let mut all = Seq::new(alloc);
    for ty in types {
        all.push(ty_bundled(alloc, ty)?)?;
    }
    Ok(all)
}
