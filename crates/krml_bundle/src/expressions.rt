//! Expressions under the new names.

ghost use Rattle.std.specs.Prelude.{◌≡◌, IfOk, IsOkAnd, map};
ghost use Rattle.krml_bundle.specs.Bundled.{ty_bundled, expr_bundled};

use crate::new_names::{emitted_field, emitted_fun, emitted_table, emitted_type};
use crate::patterns::pat_bundled;
use crate::types::{ty_bundled, types_bundled};
use krml_rename::{Applied, Rename, renamed};
use krml_syntax::{Expr, Pat, Ty};
use krml_trace::{Name, NoMemory};
use std::alloc::Global;

/// A name at type arguments that have the new names.
fn applied(alloc: Global, name: Result<Name, NoMemory>, args: &[Ty]) -> Result<Applied, NoMemory>
    ensures { IfOk result (λ r. IsOkAnd name (λ x. r ≡ (x, map ty_bundled args.now))) }
{
    let name = name?;
    Ok((name, types_bundled(alloc, args)?))
}

/// The new names in place of a file's.
#[derive(Drop)]
struct NewNames;

impl Rename for NewNames {
    ghost use Rattle.krml_bundle.specs.Bundled.{emitted_renaming};

    ghost renaming = { λ names. emitted_renaming };

    fn structure(&self, alloc: Global, x: &Name, args: &[Ty]) -> Result<Applied, NoMemory> {
        applied(alloc, emitted_type(alloc, x), args)
    }

    fn con(&self, alloc: Global, x: &Name, args: &[Ty]) -> Result<Applied, NoMemory> {
        applied(alloc, x.copy(alloc), args)
    }

    fn fun(&self, alloc: Global, x: &Name, args: &[Ty]) -> Result<Applied, NoMemory> {
        applied(alloc, emitted_fun(alloc, x), args)
    }

    fn field(&self, alloc: Global, y: &Name) -> Result<Name, NoMemory> {
        emitted_field(alloc, y)
    }

    fn table(&self, alloc: Global, x: &Name) -> Result<Name, NoMemory> {
        emitted_table(alloc, x)
    }

    fn tag(&self, alloc: Global, x: &Name) -> Result<Name, NoMemory> {
        x.copy(alloc)
    }

    fn ty(&self, alloc: Global, a: &Ty) -> Result<Ty, NoMemory> {
        ty_bundled(alloc, a)
    }

    fn pat(&self, alloc: Global, p: &Pat) -> Result<Pat, NoMemory> {
        pat_bundled(alloc, p)
    }
}

/// An expression under the new names.
pub(crate) fn expr_bundled(alloc: Global, e: &Expr) -> Result<Expr, NoMemory>
    ensures { IfOk result (λ r. r ≡ expr_bundled e.now) }
{
    Ok(renamed(alloc, &NewNames, e)?.into_inner())
}
