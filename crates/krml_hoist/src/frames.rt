//! Frames, slots, and what is made of parts that come as results.

ghost use Rattle.std.specs.Prelude.{◌≡◌, IfOk, IsOkAnd};
ghost use Rattle.std.specs.Option.{option_or};
ghost use Rattle.krml_syntax.specs.declared.tree.Expr.TheVariants as e;
ghost use Rattle.krml_hoist.specs.Large.{if_large};

use krml_rename::made::{Part, fill};
use krml_rename::{Applied, clone_each, clone_ty};
use krml_syntax::{Slot, Ty};
use krml_trace::{Name, NoMemory, Seq, both};
use std::alloc::Global;

/// The bytes that a frame may take.
const MAX_FRAME: u64 = 16_777_216;

/// The bytes of a frame, where they are too many.
pub fn too_many(bytes: u64) -> Option<u64>
    ensures { result ≡ if_large bytes }
{
    if bytes > MAX_FRAME { Some(bytes) } else { None }
}

/// The first of two that there is.
pub fn earlier(a: Option<u64>, b: Option<u64>) -> Option<u64>
    ensures { result ≡ option_or a b }
{
    match a {
        Some(bytes) => Some(bytes),
        None => b,
    }
}

/// A slot of elements of a type.
pub fn slot(alloc: Global, ty: &Ty, len: u32) -> Result<Slot, NoMemory>
    ensures { IfOk result (λ r. r ≡ record { ty = ty.now; len = len }) }
{
    let ty = clone_ty(alloc, ty)?;
    Ok(Slot { ty, len })
}

/// Copies of slots.
pub fn copied(alloc: Global, slots: &[Slot]) -> Result<Seq<Slot>, NoMemory>
    ensures { IfOk result (λ r. r ≡ slots.now) }
{
    let mut all = Seq::new(alloc);
    for each in slots {
        all.push(slot(alloc, &each.ty, each.len)?)?;
    }
    Ok(all)
}

/// A copy of a name at type arguments.
pub fn applied(alloc: Global, x: &Name, args: &[Ty]) -> Result<Applied, NoMemory>
    ensures { IfOk result (λ r. r ≡ (x.now, args.now)) }
{
    both(x.copy(alloc), clone_each(alloc, args))
}

/// The buffer of a slot, filled with a value.
pub fn filled(alloc: Global, k: Result<u32, NoMemory>, a: Part) -> Part
    ensures { IfOk result (λ r. IsOkAnd k (λ k. IsOkAnd a (λ a. r ≡ e.Fill k a))) }
{
    let (k, a) = both(k, a)?;
    fill(alloc, k, Ok(a))
}
