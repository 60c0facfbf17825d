//! Copies of trees.

ghost use Rattle.std.specs.Prelude.{◌≡◌, IfOk, IsOkAnd};
ghost use Rattle.krml_syntax.specs.declared.tree.Ty.TheVariants as t;
ghost use Rattle.krml_syntax.specs.declared.tree.Pat.TheVariants as p;

use crate::expression::renamed;
use crate::made::Part;
use crate::rename::{Applied, Rename};
use krml_syntax::{Expr, Pat, Ty};
use krml_trace::{Box, Name, NoMemory, Seq, both};
use std::alloc::Global;

/// A buffer of elements of a type.
fn buffer(alloc: Global, element: Result<Ty, NoMemory>) -> Result<Ty, NoMemory>
    ensures { IfOk result (λ r. IsOkAnd element (λ a. r ≡ t.Buf a)) }
{
    Ok(Ty::Buf(Box::new(alloc, element?)?))
}

/// The struct or sum of a name at type arguments.
fn named(name: Result<Name, NoMemory>, args: Result<Seq<Ty>, NoMemory>) -> Result<Ty, NoMemory>
    ensures { IfOk result (λ r. IsOkAnd name (λ x. IsOkAnd args (λ args. r ≡ t.Named x args))) }
{
    let (name, args) = both(name, args)?;
    Ok(Ty::Named(name, args))
}

/// A copy of a type.
#[cycle(types)]
pub fn clone_ty(alloc: Global, a: &Ty) -> Result<Ty, NoMemory>
    ensures { IfOk result (λ r. r ≡ a.now) }
{
    match a {
        Ty::Bool => Ok(Ty::Bool),
        Ty::Unit => Ok(Ty::Unit),
        Ty::Int(ty) => Ok(Ty::Int(*ty)),
        Ty::Buf(a) => buffer(alloc, clone_ty(alloc, a.get())),
        Ty::Var(x) => Ok(Ty::Var(x.copy(alloc)?)),
        Ty::Named(x, args) => {
            let args = clone_each(alloc, args.as_slice());
            named(x.copy(alloc), args)
        }
    }
}

/// Copies of types.
#[cycle(types)]
pub fn clone_each(alloc: Global, types: &[Ty]) -> Result<Seq<Ty>, NoMemory>
    ensures { IfOk result (λ r. r ≡ types.now) }
{
    let mut all = Seq::new(alloc);
    for ty in types {
        all.push(clone_ty(alloc, ty)?)?;
    }
    Ok(all)
}

/// A pattern of a constructor.
fn con(name: Result<Name, NoMemory>, pats: Result<Seq<Pat>, NoMemory>) -> Result<Pat, NoMemory>
    ensures { IfOk result (λ r. IsOkAnd name (λ x. IsOkAnd pats (λ ps. r ≡ p.Con x ps))) }
{
    let (name, pats) = both(name, pats)?;
    Ok(Pat::Con(name, pats))
}

/// A pattern of a struct.
fn make(name: Result<Name, NoMemory>, pats: Result<Seq<Pat>, NoMemory>) -> Result<Pat, NoMemory>
    ensures { IfOk result (λ r. IsOkAnd name (λ x. IsOkAnd pats (λ ps. r ≡ p.Make x ps))) }
{
    let (name, pats) = both(name, pats)?;
    Ok(Pat::Make(name, pats))
}

/// A copy of a pattern.
#[cycle(patterns)]
pub fn clone_pat(alloc: Global, pat: &Pat) -> Result<Pat, NoMemory>
    ensures { IfOk result (λ r. r ≡ pat.now) }
{
    match pat {
        Pat::Any => Ok(Pat::Any),
        Pat::Bind(x) => Ok(Pat::Bind(x.copy(alloc)?)),
        Pat::Bool(b) => Ok(Pat::Bool(*b)),
        Pat::Num(ty, n) => Ok(Pat::Num(*ty, *n)),
        Pat::Con(x, pats) => {
            let pats = clone_pats(alloc, pats.as_slice());
            con(x.copy(alloc), pats)
        }
        Pat::Make(x, pats) => {
            let pats = clone_pats(alloc, pats.as_slice());
            make(x.copy(alloc), pats)
        }
    }
}

/// Copies of patterns.
#[cycle(patterns)]
fn clone_pats(alloc: Global, pats: &[Pat]) -> Result<Seq<Pat>, NoMemory>
    ensures { IfOk result (λ r. r ≡ pats.now) }
{
    let mut all = Seq::new(alloc);
    for pat in pats {
        all.push(clone_pat(alloc, pat)?)?;
    }
    Ok(all)
}

/// A copy of a name at type arguments.
fn copied(alloc: Global, x: &Name, args: &[Ty]) -> Result<Applied, NoMemory>
    ensures { IfOk result (λ r. r ≡ (x.now, args.now)) }
{
    let args = clone_each(alloc, args)?;
    Ok((x.copy(alloc)?, args))
}

/// Each name and each type stays.
#[derive(Drop)]
struct Kept;

impl Rename for Kept {
    ghost use Rattle.krml_rename.specs.Renaming.{itself};

    ghost renaming = { λ kept. itself };

    fn structure(&self, alloc: Global, x: &Name, args: &[Ty]) -> Result<Applied, NoMemory> {
        copied(alloc, x, args)
    }

    fn con(&self, alloc: Global, x: &Name, args: &[Ty]) -> Result<Applied, NoMemory> {
        copied(alloc, x, args)
    }

    fn fun(&self, alloc: Global, x: &Name, args: &[Ty]) -> Result<Applied, NoMemory> {
        copied(alloc, x, args)
    }

    fn field(&self, alloc: Global, y: &Name) -> Result<Name, NoMemory> {
        y.copy(alloc)
    }

    fn table(&self, alloc: Global, x: &Name) -> Result<Name, NoMemory> {
        x.copy(alloc)
    }

    fn tag(&self, alloc: Global, x: &Name) -> Result<Name, NoMemory> {
        x.copy(alloc)
    }

    fn ty(&self, alloc: Global, a: &Ty) -> Result<Ty, NoMemory> {
        clone_ty(alloc, a)
    }

    fn pat(&self, alloc: Global, p: &Pat) -> Result<Pat, NoMemory> {
        clone_pat(alloc, p)
    }
}

/// A copy of an expression, where it is kept in a box.
#[tactic(auto, using(crate::proofs::Itself::expr_itself))]
pub(crate) fn boxed_clone(alloc: Global, e: &Expr) -> Part
    ensures { IfOk result (λ r. r ≡ e.now) }
{
    renamed(alloc, &Kept, e)
}

/// A copy of an expression: a tree equal to it.
pub fn ast_clone(alloc: Global, e: &Expr) -> Result<Expr, NoMemory>
    ensures { IfOk result (λ r. r ≡ e.now) }
{
    Ok(boxed_clone(alloc, e)?.into_inner())
}
