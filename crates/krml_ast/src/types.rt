//! What types have, and types at type arguments.

ghost use Rattle.std.specs.Prelude.{◌≡◌, IfOk, IsOkAnd, map, option_map};
ghost use Rattle.krml_syntax.specs.declared.tree.Ty.TheVariants.{Buf, Named, Var};
ghost use Rattle.krml_syntax.specs.declared.tree.Ty.{out-Ty};
ghost use Rattle.krml_syntax.specs.Types.{argument_of, type_at, element_of, name_of, arguments_of};

use krml_rename::clone_ty;
use krml_syntax::Ty;
use krml_trace::{Box, Name, NoMemory, Seq};
use std::alloc::Global;

/// A buffer of elements of a type.
pub(crate) fn buffer(alloc: Global, element: Result<Ty, NoMemory>) -> Result<Ty, NoMemory>
    ensures { IfOk result (λ r. IsOkAnd element (λ element. r ≡ Buf element)) }
{
    Ok(Ty::Buf(Box::new(alloc, element?)?))
}

/// A type variable.
fn variable(alloc: Global, x: &Name) -> Result<Ty, NoMemory>
    ensures { IfOk result (λ r. r ≡ Var x.now) }
{
    Ok(Ty::Var(x.copy(alloc)?))
}

/// The struct or sum of a name at type arguments.
pub(crate) fn named(
    alloc: Global,
    x: &Name,
    args: Result<Seq<Ty>, NoMemory>,
) -> Result<Ty, NoMemory>
    ensures { IfOk result (λ r. IsOkAnd args (λ args. r ≡ Named x.now args)) }
{
    let args = args?;
    Ok(Ty::Named(x.copy(alloc)?, args))
}

/// The argument of a type variable. A variable that has none stays.
fn argument_of(alloc: Global, vars: &[Name], args: &[Ty], x: &Name) -> Result<Ty, NoMemory>
    ensures { IfOk result (λ r. r ≡ argument_of vars.now args.now x.now) }
{
    let [v, vars @ ..] = vars else {
        return variable(alloc, x);
    };
    let [a, args @ ..] = args else {
        return variable(alloc, x);
    };
    if v.is(x) {
        return clone_ty(alloc, a);
    }
    argument_of(alloc, vars, args, x)
}

/// A type with type arguments in place of the type variables. A variable that has no argument stays.
#[cycle(apply)]
pub fn type_at(alloc: Global, a: &Ty, vars: &[Name], args: &[Ty]) -> Result<Ty, NoMemory>
    ensures { IfOk result (λ r. r ≡ type_at vars.now args.now a.now) }
{
    match a {
        Ty::Bool => Ok(Ty::Bool),
        Ty::Unit => Ok(Ty::Unit),
        Ty::Int(i) => Ok(Ty::Int(*i)),
        Ty::Buf(b) => buffer(alloc, type_at(alloc, b.get(), vars, args)),
        Ty::Var(x) => argument_of(alloc, vars, args, x),
        Ty::Named(x, types) => named(alloc, x, each_at(alloc, types.as_slice(), vars, args)),
    }
}

/// Types with type arguments in place of the type variables.
#[cycle(apply)]
pub(crate) fn each_at(
    alloc: Global,
    types: &[Ty],
    vars: &[Name],
    args: &[Ty],
) -> Result<Seq<Ty>, NoMemory>
    ensures { IfOk result (λ r. r ≡ map (type_at vars.now args.now) types.now) }
{
    let mut all = Seq::new(alloc);
    for ty in types {
        all.push(type_at(alloc, ty, vars, args)?)?;
    }
    Ok(all)
}

/// The name and the type arguments of a struct or a sum.
pub fn name_of(a: &Ty) -> Option<(&Name, &[Ty])>
    ensures { option_map (λ n. (n.0.now, n.1.now)) result ≡ name_of (out-Ty a.now) }
{
    match a {
        Ty::Named(x, args) => Some((x, args.as_slice())),
        _ => None,
    }
}

/// The type arguments of a struct or a sum, or none.
pub(crate) fn arguments_of(a: &Ty) -> &[Ty]
    ensures { result.now ≡ arguments_of (out-Ty a.now) }
{
    match a {
        Ty::Named(_, args) => args.as_slice(),
        _ => &[],
    }
}

/// The elements of a buffer.
pub(crate) fn element_of(a: Ty) -> Option<Ty>
    ensures { result ≡ element_of (out-Ty a) }
{
    match a {
        Ty::Buf(element) => Some(element.into_inner()),
        _ => None,
    }
}
