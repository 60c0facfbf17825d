//! Types of the source, and as C has them.

ghost use Rattle.std.specs.Prelude.{◌≡◌, [], IfOk, IsOkAnd};
ghost use Rattle.krml_syntax.specs.declared.tree.Ty.TheVariants.{Named as struct_type};
ghost use Rattle.krml_cstar.specs.Types.{ctype, is_unit};

use krml_ast::{Ty, clone_ty};
use krml_ctree::{CType, CVar};
use krml_trace::{Box, Name, NoMemory, Seq, both};
use std::alloc::Global;

/// A type of the source, or want of memory.
pub type SourceType = Result<Box<Ty>, NoMemory>;

/// A copy of a type. An error is want of memory, as in all that follows.
pub fn copied(alloc: Global, a: &Ty) -> SourceType
    ensures { IfOk result (λ r. r ≡ a.now) }
{
    let a = clone_ty(alloc, a)?;
    Box::new(alloc, a)
}

/// The type of a struct without arguments.
pub fn struct_type(alloc: Global, name: Result<Name, NoMemory>) -> SourceType
    ensures { IfOk result (λ r. IsOkAnd name (λ x. r ≡ struct_type x [])) }
{
    let name = name?;
    Box::new(alloc, Ty::Named(name, Seq::new(alloc)))
}

/// The type of C.
pub fn ctype(alloc: Global, a: &Ty) -> Result<CType, NoMemory>
    ensures { IfOk result (λ r. r ≡ ctype a.now) }
{
    match a {
        Ty::Int(i) => Ok(CType::of(i.width)),
        Ty::Buf(b) => {
            let b = ctype(alloc, b.get())?;
            Ok(CType::Ptr(Box::new(alloc, b)?))
        }
        Ty::Named(x, _) => Ok(CType::Struct(x.copy(alloc)?)),
        Ty::Bool | Ty::Unit | Ty::Var(_) => Ok(CType::U8),
    }
}

/// A variable of C, a parameter or a field.
pub fn cvar(ty: Result<CType, NoMemory>, name: Result<Name, NoMemory>) -> Result<CVar, NoMemory>
    ensures { IfOk result (λ r. IsOkAnd ty (λ a. IsOkAnd name (λ x. r ≡ record { ty = a; name = x }))) }
{
    let (ty, name) = both(ty, name)?;
    Ok(CVar { ty, name })
}

/// Whether expressions of the type give nothing.
pub fn is_unit(a: &Ty) -> bool
    ensures { result ≡ is_unit a.now }
{
    matches!(a, Ty::Unit)
}
