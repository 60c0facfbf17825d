//! Expressions of C, put together from results.

ghost use Rattle.std.specs.Prelude.{◌≡◌, IfOk, IsOkAnd};
ghost use Rattle.krml_trace.specs.declared.width.Width.TheVariants.{W8};
ghost use Rattle.krml_ctree.specs.declared.tree.CExpr.TheVariants.{Var as variable_of, Lit as number_of, Cast as cast_to, Bin as binary_of, Cmp as compared_by, Build as struct_of, Field as field_of};

use krml_ctree::{CBin, CExpr, CmpKind};
use krml_trace::{Box, Name, NoMemory, Seq, Width, both};
use std::alloc::Global;

/// An expression of C, or want of memory. What puts expressions together takes such results and begins with the first error, so
/// that nothing in between returns early.
pub type Term = Result<Box<CExpr>, NoMemory>;

/// The values of several expressions.
pub type Values = Result<Seq<CExpr>, NoMemory>;

/// The value of a variable.
pub fn var(alloc: Global, name: Result<Name, NoMemory>) -> Term
    ensures { IfOk result (λ r. IsOkAnd name (λ x. r ≡ variable_of x)) }
{
    let name = name?;
    Box::new(alloc, CExpr::Var(name))
}

/// A number as C writes it.
pub fn lit(alloc: Global, w: Width, n: u64) -> Term
    ensures { IfOk result (λ r. r ≡ number_of w n) }
{
    Box::new(alloc, CExpr::Lit(w, n))
}

/// A number as one of a width.
pub fn cast(alloc: Global, w: Width, e: Term) -> Term
    ensures { IfOk result (λ r. IsOkAnd e (λ e. r ≡ cast_to w e)) }
{
    let e = e?;
    Box::new(alloc, CExpr::Cast(w, e))
}

/// An operator and its operands.
pub fn bin(alloc: Global, op: CBin, a: Term, b: Term) -> Term
    ensures { IfOk result (λ r. IsOkAnd a (λ a. IsOkAnd b (λ b. r ≡ binary_of op a b))) }
{
    let (a, b) = both(a, b)?;
    Box::new(alloc, CExpr::Bin(op, a, b))
}

/// A comparison, whose answer has width 8.
pub fn cmp(alloc: Global, kind: CmpKind, a: Term, b: Term) -> Term
    ensures { IfOk result (λ r. IsOkAnd a (λ a. IsOkAnd b (λ b. r ≡ compared_by W8 kind a b))) }
{
    let (a, b) = both(a, b)?;
    Box::new(alloc, CExpr::Cmp(Width::W8, kind, a, b))
}

/// The field of a struct.
pub fn field(alloc: Global, a: Term, name: Result<Name, NoMemory>) -> Term
    ensures { IfOk result (λ r. IsOkAnd a (λ a. IsOkAnd name (λ x. r ≡ field_of a x))) }
{
    let (a, name) = both(a, name)?;
    Box::new(alloc, CExpr::Field(a, name))
}

/// A struct with its fields in order.
pub fn build(alloc: Global, name: Result<Name, NoMemory>, values: Values) -> Term
    ensures { IfOk result (λ r. IsOkAnd name (λ x. IsOkAnd values (λ es. r ≡ struct_of x es))) }
{
    let (name, values) = both(name, values)?;
    Box::new(alloc, CExpr::Build(name, values))
}
