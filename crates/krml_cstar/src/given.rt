//! What expressions give.

ghost use Rattle.std.specs.Prelude.{◌≡◌, [], IfOk, IsOkAnd, if◌then◌else◌};
ghost use Rattle.krml_trace.specs.declared.width.Width.TheVariants.{W8, W32};
ghost use Rattle.krml_trace.specs.Width.{same_width};
ghost use Rattle.krml_syntax.specs.declared.tree.Ty.TheVariants.{Unit as unit_type, Int as int_type, Bool as bool_type, Named as struct_type};
ghost use Rattle.krml_ctree.specs.declared.tree.CBin.TheVariants.{Xor};
ghost use Rattle.krml_ctree.specs.declared.tree.CExpr.TheVariants.{Cmp as compared_by, Bin as binary_of, Cast as cast_to, Lit as number_of, Build as struct_of};
ghost use Rattle.krml_cstar.specs.Numbers.{truth, literal, narrow as narrowed, widen as widened, shift_op, kind};
ghost use Rattle.krml_cstar.specs.Translation.{nothing};

use crate::numbers::{compared, converted, literal, opposite, shifted, truth};
use crate::terms::{Term, Values, build, lit};
use crate::types::{SourceType, struct_type};
use krml_ast::{CmpOp, IntTy, Ty};
use krml_ctree::{CExpr, CStatement};
use krml_trace::{Box, Name, NoMemory, Seq, Width, both};
use std::alloc::Global;

/// What an expression gives: an expression of C, which is not looked at where there is nothing to give, and its type.
#[derive(Drop)]
pub struct Given {
    pub value: Box<CExpr>,
    pub ty: Box<Ty>,
}

/// The same with the statements that stand before it.
#[derive(Drop)]
pub struct Apart {
    pub code: Seq<CStatement>,
    pub value: Box<CExpr>,
    pub ty: Box<Ty>,
}

/// What an expression gives, or want of memory.
pub type Part = Result<Given, NoMemory>;

/// The same with its statements.
pub type Branch = Result<Apart, NoMemory>;

/// A value and its type.
pub fn with_type(value: Term, ty: SourceType) -> Part
    ensures { IfOk result (λ r. IsOkAnd value (λ e. IsOkAnd ty (λ a. r ≡ record { value = e; ty = a }))) }
{
    let (value, ty) = both(value, ty)?;
    Ok(Given { value, ty })
}

/// A value of a type that is made here.
pub fn typed(alloc: Global, value: Term, ty: Ty) -> Part
    ensures { IfOk result (λ r. IsOkAnd value (λ e. r ≡ record { value = e; ty = ty })) }
{
    with_type(value, Box::new(alloc, ty))
}

/// Nothing of a type.
pub fn nothing(alloc: Global, ty: SourceType) -> Part
    ensures { IfOk result (λ r. IsOkAnd ty (λ a. r ≡ record { value = nothing; ty = a })) }
{
    with_type(lit(alloc, Width::W32, 0), ty)
}

/// Nothing of the type of what gives nothing.
pub fn no_value(alloc: Global) -> Part
    ensures { IfOk result (λ r. r ≡ record { value = nothing; ty = unit_type }) }
{
    nothing(alloc, Box::new(alloc, Ty::Unit))
}

/// The value without its type.
pub fn value(part: Part) -> Term
    ensures { IfOk result (λ e. IsOkAnd part (λ g. e ≡ g.value)) }
{
    Ok(part?.value)
}

/// What was given, where what came before it went well.
pub fn behind(before: Result<(), NoMemory>, part: Part) -> Part
    ensures { IfOk result (λ r. IsOkAnd before (λ _. IsOkAnd part (λ g. r ≡ g))) }
{
    before?;
    part
}

/// What was given, with its statements.
pub fn with_code(code: Seq<CStatement>, part: Part) -> Branch
    ensures { IfOk result (λ r. IsOkAnd part (λ g. r ≡ record { code = code; value = g.value; ty = g.ty })) }
{
    let Given { value, ty } = part?;
    Ok(Apart { code, value, ty })
}

/// A Boolean.
pub fn boolean(alloc: Global, b: bool) -> Part
    ensures { IfOk result (λ r. r ≡ record { value = truth b; ty = bool_type }) }
{
    typed(alloc, truth(alloc, b), Ty::Bool)
}

/// A number of a type.
pub fn number(alloc: Global, i: IntTy, n: u64) -> Part
    ensures { IfOk result (λ r. r ≡ record { value = literal i.width n; ty = int_type i }) }
{
    typed(alloc, literal(alloc, i.width, n), Ty::Int(i))
}

/// A shift: the value, and the number of places.
pub fn shift(alloc: Global, left: bool, i: IntTy, a: Part, b: Part) -> Part
    ensures { IfOk result (λ r. IsOkAnd a (λ a. IsOkAnd b (λ b. r ≡ record { value = narrowed i.width (binary_of (shift_op left) (widened i.width a.value) b.value); ty = int_type i }))) }
{
    let value = shifted(alloc, left, i.width, value(a), value(b));
    typed(alloc, value, Ty::Int(i))
}

/// A comparison.
pub fn comparison(alloc: Global, op: CmpOp, i: IntTy, a: Part, b: Part) -> Part
    ensures { IfOk result (λ r. IsOkAnd a (λ a. IsOkAnd b (λ b. r ≡ record { value = compared_by W8 (kind op) (widened i.width a.value) (widened i.width b.value); ty = bool_type }))) }
{
    let value = compared(alloc, op, i.width, value(a), value(b));
    typed(alloc, value, Ty::Bool)
}

/// The other Boolean.
pub fn negation(alloc: Global, a: Part) -> Part
    ensures { IfOk result (λ r. IsOkAnd a (λ a. r ≡ record { value = cast_to W8 (binary_of Xor (cast_to W32 a.value) (number_of W32 1)); ty = bool_type })) }
{
    typed(alloc, opposite(alloc, value(a)), Ty::Bool)
}

/// A number as one of another type.
pub fn conversion(alloc: Global, i: IntTy, j: IntTy, a: Part) -> Part
    ensures { IfOk result (λ r. IsOkAnd a (λ a. r ≡ record { value = if same_width i.width j.width then a.value else cast_to j.width a.value; ty = int_type j })) }
{
    let value = converted(alloc, i.width, j.width, value(a));
    typed(alloc, value, Ty::Int(j))
}

/// A struct.
pub fn built(alloc: Global, x: &Name, values: Values) -> Part
    ensures { IfOk result (λ r. IsOkAnd values (λ es. r ≡ record { value = struct_of x.now es; ty = struct_type x.now [] })) }
{
    let value = build(alloc, x.copy(alloc), values);
    with_type(value, struct_type(alloc, x.copy(alloc)))
}
