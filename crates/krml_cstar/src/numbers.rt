//! Expressions of C on numbers.

ghost use Rattle.std.specs.Prelude.{◌≡◌, ◌-◌, IfOk, IsOkAnd, if◌then◌else◌};
ghost use Rattle.krml_trace.specs.declared.width.Width.TheVariants.{W8, W32};
ghost use Rattle.krml_trace.specs.Width.{bits, same_width};
ghost use Rattle.krml_ctree.specs.declared.tree.CBin.TheVariants.{Xor};
ghost use Rattle.krml_ctree.specs.declared.tree.CExpr.TheVariants.{Lit as number_of, Cast as cast_to, Bin as binary_of, Cmp as compared_by};
ghost use Rattle.krml_cstar.specs.Numbers.{widen, narrow, work, literal, truth, spread, shift_op, kind};

use crate::terms::{Term, bin, cast, cmp, lit};
use krml_ast::{CmpOp, IntTy};
use krml_ctree::{CBin, CmpKind};
use krml_trace::Width;
use std::alloc::Global;

/// The width that numbers of a width are computed with at.
pub fn work(w: Width) -> Width
    ensures { result ≡ work w }
{
    match w {
        Width::W8 | Width::W32 => Width::W32,
        Width::W64 => Width::W64,
    }
}

/// A number of a width at the width that it is computed with at.
pub fn widen(alloc: Global, w: Width, e: Term) -> Term
    ensures { IfOk result (λ r. IsOkAnd e (λ e. r ≡ widen w e)) }
{
    match w {
        Width::W8 => cast(alloc, Width::W32, e),
        Width::W32 | Width::W64 => e,
    }
}

/// A number that was computed for a width, at that width.
pub fn narrow(alloc: Global, w: Width, e: Term) -> Term
    ensures { IfOk result (λ r. IsOkAnd e (λ e. r ≡ narrow w e)) }
{
    match w {
        Width::W8 => cast(alloc, Width::W8, e),
        Width::W32 | Width::W64 => e,
    }
}

/// A number of a width that the source writes.
pub fn literal(alloc: Global, w: Width, n: u64) -> Term
    ensures { IfOk result (λ r. r ≡ literal w n) }
{
    match w {
        Width::W8 => cast(alloc, Width::W8, lit(alloc, Width::W32, n)),
        Width::W32 | Width::W64 => lit(alloc, w, n),
    }
}

/// A Boolean.
pub fn truth(alloc: Global, b: bool) -> Term
    ensures { IfOk result (λ r. r ≡ truth b) }
{
    literal(alloc, Width::W8, if b { 1 } else { 0 })
}

/// An operation on two numbers of a width, computed at the width for that.
pub fn computed(alloc: Global, op: CBin, w: Width, a: Term, b: Term) -> Term
    ensures { IfOk result (λ r. IsOkAnd a (λ a. IsOkAnd b (λ b. r ≡ narrow w (binary_of op (widen w a) (widen w b))))) }
{
    let a = widen(alloc, w, a);
    let b = widen(alloc, w, b);
    narrow(alloc, w, bin(alloc, op, a, b))
}

/// The place of the highest bit of numbers that are computed with.
fn highest(w: Width) -> u64
    ensures { result ≡ bits (work w) - 1 }
{
    match w {
        Width::W8 | Width::W32 => 31,
        Width::W64 => 63,
    }
}

/// All ones of a width where the highest bit of a number is 0, else 0.
pub fn spread(alloc: Global, i: IntTy, e: Term) -> Term
    ensures { IfOk result (λ r. IsOkAnd e (λ e. r ≡ spread i e)) }
{
    let places = lit(alloc, Width::W32, highest(i.width));
    let one = lit(alloc, work(i.width), 1);
    let bit = bin(alloc, CBin::Shr, e, places);
    narrow(alloc, i.width, bin(alloc, CBin::Sub, bit, one))
}

/// The operator of a shift: to the left where it is true.
pub fn shift_op(left: bool) -> CBin
    ensures { result ≡ shift_op left }
{
    if left { CBin::Shl } else { CBin::Shr }
}

/// The comparison of C.
pub fn kind(op: CmpOp) -> CmpKind
    ensures { result ≡ kind op }
{
    match op {
        CmpOp::Eq => CmpKind::Eq,
        CmpOp::Ne => CmpKind::Ne,
        CmpOp::Lt => CmpKind::Lt,
        CmpOp::Le => CmpKind::Le,
        CmpOp::Gt => CmpKind::Gt,
        CmpOp::Ge => CmpKind::Ge,
    }
}

/// A shift: the value, and the number of places.
pub fn shifted(alloc: Global, left: bool, w: Width, a: Term, b: Term) -> Term
    ensures { IfOk result (λ r. IsOkAnd a (λ a. IsOkAnd b (λ b. r ≡ narrow w (binary_of (shift_op left) (widen w a) b)))) }
{
    let a = widen(alloc, w, a);
    narrow(alloc, w, bin(alloc, shift_op(left), a, b))
}

/// A comparison of two numbers of a width.
pub fn compared(alloc: Global, op: CmpOp, w: Width, a: Term, b: Term) -> Term
    ensures { IfOk result (λ r. IsOkAnd a (λ a. IsOkAnd b (λ b. r ≡ compared_by W8 (kind op) (widen w a) (widen w b)))) }
{
    let a = widen(alloc, w, a);
    let b = widen(alloc, w, b);
    cmp(alloc, kind(op), a, b)
}

/// The other Boolean.
pub fn opposite(alloc: Global, a: Term) -> Term
    ensures { IfOk result (λ r. IsOkAnd a (λ a. r ≡ cast_to W8 (binary_of Xor (cast_to W32 a) (number_of W32 1)))) }
{
    let a = cast(alloc, Width::W32, a);
    let one = lit(alloc, Width::W32, 1);
    cast(alloc, Width::W8, bin(alloc, CBin::Xor, a, one))
}

/// A number of one width as one of another.
pub fn converted(alloc: Global, from: Width, to: Width, a: Term) -> Term
    ensures { IfOk result (λ r. IsOkAnd a (λ a. r ≡ (if same_width from to then a else cast_to to a))) }
{
    if from.is(to) { a } else { cast(alloc, to, a) }
}
