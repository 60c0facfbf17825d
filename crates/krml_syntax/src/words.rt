//! The words of types and operators.

ghost use Rattle.std.specs.Prelude.{◌≡◌};
ghost use Rattle.krml_syntax.specs.Spelling.{int_word, bool_word, bin_word, shift_word, cmp_word};

use crate::tree::{BinOp, CmpOp, IntTy};
use krml_trace::Width;

/// The word of an integer type.
pub fn int_word(ty: IntTy) -> &'static [u8]
    ensures { result.now ≡ int_word ty }
{
    match (ty.width, ty.secret) {
        (Width::W8, false) => b"u8",
        (Width::W32, false) => b"u32",
        (Width::W64, false) => b"u64",
        (Width::W8, true) => b"su8",
        (Width::W32, true) => b"su32",
        (Width::W64, true) => b"su64",
    }
}

/// The word of a truth value.
pub fn bool_word(b: bool) -> &'static [u8]
    ensures { result.now ≡ bool_word b }
{
    if b { b"true" } else { b"false" }
}

/// The word of an operator.
pub fn bin_word(op: BinOp) -> &'static [u8]
    ensures { result.now ≡ bin_word op }
{
    match op {
        BinOp::Add => b"add",
        BinOp::Sub => b"sub",
        BinOp::Mul => b"mul",
        BinOp::Div => b"div",
        BinOp::Rem => b"rem",
        BinOp::And => b"and",
        BinOp::Or => b"or",
        BinOp::Xor => b"xor",
        BinOp::EqMask => b"eqmask",
        BinOp::GteMask => b"gtemask",
    }
}

/// The word of a shift: to the left where it is true.
pub fn shift_word(left: bool) -> &'static [u8]
    ensures { result.now ≡ shift_word left }
{
    if left { b"shl" } else { b"shr" }
}

/// The word of a comparison.
pub fn cmp_word(op: CmpOp) -> &'static [u8]
    ensures { result.now ≡ cmp_word op }
{
    match op {
        CmpOp::Eq => b"eq",
        CmpOp::Ne => b"ne",
        CmpOp::Lt => b"lt",
        CmpOp::Le => b"le",
        CmpOp::Gt => b"gt",
        CmpOp::Ge => b"ge",
    }
}
