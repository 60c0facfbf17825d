//! Words, symbols and numbers.

ghost use Rattle.std.specs.Prelude.{◌≡◌, ◌++◌, OnOk, codes};
ghost use Rattle.std.specs.Fmt.{decimal};
ghost use Rattle.krml_ctree.specs.Text.{width_word, number, bin_symbol, cmp_symbol, div_symbol};
ghost use Rattle.krml_cprint.specs.Printing.{comma};

use krml_ctree::{CBin, CmpKind};
use krml_trace::{Name, NoMemory, Width};

/// The word of the type of a width.
pub(crate) fn width_word(width: Width) -> &'static [u8]
    ensures { result.now ≡ width_word width }
{
    match width {
        Width::W8 => b"uint8_t",
        Width::W32 => b"uint32_t",
        Width::W64 => b"uint64_t",
    }
}

/// What begins a conversion to the type of a width.
pub(crate) fn cast_opening(width: Width) -> &'static [u8]
    ensures { result.now ≡ (codes "((" ++ width_word width) ++ codes ")" }
{
    match width {
        Width::W8 => b"((uint8_t)",
        Width::W32 => b"((uint32_t)",
        Width::W64 => b"((uint64_t)",
    }
}

/// What begins a comparison whose answer has a width.
pub(crate) fn comparison_opening(width: Width) -> &'static [u8]
    ensures { result.now ≡ ((codes "((" ++ width_word width) ++ codes ")") ++ codes "(" }
{
    match width {
        Width::W8 => b"((uint8_t)(",
        Width::W32 => b"((uint32_t)(",
        Width::W64 => b"((uint64_t)(",
    }
}

/// An operator, as it stands between its operands.
pub(crate) fn operator(op: CBin) -> &'static [u8]
    ensures { result.now ≡ (codes " " ++ bin_symbol op) ++ codes " " }
{
    match op {
        CBin::Add => b" + ",
        CBin::Sub => b" - ",
        CBin::Mul => b" * ",
        CBin::And => b" & ",
        CBin::Or => b" | ",
        CBin::Xor => b" ^ ",
        CBin::Shl => b" << ",
        CBin::Shr => b" >> ",
    }
}

/// The sign of a comparison, as it stands between its operands.
pub(crate) fn comparison(op: CmpKind) -> &'static [u8]
    ensures { result.now ≡ (codes " " ++ cmp_symbol op) ++ codes " " }
{
    match op {
        CmpKind::Eq => b" == ",
        CmpKind::Ne => b" != ",
        CmpKind::Lt => b" < ",
        CmpKind::Le => b" <= ",
        CmpKind::Gt => b" > ",
        CmpKind::Ge => b" >= ",
    }
}

/// The sign of a quotient, or else of a remainder, as it stands between its operands.
pub(crate) fn division_sign(is_quotient: bool) -> &'static [u8]
    ensures { result.now ≡ (codes " " ++ div_symbol is_quotient) ++ codes " " }
{
    if is_quotient { b" / " } else { b" % " }
}

/// Writes a name between other words.
pub(crate) fn named(
    out: &mut Vec<u8>,
    before: &[u8],
    name: &Name,
    after: &[u8],
) -> Result<(), NoMemory>
    ensures { OnOk result (out.new.items ≡ out.old.items ++ ((before.now ++ name.now) ++ after.now)) }
{
    out.extend_from_slice(before)?;
    out.extend_from_slice(name.as_bytes())?;
    out.extend_from_slice(after)
}

/// Writes a number with the suffix of its width.
pub(crate) fn number(out: &mut Vec<u8>, width: Width, n: u64) -> Result<(), NoMemory>
    ensures { OnOk result (out.new.items ≡ out.old.items ++ number width n) }
{
    count(out, n)?;
    match width {
        Width::W8 | Width::W32 => out.extend_from_slice(b"u"),
        Width::W64 => out.extend_from_slice(b"ull"),
    }
}

/// Writes a number that is no expression.
pub(crate) fn count(out: &mut Vec<u8>, n: u64) -> Result<(), NoMemory>
    ensures { OnOk result (out.new.items ≡ out.old.items ++ decimal n) }
{
    let digits = n.to_string(*out.allocator())?;
    out.extend_from_slice(digits.as_bytes())
}

/// Writes a count between brackets, and what stands behind it.
pub(crate) fn counted(out: &mut Vec<u8>, n: u64, after: &[u8]) -> Result<(), NoMemory>
    ensures { OnOk result (out.new.items ≡ out.old.items ++ ((codes "[" ++ decimal n) ++ after.now)) }
{
    out.extend_from_slice(b"[")?;
    count(out, n)?;
    out.extend_from_slice(after)
}

/// Writes what stands before a part of several: the first has none before it.
pub(crate) fn comma(out: &mut Vec<u8>, before: usize) -> Result<(), NoMemory>
    ensures { OnOk result (out.new.items ≡ out.old.items ++ comma before) }
{
    if before > 0 {
        out.extend_from_slice(b", ")?;
    }
    Ok(())
}
