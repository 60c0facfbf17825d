//! Types, and what they stand before.

ghost use Rattle.std.specs.Prelude.{◌≡◌, ◌++◌, OnOk};
ghost use Rattle.krml_ctree.specs.Text.{as_text, type_of, result_of, declarator, array};

use crate::words::{counted, named};
use krml_ctree::{CArray, CType, CVar};
use krml_trace::NoMemory;

/// Writes a type, as it stands before a name.
fn type_of(out: &mut Vec<u8>, ty: &CType) -> Result<(), NoMemory>
    ensures { OnOk result (out.new.items ≡ out.old.items ++ type_of as_text ty.now) }
{
    match ty {
        CType::U8 => out.extend_from_slice(b"uint8_t "),
        CType::U32 => out.extend_from_slice(b"uint32_t "),
        CType::U64 => out.extend_from_slice(b"uint64_t "),
        CType::Struct(name) => named(out, b"struct ", name, b" "),
        CType::Ptr(element) => {
            type_of(out, element.get())?;
            out.extend_from_slice(b"*")
        }
    }
}

/// Writes the result type of a function.
pub(crate) fn result_of(out: &mut Vec<u8>, ty: &Option<CType>) -> Result<(), NoMemory>
    ensures { OnOk result (out.new.items ≡ out.old.items ++ result_of as_text ty.now) }
{
    match ty {
        None => out.extend_from_slice(b"void "),
        Some(ty) => type_of(out, ty),
    }
}

/// Writes a variable, a parameter or a field.
pub(crate) fn declarator(out: &mut Vec<u8>, v: &CVar) -> Result<(), NoMemory>
    ensures { OnOk result (out.new.items ≡ out.old.items ++ declarator as_text v.now) }
{
    type_of(out, &v.ty)?;
    out.extend_from_slice(v.name.as_bytes())
}

/// Writes an array.
pub(crate) fn array(out: &mut Vec<u8>, a: &CArray) -> Result<(), NoMemory>
    ensures { OnOk result (out.new.items ≡ out.old.items ++ array as_text a.now) }
{
    type_of(out, &a.ty)?;
    out.extend_from_slice(a.name.as_bytes())?;
    counted(out, a.len as u64, b"]")
}
