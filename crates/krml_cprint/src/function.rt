//! Functions.

ghost use Rattle.std.specs.Prelude.{◌≡◌, ◌++◌, OnOk};
ghost use Rattle.std.specs.List.{flat_map};
ghost use Rattle.krml_ctree.specs.Text.{as_text, parameters, head, prototype, answer, definition};
ghost use Rattle.krml_cprint.specs.Printing.{opening};

use crate::expression::between;
use crate::statement::block;
use crate::types::{declarator, result_of};
use crate::words::comma;
use krml_ctree::{CExpr, CFun, CVar};
use krml_trace::NoMemory;

/// Writes parameters with commas between them.
fn parameters(out: &mut Vec<u8>, params: &[CVar]) -> Result<(), NoMemory>
    ensures { OnOk result (out.new.items ≡ out.old.items ++ parameters as_text params.now) }
{
    if params.is_empty() {
        return out.extend_from_slice(b"void");
    }
    for (i, param) in params.iter().enumerate() {
        comma(out, i)?;
        declarator(out, param)?;
    }
    Ok(())
}

/// Writes the result type, the name and the parameters of a function.
fn head(out: &mut Vec<u8>, f: &CFun) -> Result<(), NoMemory>
    ensures { OnOk result (out.new.items ≡ out.old.items ++ head as_text f.now) }
{
    result_of(out, &f.result)?;
    out.extend_from_slice(f.name.as_bytes())?;
    out.extend_from_slice(b"(")?;
    parameters(out, f.params.as_slice())?;
    out.extend_from_slice(b")")
}

/// Writes the prototype of a function.
fn prototype(out: &mut Vec<u8>, f: &CFun) -> Result<(), NoMemory>
    ensures { OnOk result (out.new.items ≡ out.old.items ++ prototype as_text f.now) }
{
    head(out, f)?;
    out.extend_from_slice(b";\n")
}

/// Writes the prototypes of functions.
pub(crate) fn prototypes(out: &mut Vec<u8>, funs: &[CFun]) -> Result<(), NoMemory>
    ensures { OnOk result (out.new.items ≡ out.old.items ++ flat_map (prototype as_text) funs.now) }
{
    for f in funs {
        prototype(out, f)?;
    }
    Ok(())
}

/// Writes what a function returns.
fn answer(out: &mut Vec<u8>, e: &Option<CExpr>) -> Result<(), NoMemory>
    ensures { OnOk result (out.new.items ≡ out.old.items ++ answer as_text e.now) }
{
    match e {
        None => Ok(()),
        Some(e) => between(out, b"  return ", e, b";\n"),
    }
}

/// Writes the line that opens a definition.
fn opening(out: &mut Vec<u8>, f: &CFun) -> Result<(), NoMemory>
    ensures { OnOk result (out.new.items ≡ out.old.items ++ opening f.now) }
{
    head(out, f)?;
    out.extend_from_slice(b" {\n")
}

/// Writes the definition of a function.
fn definition(out: &mut Vec<u8>, f: &CFun) -> Result<(), NoMemory>
    ensures { OnOk result (out.new.items ≡ out.old.items ++ definition as_text f.now) }
{
    opening(out, f)?;
    block(out, f.body.as_slice(), 1)?;
    answer(out, &f.answer)?;
    out.extend_from_slice(b"}\n")?;
    Ok(())
}

/// Writes the definitions of functions.
pub(crate) fn definitions(out: &mut Vec<u8>, funs: &[CFun]) -> Result<(), NoMemory>
    ensures { OnOk result (out.new.items ≡ out.old.items ++ flat_map (definition as_text) funs.now) }
{
    for f in funs {
        definition(out, f)?;
    }
    Ok(())
}
