//! Statements of one line.

ghost use Rattle.std.specs.Prelude.{◌≡◌, ◌*◌, ◌++◌, OnOk, replicate, codes};
ghost use Rattle.krml_ctree.specs.Text.{as_text, declarator, expr, binary, call, element, ended, equation, div_symbol};

use crate::expression::{between, call, element, quotient, table_element};
use crate::layout::margin;
use crate::types::declarator;
use krml_ctree::{CExpr, CVar};
use krml_trace::{Name, NoMemory};

/// Writes a variable, and what stands before its value.
fn left_side(out: &mut Vec<u8>, v: &CVar, level: u32) -> Result<(), NoMemory>
    ensures { OnOk result (out.new.items ≡ out.old.items ++ ((replicate (2 * level) 32 ++ declarator as_text v.now) ++ codes " = ")) }
{
    margin(out, level)?;
    declarator(out, v)?;
    out.extend_from_slice(b" = ")
}

/// Writes a variable and its value.
#[tactic(auto, using(crate::proofs::Printed::assignment_printed))]
pub(crate) fn declaration(
    out: &mut Vec<u8>,
    v: &CVar,
    e: &CExpr,
    level: u32,
) -> Result<(), NoMemory>
    ensures { OnOk result (out.new.items ≡ out.old.items ++ equation as_text level (declarator as_text v.now) (expr as_text e.now)) }
{
    margin(out, level)?;
    declarator(out, v)?;
    between(out, b" = ", e, b";\n")
}

/// Writes a variable without a value, or a field.
pub(crate) fn blank(out: &mut Vec<u8>, v: &CVar, level: u32) -> Result<(), NoMemory>
    ensures { OnOk result (out.new.items ≡ out.old.items ++ ended as_text level (declarator as_text v.now)) }
{
    margin(out, level)?;
    declarator(out, v)?;
    out.extend_from_slice(b";\n")
}

/// Writes an assignment.
#[tactic(auto, using(crate::proofs::Printed::assignment_printed))]
pub(crate) fn set(out: &mut Vec<u8>, name: &Name, e: &CExpr, level: u32) -> Result<(), NoMemory>
    ensures { OnOk result (out.new.items ≡ out.old.items ++ equation as_text level (as_text.token name.now) (expr as_text e.now)) }
{
    margin(out, level)?;
    out.extend_from_slice(name.as_bytes())?;
    between(out, b" = ", e, b";\n")
}

/// Writes a variable and the element that a pointer and an index lead to.
#[tactic(auto, using(crate::proofs::Printed::equation_printed))]
pub(crate) fn read(
    out: &mut Vec<u8>,
    v: &CVar,
    a: &CExpr,
    i: &CExpr,
    level: u32,
) -> Result<(), NoMemory>
    ensures { OnOk result (out.new.items ≡ out.old.items ++ equation as_text level (declarator as_text v.now) (element as_text (expr as_text a.now) i.now)) }
{
    left_side(out, v, level)?;
    element(out, a, i)?;
    out.extend_from_slice(b";\n")
}

/// Writes a variable and an element of a table.
#[tactic(auto, using(crate::proofs::Printed::equation_printed))]
pub(crate) fn read_table(
    out: &mut Vec<u8>,
    v: &CVar,
    name: &Name,
    i: &CExpr,
    level: u32,
) -> Result<(), NoMemory>
    ensures { OnOk result (out.new.items ≡ out.old.items ++ equation as_text level (declarator as_text v.now) (element as_text (as_text.token name.now) i.now)) }
{
    left_side(out, v, level)?;
    table_element(out, name, i)?;
    out.extend_from_slice(b";\n")
}

/// Writes an assignment to the element that a pointer and an index lead to.
#[tactic(auto, using(crate::proofs::Printed::assignment_printed))]
pub(crate) fn write(
    out: &mut Vec<u8>,
    a: &CExpr,
    i: &CExpr,
    e: &CExpr,
    level: u32,
) -> Result<(), NoMemory>
    ensures { OnOk result (out.new.items ≡ out.old.items ++ equation as_text level (element as_text (expr as_text a.now) i.now) (expr as_text e.now)) }
{
    margin(out, level)?;
    element(out, a, i)?;
    between(out, b" = ", e, b";\n")
}

/// Writes a variable and a quotient, or else a remainder.
#[tactic(auto, using(crate::proofs::Printed::equation_printed))]
pub(crate) fn division(
    out: &mut Vec<u8>,
    v: &CVar,
    is_quotient: bool,
    a: &CExpr,
    b: &CExpr,
    level: u32,
) -> Result<(), NoMemory>
    ensures { OnOk result (out.new.items ≡ out.old.items ++ equation as_text level (declarator as_text v.now) (binary as_text (div_symbol is_quotient) (expr as_text a.now) (expr as_text b.now))) }
{
    left_side(out, v, level)?;
    quotient(out, is_quotient, a, b)?;
    out.extend_from_slice(b";\n")
}

/// Writes a variable and the result of a call.
#[tactic(auto, using(crate::proofs::Printed::equation_printed))]
pub(crate) fn result_of_call(
    out: &mut Vec<u8>,
    v: &CVar,
    fun: &Name,
    args: &[CExpr],
    level: u32,
) -> Result<(), NoMemory>
    ensures { OnOk result (out.new.items ≡ out.old.items ++ equation as_text level (declarator as_text v.now) (call as_text fun.now args.now)) }
{
    left_side(out, v, level)?;
    call(out, fun, args)?;
    out.extend_from_slice(b";\n")
}

/// Writes a call that gives nothing.
pub(crate) fn run(out: &mut Vec<u8>, fun: &Name, args: &[CExpr], level: u32) -> Result<(), NoMemory>
    ensures { OnOk result (out.new.items ≡ out.old.items ++ ended as_text level (call as_text fun.now args.now)) }
{
    margin(out, level)?;
    call(out, fun, args)?;
    out.extend_from_slice(b";\n")
}
