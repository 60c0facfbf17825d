//! Expressions.

ghost use Rattle.std.specs.Prelude.{◌≡◌, ◌++◌, OnOk, map, codes};
ghost use Rattle.krml_ctree.specs.Text.{as_text, separated, cast, number, expr, element, binary, call, div_symbol};

use crate::words::{
    cast_opening, comma, comparison, comparison_opening, division_sign, named, number, operator,
};
use krml_ctree::CExpr;
use krml_trace::{Name, NoMemory, Width};

/// Writes a number converted to the type of its width.
fn literal(out: &mut Vec<u8>, width: Width, n: u64) -> Result<(), NoMemory>
    ensures { OnOk result (out.new.items ≡ out.old.items ++ cast as_text width (number width n)) }
{
    out.extend_from_slice(cast_opening(width))?;
    number(out, width, n)?;
    out.extend_from_slice(b")")
}

/// Writes what selects a field of a struct.
fn selection(out: &mut Vec<u8>, name: &Name) -> Result<(), NoMemory>
    ensures { OnOk result (out.new.items ≡ out.old.items ++ (codes "." ++ name.now)) }
{
    out.extend_from_slice(b".")?;
    out.extend_from_slice(name.as_bytes())
}

/// Writes an expression behind other words.
#[cycle(expr)]
fn behind(out: &mut Vec<u8>, before: &[u8], e: &CExpr) -> Result<(), NoMemory>
    ensures { OnOk result (out.new.items ≡ out.old.items ++ (before.now ++ expr as_text e.now)) }
{
    out.extend_from_slice(before)?;
    expr(out, e)
}

/// Writes an expression between other words.
#[cycle(expr)]
pub(crate) fn between(
    out: &mut Vec<u8>,
    before: &[u8],
    e: &CExpr,
    after: &[u8],
) -> Result<(), NoMemory>
    ensures { OnOk result (out.new.items ≡ out.old.items ++ ((before.now ++ expr as_text e.now) ++ after.now)) }
{
    behind(out, before, e)?;
    out.extend_from_slice(after)
}

/// Writes an expression.
#[cycle(expr)]
pub(crate) fn expr(out: &mut Vec<u8>, e: &CExpr) -> Result<(), NoMemory>
    ensures { OnOk result (out.new.items ≡ out.old.items ++ expr as_text e.now) }
{
    match e {
        CExpr::Var(x) => out.extend_from_slice(x.as_bytes()),
        CExpr::Lit(width, n) => literal(out, *width, *n),
        CExpr::Cast(width, a) => between(out, cast_opening(*width), a.get(), b")"),
        CExpr::Bin(op, a, b) => {
            behind(out, b"(", a.get())?;
            between(out, operator(*op), b.get(), b")")
        }
        CExpr::Cmp(width, op, a, b) => {
            behind(out, comparison_opening(*width), a.get())?;
            between(out, comparison(*op), b.get(), b"))")
        }
        CExpr::Build(name, values) => build(out, name, values.as_slice()),
        CExpr::Field(a, name) => {
            expr(out, a.get())?;
            selection(out, name)
        }
    }
}

/// Writes a struct, from the values of its fields.
#[cycle(expr)]
fn build(out: &mut Vec<u8>, name: &Name, values: &[CExpr]) -> Result<(), NoMemory>
    ensures { OnOk result (out.new.items ≡ out.old.items ++ ((((codes "((struct " ++ name.now) ++ codes "){") ++ separated as_text (map (expr as_text) values.now)) ++ codes "})")) }
{
    named(out, b"((struct ", name, b"){")?;
    exprs(out, values)?;
    out.extend_from_slice(b"})")
}

/// Writes expressions with commas between them.
#[cycle(expr)]
fn exprs(out: &mut Vec<u8>, es: &[CExpr]) -> Result<(), NoMemory>
    ensures { OnOk result (out.new.items ≡ out.old.items ++ separated as_text (map (expr as_text) es.now)) }
{
    for (i, e) in es.iter().enumerate() {
        comma(out, i)?;
        expr(out, e)?;
    }
    Ok(())
}

/// Writes the element that a pointer and an index lead to.
pub(crate) fn element(out: &mut Vec<u8>, a: &CExpr, i: &CExpr) -> Result<(), NoMemory>
    ensures { OnOk result (out.new.items ≡ out.old.items ++ element as_text (expr as_text a.now) i.now) }
{
    expr(out, a)?;
    between(out, b"[", i, b"]")
}

/// Writes an element of a table.
pub(crate) fn table_element(out: &mut Vec<u8>, name: &Name, i: &CExpr) -> Result<(), NoMemory>
    ensures { OnOk result (out.new.items ≡ out.old.items ++ element as_text (as_text.token name.now) i.now) }
{
    out.extend_from_slice(name.as_bytes())?;
    between(out, b"[", i, b"]")
}

/// Writes a quotient, or else a remainder.
pub(crate) fn quotient(
    out: &mut Vec<u8>,
    is_quotient: bool,
    a: &CExpr,
    b: &CExpr,
) -> Result<(), NoMemory>
    ensures { OnOk result (out.new.items ≡ out.old.items ++ binary as_text (div_symbol is_quotient) (expr as_text a.now) (expr as_text b.now)) }
{
    behind(out, b"(", a)?;
    between(out, division_sign(is_quotient), b, b")")
}

/// Writes a call.
pub(crate) fn call(out: &mut Vec<u8>, fun: &Name, args: &[CExpr]) -> Result<(), NoMemory>
    ensures { OnOk result (out.new.items ≡ out.old.items ++ call as_text fun.now args.now) }
{
    out.extend_from_slice(fun.as_bytes())?;
    out.extend_from_slice(b"(")?;
    exprs(out, args)?;
    out.extend_from_slice(b")")
}
