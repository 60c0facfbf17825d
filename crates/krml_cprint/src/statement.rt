//! Statements.

ghost use Rattle.std.specs.Prelude.{◌≡◌, ◌+◌, ◌++◌, OnOk, map, codes};
ghost use Rattle.std.specs.List.{flat_map};
ghost use Rattle.krml_ctree.specs.Text.{as_text, closing, ended, array, arm, ifs, otherwise, statement, statements};
ghost use Rattle.krml_cprint.specs.Printing.{arm_of, arm_words, test_line, loop_end};

use crate::expression::between;
use crate::layout::{line, margin};
use crate::simple::{
    blank, declaration, division, read, read_table, result_of_call, run, set, write,
};
use crate::types::array;
use krml_ctree::{CArm, CArray, CExpr, CStatement};
use krml_trace::{NoMemory, one_more};

/// Writes what stands before a test: the first has no branch before it.
fn keywords(out: &mut Vec<u8>, before: usize) -> Result<(), NoMemory>
    ensures { OnOk result (out.new.items ≡ out.old.items ++ arm_words before) }
{
    if before > 0 {
        out.extend_from_slice(b"} else ")?;
    }
    out.extend_from_slice(b"if ")
}

/// Writes the line of a test.
fn test_line(out: &mut Vec<u8>, before: usize, test: &CExpr, level: u32) -> Result<(), NoMemory>
    ensures { OnOk result (out.new.items ≡ out.old.items ++ test_line before test.now level) }
{
    margin(out, level)?;
    keywords(out, before)?;
    between(out, b"(", test, b") {\n")
}

/// Writes what stands behind the second list of a loop.
fn loop_end(out: &mut Vec<u8>, level: u32) -> Result<(), NoMemory>
    ensures { OnOk result (out.new.items ≡ out.old.items ++ loop_end level) }
{
    let inner = one_more(level)?;
    line(out, b"} else {", inner)?;
    line(out, b"break;", one_more(inner)?)?;
    line(out, b"}", inner)?;
    line(out, b"}", level)
}

/// Writes arrays, each on a line.
fn arrays(out: &mut Vec<u8>, all: &[CArray], level: u32) -> Result<(), NoMemory>
    ensures { OnOk result (out.new.items ≡ out.old.items ++ flat_map (λ a. ended as_text level (array as_text a)) all.now) }
{
    for a in all {
        margin(out, level)?;
        array(out, a)?;
        out.extend_from_slice(b";\n")?;
    }
    Ok(())
}

/// Writes the line that opens a block, and the arrays of the block.
fn opened(out: &mut Vec<u8>, locals: &[CArray], level: u32) -> Result<(), NoMemory>
    ensures { OnOk result (out.new.items ≡ out.old.items ++ (as_text.line level (codes "{") ++ flat_map (λ a. ended as_text (level + 1) (array as_text a)) locals.now)) }
{
    line(out, b"{", level)?;
    arrays(out, locals, one_more(level)?)
}

/// Writes a statement.
#[cycle(statement)]
#[tactic(auto, using(crate::proofs::Printed::loop_printed, crate::proofs::Printed::block_printed))]
fn statement(out: &mut Vec<u8>, s: &CStatement, level: u32) -> Result<(), NoMemory>
    ensures { OnOk result (out.new.items ≡ out.old.items ++ statement as_text s.now level) }
{
    match s {
        CStatement::Decl(v, e) => declaration(out, v, e, level),
        CStatement::Blank(v) => blank(out, v, level),
        CStatement::Set(name, e) => set(out, name, e, level),
        CStatement::Read(v, a, i) => read(out, v, a, i, level),
        CStatement::Tab(v, name, i) => read_table(out, v, name, i, level),
        CStatement::Write(a, i, e) => write(out, a, i, e, level),
        CStatement::Div(v, is_quotient, a, b) => division(out, v, *is_quotient, a, b, level),
        CStatement::Call(v, fun, args) => result_of_call(out, v, fun, args.as_slice(), level),
        CStatement::Run(fun, args) => run(out, fun, args.as_slice(), level),
        CStatement::Chain(arms, rest) => {
            ifs(out, arms.as_slice(), level)?;
            otherwise(out, rest.as_slice(), level)
        }
        CStatement::Loop(first, test, body) => {
            loop_start(out, first.as_slice(), level)?;
            turn(out, body.as_slice(), test, level)
        }
        CStatement::Block(locals, body) => {
            opened(out, locals.as_slice(), level)?;
            closed(out, body.as_slice(), level)
        }
    }
}

/// Writes the statements that stand in a brace of a level.
#[cycle(statement)]
fn inside(out: &mut Vec<u8>, body: &[CStatement], level: u32) -> Result<(), NoMemory>
    ensures { OnOk result (out.new.items ≡ out.old.items ++ statements as_text body.now (level + 1)) }
{
    block(out, body, one_more(level)?)
}

/// Writes the statements that stand in a brace of a level, and the line that closes it.
#[cycle(statement)]
fn closed(out: &mut Vec<u8>, body: &[CStatement], level: u32) -> Result<(), NoMemory>
    ensures { OnOk result (out.new.items ≡ out.old.items ++ (statements as_text body.now (level + 1) ++ closing as_text level)) }
{
    inside(out, body, level)?;
    line(out, b"}", level)
}

/// Writes the line that opens a loop, and its first list.
#[cycle(statement)]
fn loop_start(out: &mut Vec<u8>, first: &[CStatement], level: u32) -> Result<(), NoMemory>
    ensures { OnOk result (out.new.items ≡ out.old.items ++ (as_text.line level (codes "for (;;) {") ++ statements as_text first.now (level + 1))) }
{
    line(out, b"for (;;) {", level)?;
    inside(out, first, level)
}

/// Writes the test of a loop, its second list and its end.
#[cycle(statement)]
fn turn(out: &mut Vec<u8>, body: &[CStatement], test: &CExpr, level: u32) -> Result<(), NoMemory>
    ensures { OnOk result (out.new.items ≡ out.old.items ++ ((test_line 0 test.now (level + 1) ++ statements as_text body.now (level + 1 + 1)) ++ loop_end level)) }
{
    let inner = one_more(level)?;
    test_line(out, 0, test, inner)?;
    inside(out, body, inner)?;
    loop_end(out, level)
}

/// Writes statements.
#[cycle(statement)]
pub(crate) fn block(out: &mut Vec<u8>, body: &[CStatement], level: u32) -> Result<(), NoMemory>
    ensures { OnOk result (out.new.items ≡ out.old.items ++ statements as_text body.now level) }
{
    for s in body {
        statement(out, s, level)?;
    }
    Ok(())
}

/// Writes the tests of a chain, each with what is done where it is true.
#[cycle(statement)]
fn ifs(out: &mut Vec<u8>, arms: &[CArm], level: u32) -> Result<(), NoMemory>
    ensures { OnOk result (out.new.items ≡ out.old.items ++ ifs as_text (map arm_of arms.now) level) }
{
    for (i, a) in arms.iter().enumerate() {
        arm(out, i, a, level)?;
    }
    Ok(())
}

/// Writes a test and what is done where it is true.
#[cycle(statement)]
fn arm(out: &mut Vec<u8>, before: usize, a: &CArm, level: u32) -> Result<(), NoMemory>
    ensures { OnOk result (out.new.items ≡ out.old.items ++ arm as_text (arm_words before) (arm_of a.now) level) }
{
    test_line(out, before, &a.test, level)?;
    inside(out, a.body.as_slice(), level)
}

/// Writes what is done where no test is true, and the line that closes a chain.
#[cycle(statement)]
fn otherwise(out: &mut Vec<u8>, rest: &[CStatement], level: u32) -> Result<(), NoMemory>
    ensures { OnOk result (out.new.items ≡ out.old.items ++ (otherwise as_text (map (statement as_text) rest.now) level ++ closing as_text level)) }
{
    if rest.is_empty() {
        return line(out, b"}", level);
    }
    line(out, b"} else {", level)?;
    closed(out, rest, level)
}
