//! Programs.

ghost use Rattle.std.specs.Prelude.{◌≡◌, ◌++◌, OnOk, IfOk, map};
ghost use Rattle.std.specs.List.{flat_map};
ghost use Rattle.krml_ctree.specs.Text.{as_text, ended, declarator, separated, number, structure, table, text_of};
ghost use Rattle.krml_ctree.specs.Spelling.{SpelledAlone};
ghost use Rattle.krml_ctree.specs.WellFormed.{WellFormed};
ghost use Rattle.krml_cprint.specs.Printing.{table_words};

use crate::function::{definitions, prototypes};
use crate::simple::blank;
use crate::words::{comma, counted, named, number, width_word};
use krml_ctree::{CProgram, CStruct, CTable, CVar, spelled_alone};
use krml_trace::{Name, NoMemory, Width};
use std::alloc::Global;

/// Writes fields, each on a line.
fn fields(out: &mut Vec<u8>, all: &[CVar]) -> Result<(), NoMemory>
    ensures { OnOk result (out.new.items ≡ out.old.items ++ flat_map (λ f. ended as_text 1 (declarator as_text f)) all.now) }
{
    for field in all {
        blank(out, field, 1)?;
    }
    Ok(())
}

/// Writes a struct.
fn structure(out: &mut Vec<u8>, s: &CStruct) -> Result<(), NoMemory>
    ensures { OnOk result (out.new.items ≡ out.old.items ++ structure as_text s.now) }
{
    named(out, b"struct ", &s.name, b" {\n")?;
    fields(out, s.fields.as_slice())?;
    out.extend_from_slice(b"};\n")
}

/// Writes structs.
fn structures(out: &mut Vec<u8>, all: &[CStruct]) -> Result<(), NoMemory>
    ensures { OnOk result (out.new.items ≡ out.old.items ++ flat_map (structure as_text) all.now) }
{
    for s in all {
        structure(out, s)?;
    }
    Ok(())
}

/// Writes numbers of a width with commas between them.
fn numbers(out: &mut Vec<u8>, width: Width, nums: &[u64]) -> Result<(), NoMemory>
    ensures { OnOk result (out.new.items ≡ out.old.items ++ separated as_text (map (number width) nums.now)) }
{
    for (i, n) in nums.iter().enumerate() {
        comma(out, i)?;
        number(out, width, *n)?;
    }
    Ok(())
}

/// Writes the type and the name of a table.
fn table_words(out: &mut Vec<u8>, width: Width, name: &Name) -> Result<(), NoMemory>
    ensures { OnOk result (out.new.items ≡ out.old.items ++ table_words width name.now) }
{
    out.extend_from_slice(b"static const ")?;
    out.extend_from_slice(width_word(width))?;
    out.extend_from_slice(b" ")?;
    out.extend_from_slice(name.as_bytes())
}

/// Writes a table.
fn table(out: &mut Vec<u8>, t: &CTable) -> Result<(), NoMemory>
    ensures { OnOk result (out.new.items ≡ out.old.items ++ table as_text t.now) }
{
    table_words(out, t.width, &t.name)?;
    counted(out, t.nums.len() as u64, b"] = {")?;
    numbers(out, t.width, t.nums.as_slice())?;
    out.extend_from_slice(b"};\n")?;
    Ok(())
}

/// Writes tables.
fn tables(out: &mut Vec<u8>, all: &[CTable]) -> Result<(), NoMemory>
    ensures { OnOk result (out.new.items ≡ out.old.items ++ flat_map (table as_text) all.now) }
{
    for t in all {
        table(out, t)?;
    }
    Ok(())
}

/// Writes structs, tables, one prototype a function, and then the definitions.
fn text_of(alloc: Global, program: &CProgram) -> Result<Vec<u8>, NoMemory>
    ensures { IfOk result (λ text. text.items ≡ text_of program.now) }
{
    let mut out = Vec::from_slice(alloc, b"#include <stdint.h>\n")?;
    structures(&mut out, program.structs.as_slice())?;
    tables(&mut out, program.tables.as_slice())?;
    prototypes(&mut out, program.funs.as_slice())?;
    definitions(&mut out, program.funs.as_slice())?;
    Ok(out)
}

/// The text of a program, which spells that program and no other where it is well formed. An error is want of memory.
pub fn print_c(alloc: Global, program: &CProgram) -> Result<Vec<u8>, NoMemory>
    ensures text { IfOk result (λ text. text.items ≡ text_of program.now) }
    ensures alone { IfOk result (λ text. WellFormed program.now → SpelledAlone text.items program.now) }
{
    // The law that a text spells its program alone. The call does nothing when it runs.
    spelled_alone();
    let text = text_of(alloc, program)?;
    Ok(text)
}
