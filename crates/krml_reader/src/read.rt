//! The file that a text spells, or why it is refused.

ghost use Rattle.std.specs.Prelude.{◌≡◌, IfOk, List, ℕ, Result};
ghost use Rattle.krml_trace.specs.Limits.{max_levels};
ghost use Rattle.krml_forms.specs.declared.form.Form.{Form};
ghost use Rattle.krml_forms.specs.Levels.{Within};
ghost use Rattle.krml_syntax.specs.declared.tree.Def.{Def};
ghost use Rattle.krml_syntax.specs.declared.tree.SourceFile.{SourceFile};
ghost use Rattle.krml_syntax.specs.Spelling.{SpellsDef};
ghost use Rattle.krml_syntax.specs.File.{SpellsFile};
ghost use Rattle.krml_reader.specs.declared.refusal.ReadRefusal.{ReadRefusal};
ghost use Rattle.krml_reader.specs.Answer.{Misshapen, Answers, AddsDef, defs_of, limited, file_of};
ghost use Rattle.krml_reader.specs.Read.{Reads, IsRead, IsRefused};

use crate::definition::def_at;
use crate::refusal::ReadRefusal;
use krml_forms::{Form, Reading, one_reading, read_forms};
use krml_limits::{Excess, first_excess};
use krml_syntax::{Def, SourceFile};
use krml_trace::{MAX_TEXT, Missing, Seq, count};
use std::alloc::Global;

/// The refusal of the form of this index.
fn misshapen(index: usize) -> ReadRefusal
    ensures { Misshapen index result }
{
    match count(index) {
        Ok(form) => ReadRefusal::Shape { form },
        Err(_) => ReadRefusal::NoMemory,
    }
}

/// Reads the next form as a definition.
#[tactic(auto, unfolding(crate::specs::Answer::defs_after))]
fn add_def(alloc: Global, defs: &mut Seq<Def>, form: &Form) -> Result<(), ReadRefusal>
    ensures { AddsDef defs.old form.now result defs.new }
{
    match def_at(alloc, form) {
        Ok(def) => Ok(defs.push(def)?),
        Err(Missing::Absent) => Err(misshapen(defs.len())),
        Err(Missing::NoMemory) => Err(ReadRefusal::NoMemory),
    }
}

/// The definitions that forms spell.
#[tactic(auto, unfolding(crate::specs::Answer::defs_after))]
fn defs_of(alloc: Global, forms: &[Form]) -> Result<Seq<Def>, ReadRefusal>
    ensures { Answers result (defs_of forms.now) }
{
    let mut defs = Seq::new(alloc);
    for form in forms {
        add_def(alloc, &mut defs, form)?;
    }
    Ok(defs)
}

/// The file of these definitions, where no limit is exceeded.
fn limited(forms: &[Form], defs: Seq<Def>) -> Result<SourceFile, ReadRefusal>
    ensures { Answers result (limited forms.now defs) }
{
    match first_excess(forms, defs.as_slice())? {
        Some(Excess { which, count }) => Err(ReadRefusal::Limit { which, count }),
        None => Ok(SourceFile { defs }),
    }
}

fn file_of(alloc: Global, forms: &[Form]) -> Result<SourceFile, ReadRefusal>
    ensures { Answers result (file_of forms.now) }
{
    let defs = defs_of(alloc, forms)?;
    limited(forms, defs)
}

fn read(alloc: Global, text: &[u8]) -> Result<SourceFile, ReadRefusal>
    ensures { IsRead text.now result }
{
    if text.len() > MAX_TEXT {
        return Err(ReadRefusal::TooLarge);
    }
    match read_forms(alloc, text)? {
        Reading::Forms(forms) => file_of(alloc, forms.as_slice()),
        Reading::Syntax { at } => Err(ReadRefusal::Syntax { at }),
        Reading::Nesting { at } => Err(ReadRefusal::Nesting { at }),
    }
}

/// The file that a text spells, or the first cause why it spells none. Linear in the text.
pub fn read_file(alloc: Global, text: &[u8]) -> Result<SourceFile, ReadRefusal>
    ensures found { IfOk result (λ file. SpellsFile text.now file) }
    ensures refused { IsRefused text.now result }
{
    read(alloc, text)
}

/// Reading a text comes to one answer, so each refusal comes exactly where its condition holds, unless memory runs out.
pub fn one_answer()
    ensures { (text : List ℕ) (a b : Result SourceFile ReadRefusal) → Reads text a → Reads text b → a ≡ b }
{
    one_reading()
}

/// A text spells at most one file.
pub fn one_file()
    ensures { (text : List ℕ) (f g : SourceFile) → SpellsFile text f → SpellsFile text g → f ≡ g }
{
    one_answer()
}

/// A form of 64 levels at most spells at most one definition.
pub fn one_definition()
    ensures { (form : Form) (a b : Def) → Within max_levels form → SpellsDef form a → SpellsDef form b → a ≡ b }
{}
