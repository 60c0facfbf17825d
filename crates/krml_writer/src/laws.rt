//! A law about texts that were written, as the contract of a call that does nothing.

ghost use Rattle.std.specs.Prelude.{◌≡◌, ℕ, ◌≤◌, List, length, None};
ghost use Rattle.krml_trace.specs.Limits.{max_text};
ghost use Rattle.krml_forms.specs.Levels.{AllWithin};
ghost use Rattle.krml_forms.specs.Text.{HasForms};
ghost use Rattle.krml_syntax.specs.File.{SpellsFile};
ghost use Rattle.krml_syntax.specs.Limits.{first_excess};
ghost use Rattle.krml_syntax.specs.Spelling.{SpellsDefs};
ghost use Rattle.krml_writer.specs.Written.{forms_of, text_of};

use krml_forms::{Form, written_forms_are_read};
use krml_syntax::SourceFile;

/// The written text of a file that forms spell has forms that spell the file. They are no deeper than any forms that
/// do, and exceed no limit where those exceed none. So the written text of a file that a text within the limits
/// spells, spells the file too, where it is not too long.
pub fn written_again()
    ensures spelled { (forms : List Form) (file : SourceFile) → SpellsDefs forms file.defs → HasForms (text_of file) (forms_of file) × SpellsDefs (forms_of file) file.defs }
    ensures levels { (forms : List Form) (file : SourceFile) → SpellsDefs forms file.defs → (n : ℕ) → AllWithin n forms → AllWithin n (forms_of file) }
    ensures limits { (forms : List Form) (file : SourceFile) → SpellsDefs forms file.defs → first_excess forms file.defs ≡ None → first_excess (forms_of file) file.defs ≡ None }
    ensures again { (text : List ℕ) (file : SourceFile) → SpellsFile text file → length (text_of file) ≤ max_text → SpellsFile (text_of file) file }
{
    written_forms_are_read();
}
