//! A law about files that were written, as the contract of a call that does nothing.

ghost use Rattle.std.specs.Prelude.{◌≡◌, ℕ, List, Result};
ghost use Rattle.krml_syntax.specs.declared.tree.SourceFile.{SourceFile};
ghost use Rattle.krml_syntax.specs.File.{SpellsFile};
ghost use Rattle.krml_writer.specs.Written.{text_of};
ghost use Rattle.krml_reader.specs.declared.refusal.ReadRefusal.{ReadRefusal};
ghost use Rattle.krml_reader.specs.Read.{Reads, read_back};

use crate::read::one_answer;
use krml_writer::written_again;

/// Reading what was written of a file that a text within the limits spells comes to the file again, or to `TooLarge`
/// where the written text is longer than the limit of a text.
pub fn written_is_read()
    ensures { (text : List ℕ) (file : SourceFile) (answer : Result SourceFile ReadRefusal) → SpellsFile text file → Reads (text_of file) answer → answer ≡ read_back file }
{
    one_answer();
    written_again();
}
