//! The text of a file.

ghost use Rattle.std.specs.Prelude.{◌≡◌, IfOk};
ghost use Rattle.krml_writer.specs.Written.{text_of};

use crate::definition::forms_of_defs;
use krml_forms::write_forms;
use krml_syntax::SourceFile;
use krml_trace::NoMemory;
use std::alloc::Global;

/// The text of a file: each definition on a line of its own, with single spaces between forms and decimal numbers.
pub fn write_file(alloc: Global, file: &SourceFile) -> Result<Vec<u8>, NoMemory>
    ensures { IfOk result (λ text. text.items ≡ text_of file.now) }
{
    let forms = forms_of_defs(alloc, file.defs.as_slice())?;
    let text = write_forms(alloc, forms.as_slice())?;
    Ok(text)
}
