//! Which texts are accepted.

ghost use Rattle.krml_cli.specs.Accept.{IsAnswered};

use crate::built::first_unbuilt;
use crate::pipeline::passed;
use crate::refusal::FileRefusal;
use krml_ast::BundledFile;
use krml_reader::read_file;
use krml_types::check_types;
use std::alloc::Global;

/// What the passes make of the file that a source text spells, where each of its definitions is well typed and of the part of
/// the language that is built, no type has too many leaves and no frame takes too many bytes. The answer is the same for each
/// command: a text is refused for the first of these causes.
pub fn accept(alloc: Global, text: &[u8]) -> Result<BundledFile, FileRefusal>
    ensures { IsAnswered text.now result }
{
    let file = read_file(alloc, text)?;
    let typed = check_types(alloc, file)?;
    match first_unbuilt(false, typed.file()) {
        None => passed(alloc, typed),
        Some(place) => Err(FileRefusal::not_built(place)),
    }
}
