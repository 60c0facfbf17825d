//! The pass that lists the slots of each frame.

ghost use Rattle.std.specs.Prelude.{◌≡◌, IfOk, IfErr, None};
ghost use Rattle.krml_ast.specs.FileTypes.{IsPlain, IsHoisted};
ghost use Rattle.krml_passing.specs.Hoisted.{file_hoisted};
ghost use Rattle.krml_passing.specs.RunsAs.{RunsAs, FitsAs};
ghost use Rattle.krml_hoist.specs.Large.{first_large};
ghost use Rattle.krml_hoist.specs.Refusing.{Refuses};

use crate::definitions::defs_hoisted;
use crate::refusal::HoistRefusal;
use krml_ast::{HoistedFile, PlainFile};
use krml_layout::Layouts;
use krml_passing::hoisted_files_run;
use krml_syntax::SourceFile;
use std::alloc::Global;

/// The file whose frames list the slots of the `alloc` forms inside them, in textual order, with fills in the places of these.
/// Its runs are those of the file, with the same outcomes and events, and what fits an entry fits it there. A file is refused
/// where a frame takes more than 16,777,216 bytes: the first such frame is told, or want of memory.
pub fn hoist(alloc: Global, file: &PlainFile) -> Result<HoistedFile, HoistRefusal>
    ensures value { IfOk result (λ r. r ≡ file_hoisted file.now) }
    ensures form { IfOk result (λ r. IsPlain file.now → IsHoisted r) }
    ensures small { IfOk result (λ r. first_large r.defs ≡ None) }
    ensures refused { IfErr result (λ e. Refuses (first_large (file_hoisted file.now).defs) e) }
    ensures runs { IfOk result (λ r. RunsAs (λ x. x) (λ e. e) file.now r) }
    ensures fits { IfOk result (λ r. FitsAs (λ x. x) file.now r) }
{
    // The laws of hoisted files. The call does nothing when it runs.
    hoisted_files_run();
    let layouts = Layouts::new(alloc, file)?;
    let source = file.file();
    let defs = defs_hoisted(alloc, &layouts, source.defs.as_slice())?;
    Ok(HoistedFile::of(SourceFile { defs }))
}
