//! The pass that gives a file the names that C has.

ghost use Rattle.std.specs.Prelude.{◌≡◌, IfOk};
ghost use Rattle.krml_ast.specs.FileTypes.{IsHoisted, IsBundled};
ghost use Rattle.krml_bundle.specs.Bundled.{bundled, names_of, RunsAsBundled, FitAsBundled, NamesEntries};

use crate::definitions::{defs_bundled, names_of};
use krml_ast::{BundledFile, HoistedFile};
use krml_syntax::SourceFile;
use krml_trace::NoMemory;
use std::alloc::Global;

/// The file with the names that C has, its definitions in their order, and the new name of each entry.
/// The runs of an entry under its new name are those of the file, with the same outcome, and events under the new names, and
/// what fits the entry fits it there. That name is the one that `name_of` gives for the entry.
pub fn bundle(alloc: Global, file: &HoistedFile) -> Result<BundledFile, NoMemory>
    ensures value { IfOk result (λ r. r ≡ (bundled file.now, names_of file.now)) }
    ensures form { IfOk result (λ r. IsHoisted file.now → IsBundled r.0 r.1) }
    ensures names { IfOk result (λ r. NamesEntries file.now r.1) }
    ensures fits { IfOk result (λ r. FitAsBundled file.now r.0) }
    ensures runs { IfOk result (λ r. RunsAsBundled file.now r.0) }
{
    let file = file.file();
    let defs = defs_bundled(alloc, file.defs.as_slice())?;
    let names = names_of(alloc, file.defs.as_slice())?;
    Ok(BundledFile::of(SourceFile { defs }, names))
}
