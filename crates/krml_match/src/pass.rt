//! The pass that puts cases in the place of matches.

ghost use Rattle.std.specs.Prelude.{◌≡◌, None, IfOk};
ghost use Rattle.krml_ast.specs.FileTypes.{HasNoMatch, EachRole, IsMono, IsPlain};
ghost use Rattle.krml_passing.specs.RunsAs.{RunsAs, FitsAs};
ghost use Rattle.krml_match.specs.Wide.{first_wide, IsRefusedRightly};

use crate::refusal::MatchRefusal;
use crate::wide::first_wide;
use krml_ast::{MonoFile, PlainFile};
use krml_rename::clone_file;
use std::alloc::Global;

/// The file with cases in the place of matches: one without matches stays as it is. `Wide` is the first type that has more
/// leaves than a type may have.
pub fn compile_matches(alloc: Global, file: &MonoFile) -> Result<PlainFile, MatchRefusal>
    requires no_match { EachRole HasNoMatch file.now.defs }
    ensures value { IfOk result (λ r. r ≡ file.now) }
    ensures form { IfOk result (λ r. IsMono file.now → IsPlain r) }
    ensures narrow { IfOk result (λ r. first_wide file.now.defs ≡ None) }
    ensures refused { IsRefusedRightly file.now.defs result }
    ensures runs { IfOk result (λ r. RunsAs (λ x. x) (λ e. e) file.now r) }
    ensures fits { IfOk result (λ r. FitsAs (λ x. x) file.now r) }
{
    let file = file.file();
    match first_wide(alloc, file.defs.as_slice())? {
        Some((name, leaves)) => Err(MatchRefusal::Wide { name, leaves }),
        None => {
            let plain = clone_file(alloc, file)?;
            Ok(PlainFile::of(plain))
        }
    }
}
