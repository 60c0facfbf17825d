//! The compiler, pass by pass. Where a pass is not built, its line gives the same file the form that the pass would: what is
//! built has nothing in it for that pass to do.

ghost use Rattle.std.specs.Prelude.{◌≡◌, None, IfOk};
ghost use Rattle.krml_ast.specs.FileTypes.{IsTypedFile, IsPlain, IsBundled};
ghost use Rattle.krml_match.specs.Wide.{first_wide, IsRefusedRightly};
ghost use Rattle.krml_cstar.specs.Built.{AreBuilt, AreWithin};
ghost use Rattle.krml_cli.specs.Accept.{PassesAnswer};
ghost use Rattle.krml_cli.specs.Theorem.{IsEmitted};

use crate::refusal::FileRefusal;
use krml_ast::{BundledFile, CheckedFile, MonoFile, PlainFile};
use krml_bundle::bundle;
use krml_cprint::print_c;
use krml_cstar::{built_files, to_cstar};
use krml_hoist::hoist;
use krml_match::{MatchRefusal, compile_matches};
use krml_trace::NoMemory;
use krml_types::TypedFile;
use std::alloc::Global;

/// The plain file of a file with its types, whose definitions are built, with buffers or without.
pub fn plain(alloc: Global, typed: TypedFile, buffers: bool) -> Result<PlainFile, MatchRefusal>
    requires within { AreWithin buffers typed.defs }
    ensures value { IfOk result (λ r. r ≡ typed) }
    ensures form { IfOk result (λ r. IsTypedFile typed → IsPlain r) }
    ensures narrow { IfOk result (λ r. first_wide typed.defs ≡ None) }
    ensures refused { IsRefusedRightly typed.defs result }
{
    // The law that what is built has the forms of the first two files. The call does nothing when it runs.
    built_files();
    let checked = CheckedFile::of(typed.into_file());
    let mono = MonoFile::of(checked.into_file());
    compile_matches(alloc, &mono)
}

/// What the passes before the translation make of a file with its types, whose definitions are built.
pub fn passed(alloc: Global, typed: TypedFile) -> Result<BundledFile, FileRefusal>
    requires built { AreBuilt typed.defs }
    ensures { PassesAnswer typed result }
{
    // The law of what is built once more, for what it says of forms.
    built_files();
    let plain = plain(alloc, typed, false)?;
    let hoisted = hoist(alloc, &plain)?;
    let bundled = bundle(alloc, &hoisted)?;
    Ok(bundled)
}

/// The C text of a bundled file, whose definitions are built.
pub fn emit_c(alloc: Global, bundled: &BundledFile) -> Result<Vec<u8>, NoMemory>
    requires built { AreBuilt bundled.now.0.defs }
    ensures { IfOk result (λ text. IsBundled bundled.now.0 bundled.now.1 → IsEmitted bundled.now.0 text.items) }
{
    let program = to_cstar(alloc, bundled)?;
    let text = print_c(alloc, &program)?;
    Ok(text)
}
