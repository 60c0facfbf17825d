//! Laws about runs of the source, as contracts of calls that do nothing.

ghost use Rattle.krml_meaning.specs.Endings.{CheckedFilesEnd, TypedFilesEnd};
ghost use Rattle.krml_meaning.specs.Sound.{CheckedFilesRun, TypedFilesRun};

/// Runs of well typed files are sound: of an entry, on arguments that fit, none is undefined and none is trapped. Where one is
/// done, there is a result exactly where its function has one.
pub fn typed_files_run()
    ensures runs { TypedFilesRun }
    // Where one is done, the result is a number of its type, and the buffers are those of the arguments: each as long, and of
    // numbers of its width.
    ensures ends { TypedFilesEnd }
{}

/// So are runs of a file that a text spells, once its types are checked.
pub fn checked_files_run()
    ensures runs { CheckedFilesRun }
    ensures ends { CheckedFilesEnd }
{}
