//! Laws about passes, as contracts of calls that do nothing.

ghost use Rattle.krml_passing.specs.Laws.{HoistedFilesAreHoisted, HoistedFilesFit, HoistedFilesHaveNoAlloc, HoistedFilesRun, RenamedFilesFit, RenamedFilesRun, RewrittenFilesRun};

/// A file under new names that tell names apart runs as the file does, and takes the same arguments.
pub fn renamed_files_run()
    ensures runs { RenamedFilesRun }
    ensures fits { RenamedFilesFit }
{}

/// A file in whose bodies layers are replaced by what means the same runs as before.
pub fn rewritten_files_run()
    ensures runs { RewrittenFilesRun }
{}

/// A file whose frames list the slots of the `alloc` forms inside them runs as before, and takes the same arguments.
/// No `alloc` form is left in it, and a plain file becomes a hoisted one.
pub fn hoisted_files_run()
    ensures runs { HoistedFilesRun }
    ensures fits { HoistedFilesFit }
    ensures no_alloc { HoistedFilesHaveNoAlloc }
    ensures form { HoistedFilesAreHoisted }
{}
