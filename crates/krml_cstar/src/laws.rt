//! A law about files that are built, as the contract of a call that does nothing.

ghost use Rattle.krml_cstar.specs.Theorem.{BuiltFilesKeepForms};

/// A file whose definitions are built, with buffers or without, has the forms of a checked file and of one without type variables,
/// each by the one before, and no match. Without buffers its forms are ordinary ones: no pass takes one away or brings it.
pub fn built_files()
    ensures { BuiltFilesKeepForms }
{}
