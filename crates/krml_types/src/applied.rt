//! A struct, a constructor or a function at type arguments.

use krml_ast::Component;

/// A struct, a constructor or a function at type arguments.
#[derive(Clone, Copy)]
pub struct Applied {
    /// What it takes: components of this kind ...
    pub kind: Component,
    /// ... at the name and the type arguments of this number.
    pub takes: usize,
    /// The number of the type of the whole.
    pub gives: usize,
}
