//! A type that a definition writes.

ghost use Rattle.std.specs.Prelude.{◌≡◌};
ghost use Rattle.krml_ast.specs.Components.{code_of};

/// A type that a definition writes.
#[derive(Clone, Copy)]
pub enum Component {
    /// Of a field of a struct.
    Field,
    /// Of an argument of a constructor.
    Argument,
    /// Of a parameter of a function.
    Parameter,
    /// Of the result of a function.
    Result,
}

impl Component {
    /// What tells kinds of components apart.
    pub(crate) fn code(self) -> u8
        ensures { result ≡ code_of self }
    {
        match self {
            Component::Field => 0,
            Component::Argument => 1,
            Component::Parameter => 2,
            Component::Result => 3,
        }
    }
}
