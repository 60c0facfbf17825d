//! The kinds of limits.

/// What a limit bounds, in the order in which limits are answered.
#[derive(Clone, Copy, Debug, PartialEq, Eq)]
pub enum LimitKind {
    /// The definitions of a file: 2,000.
    Definitions,
    /// The bytes of a name, without the quote of a type variable: 64.
    Name,
    /// The forms of a function's definition, itself among them: 8,000.
    Forms,
    /// The type variables of a definition: 8.
    Variables,
    /// The parameters of a function: 32.
    Parameters,
    /// The fields of a struct: 24.
    Fields,
    /// The constructors of a sum: 256.
    Constructors,
    /// The numbers of a table, and the elements of an `alloc`: 65,536.
    Elements,
}
