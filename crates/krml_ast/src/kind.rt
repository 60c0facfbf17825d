//! The kinds of names that definitions give.

/// The kinds of names that definitions give, each by itself.
#[derive(Clone, Copy, Debug, PartialEq, Eq)]
pub enum NameKind {
    /// Structs and sums.
    Type,
    /// Constructors of sums.
    Con,
    Table,
    Fun,
    Entry,
}
