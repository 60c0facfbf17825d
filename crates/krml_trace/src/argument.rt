//! An argument of a run.

use crate::width::Width;
use sqlite_items::Items as Seq;

/// An argument of a run.
#[derive(Drop)]
pub enum Arg {
    /// A truth value.
    Bool(bool),
    /// A number of a width.
    Num(Width, u64),
    /// A buffer of numbers of one width.
    Buf(Width, Seq<u64>),
}
