//! Values of the source.

use krml_trace::{Name, Seq, Width};

/// A value of the source.
#[derive(Drop)]
pub enum Value {
    /// What an expression gives that gives nothing.
    Unit,
    Bool(bool),
    /// A number, which fits its width.
    Num(Width, u64),
    /// A struct: the names of its fields, and their values.
    Struct(Seq<Name>, Seq<Value>),
    /// A constructor, by its place in its sum, and its arguments.
    Con(u32, Seq<Value>),
    /// A part of a block: the block's number, where the part begins, how long it is.
    Buf(u64, u32, u32),
}
