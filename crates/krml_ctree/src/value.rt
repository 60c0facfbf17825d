//! Values of C.

use krml_trace::{Name, Seq, Width};

/// A value.
#[derive(Drop)]
pub enum CValue {
    /// A number, which fits its width.
    Num(Width, u64),
    /// A struct: its name, and the values of its fields.
    Struct(Name, Seq<CValue>),
    /// A pointer: the number of a block, and a position in it.
    Ptr(u64, u32),
}
