//! What a run of the source leaves as events.

use krml_syntax::{Slot, Ty};
use krml_trace::Seq;

/// What a run of the source leaves as events. Blocks are numbered from 0, and positions are positions in a block.
#[derive(Drop)]
pub enum SourceEvent {
    /// The block of an argument, the type and the number of its elements, at the start of a run.
    Arg(u32, Ty, u32),
    /// The condition of an `if`.
    If(bool),
    /// The test of a loop.
    Turn(bool),
    /// The branch of a `match` that was taken, from 0.
    Pick(u32),
    /// A block, a position.
    Read(u64, u32),
    /// A block, a position.
    Write(u64, u32),
    /// The number of a table's definition, an index.
    Tab(u32, u32),
    /// A frame with these slots is entered.
    Push(Seq<Slot>),
    /// A block, its slot.
    Alloc(u64, u32),
    /// A block, a position that is filled.
    Fill(u64, u32),
    /// A block whose filling is over.
    Filled(u64),
    /// The innermost frame is left.
    Pop,
}
