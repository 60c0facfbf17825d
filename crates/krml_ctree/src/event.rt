//! What a run of C leaves as events.

use crate::tree::CType;
use krml_trace::Seq;

/// The type of an array's elements, and how many there are.
#[derive(Drop)]
pub struct CSlot {
    pub ty: CType,
    pub len: u32,
}

/// What a run of C leaves as events. Blocks are numbered from 0, and positions are positions in a block.
#[derive(Drop)]
pub enum CEvent {
    /// The block of an argument, the type and the number of its elements, at the start of a run.
    Arg(u32, CType, u32),
    /// A block with these arrays is entered.
    Enter(Seq<CSlot>),
    /// The innermost block with arrays is left.
    Leave,
    /// A test that was made.
    Br(bool),
    /// A block, a position that is read.
    Rd(u64, u32),
    /// A block, a position that is written.
    Wr(u64, u32),
    /// The place of a table, an index.
    Tab(u32, u32),
}
