//! The bound of a run: ticks and levels.

/// How far a run may go: how many ticks it may spend, and how many calls may be open inside it.
#[derive(Clone, Copy, Debug, PartialEq, Eq)]
pub struct Bound {
    pub ticks: u64,
    pub depth: u32,
}
