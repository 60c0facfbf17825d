//! A limit that is exceeded, and the count.

use krml_syntax::LimitKind;

/// A limit that a file exceeds: what it bounds, and how much of that there is.
#[derive(Clone, Copy, Debug, PartialEq, Eq)]
pub struct Excess {
    pub which: LimitKind,
    pub count: u64,
}
