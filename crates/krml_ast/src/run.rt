//! What a run of the source comes to.

use crate::event::SourceEvent;
use krml_trace::{Outcome, Seq};

/// What a run of the source comes to: its outcome, and its events, the oldest first.
#[derive(Drop)]
pub struct SourceRun {
    pub outcome: Outcome,
    pub events: Seq<SourceEvent>,
}
