//! What a run of C comes to.

use crate::event::CEvent;
use krml_trace::{Outcome, Seq};

/// What a run of C comes to: its outcome, and its events, the oldest first.
#[derive(Drop)]
pub struct CRun {
    pub outcome: Outcome,
    pub events: Seq<CEvent>,
}
