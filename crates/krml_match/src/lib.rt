//! Matches become cases. A file without matches stays as it is, if no type of it has more leaves than it may have.
#![tactic(auto)]

mod leaves;
mod pass;
mod refusal;
mod wide;

pub use pass::compile_matches;
pub use refusal::MatchRefusal;
