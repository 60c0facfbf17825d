//! The limits of a file: the first one that it exceeds.
#![tactic(auto)]

mod elements;
mod excess;
mod first;
mod law;
mod limit;
mod words;

pub use excess::Excess;
pub use first::first_excess;
pub use law::none_exceeded;
pub use limit::limit_of;
