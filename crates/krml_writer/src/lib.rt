//! The text of a file: a form for each definition, each on a line of its own.
#![tactic(auto)]

mod definition;
mod expression;
mod laws;
mod part;
mod types;
mod write;

pub use laws::written_again;
pub use write::write_file;
