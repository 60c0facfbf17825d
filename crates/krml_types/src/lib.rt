//! The types of a source file: which definitions are well typed.
#![tactic(auto)]

mod applied;
mod check;
mod definition;
mod demands;
mod expression;
mod formed;
mod holds;
mod index;
mod instance;
mod judge;
mod names;
mod part;
mod pattern;
mod refusal;
mod typed_file;

pub use check::check_types;
pub use refusal::TypeRefusal;
pub use typed_file::TypedFile;
