//! What files of the source language mean: a run of an entry on arguments, under a bound.
#![tactic(auto)]

mod laws;
mod value;

pub use laws::{checked_files_run, typed_files_run};
pub use value::Value;
