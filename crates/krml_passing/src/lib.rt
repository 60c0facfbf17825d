//! Passes from tree to tree: what a pass makes of runs, and that it keeps them.
#![tactic(auto)]

mod laws;

pub use laws::{hoisted_files_run, renamed_files_run, rewritten_files_run};
