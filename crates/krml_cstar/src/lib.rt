//! The program in C that a bundled file becomes.
#![tactic(auto)]

mod emitter;
mod given;
mod laws;
mod locals;
mod names;
mod numbers;
mod program;
mod statements;
mod terms;
mod types;

pub use laws::built_files;
pub use program::to_cstar;
