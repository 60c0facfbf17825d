//! Trees under other names: one walk, which rebuilds an expression with the names and types that a pass gives.
#![tactic(auto)]

mod copy;
mod definition;
mod expression;
pub mod made;
mod rename;

pub use copy::{ast_clone, clone_each, clone_pat, clone_ty};
pub use definition::{clone_def, clone_file, fun_with};
pub use expression::renamed;
pub use rename::{Applied, Rename};
