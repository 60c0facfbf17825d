//! The text of a program in C, from its tree.
#![tactic(auto)]

mod expression;
mod function;
mod layout;
mod program;
mod simple;
mod statement;
mod types;
mod words;

pub use program::print_c;
