//! Files under the names that C has: a prefix for each kind of name, and the number of an instance in front of its name.
#![tactic(auto)]

mod definitions;
mod expressions;
mod new_names;
mod pass;
mod patterns;
mod types;

pub use pass::bundle;
