//! Types by number, and scopes by map.
#![tactic(auto)]

mod entry;
mod erased;
mod labelling;
mod name_table;
mod node;
mod nodes;
mod scope;
mod tree_of;
mod type_table;
mod written;

pub use scope::Scope;
pub use type_table::TypeTable;
