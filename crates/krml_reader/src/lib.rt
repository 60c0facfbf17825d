//! Reads the text of a program, its forms as trees, and writes it back.
#![tactic(auto)]

mod definition;
mod expression;
mod keyword;
mod name;
mod pattern;
mod read;
mod refusal;
mod room;
mod types;
mod words;
mod written;

pub use krml_writer::write_file;
pub use read::{one_answer, one_definition, one_file, read_file};
pub use refusal::{ReadRefusal, kind_word};
pub use written::written_is_read;
