//! Reads the words of a command line: a command with its options.
#![tactic(auto)]

mod line;
mod numbers;
mod refusal;
mod request;
mod words;

pub use refusal::WordsRefusal;
pub use request::{Command, Request, Settings};
pub use words::read_words;
