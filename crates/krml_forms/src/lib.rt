//! A text as forms: read exactly, with the place of the first fault, and written back.
#![tactic(auto)]

mod byte;
mod comments;
mod count;
mod cutter;
mod fault;
mod form;
mod laws;
mod nest;
mod read;
mod write;

pub use count::form_count;
pub use form::Form;
pub use laws::{forms_have_no_fault, one_reading, read_forms_are_writable, written_forms_are_read};
pub use read::{Reading, read_forms};
pub use write::write_forms;
