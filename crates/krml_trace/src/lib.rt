//! The words that every part of krml uses: widths, lists, names, bounds, arguments, outcomes, and the outside.
#![tactic(auto)]

mod argument;
mod arguments;
mod bound;
mod counts;
mod limits;
mod memory_sink;
mod memory_source;
mod missing;
mod name;
mod outcome;
mod outside;
mod real;
mod results;
mod sure_sink;
mod sure_source;
mod unread;
mod why;
mod width;

pub use argument::Arg;
pub use arguments::Arguments;
pub use bound::Bound;
pub use counts::{count, one_more};
pub use limits::{MAX_ELEMENTS, MAX_LEVELS, MAX_TEXT};
pub use memory_sink::MemSink;
pub use memory_source::MemSource;
pub use missing::Missing;
pub use name::Name;
pub use outcome::{Cause, Outcome};
pub use outside::{Failed, Sink, SinkFault, Source};
pub use real::{RealSink, RealSource};
pub use results::both;
pub use sqlite_items::{Boxed as Box, Items as Seq};
pub use std::alloc::AllocError as NoMemory;
pub use sure_sink::SureSink;
pub use sure_source::SureSource;
pub use why::Why;
pub use width::Width;
