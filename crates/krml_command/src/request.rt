//! What a command line asks for.

use krml_trace::Seq;

/// What a command line asks for.
#[derive(Clone, Copy, Debug, PartialEq, Eq)]
pub enum Command {
    /// `c`: write the C text of a source text.
    C,
    /// `check`: say that a source text is accepted.
    Check,
}

/// The values of the options.
#[derive(Drop)]
pub struct Settings {
    /// `--pages`: how many pages a module's memory has, 1 to 1,024.
    pub pages: u32,
    /// `--bound`: how many ticks a run may spend, 0 to 10,000,000.
    pub bound: u64,
    /// `--depth`: how many calls may be open in a run, 1 to 100.
    pub depth: u32,
    /// `--trace`: whether the events of a run are shown.
    pub trace: bool,
    /// `--opt`: the passes that it names, in order, by their places among the stored passes.
    pub passes: Seq<usize>,
}

/// A command with its settings.
#[derive(Drop)]
pub struct Request {
    pub command: Command,
    pub settings: Settings,
}
