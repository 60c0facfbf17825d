//! The arguments of a run.

ghost use Rattle.std.specs.Prelude.{IsTrue};
ghost use Rattle.std.specs.List.{list_all};
ghost use Rattle.krml_trace.specs.Argument.{fits};

use crate::argument::Arg;
use sqlite_items::Items as Seq;

/// The arguments of a run, in order. Every number fits its width.
#[derive(Drop)]
pub struct Arguments {
    pub items: Seq<Arg>,
    ghost fit: { IsTrue (list_all fits items) },
}
