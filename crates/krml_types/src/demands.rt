//! Demands that a rule makes.

ghost use Rattle.krml_trace.specs.Gives.{Gives};
ghost use Rattle.krml_types.specs.Parts.{demand};

use krml_trace::Missing;

/// Nothing is given, unless a test holds.
pub fn demand(holds: bool) -> Result<(), Missing>
    ensures { Gives result (demand holds) }
{
    if holds { Ok(()) } else { Err(Missing::Absent) }
}
