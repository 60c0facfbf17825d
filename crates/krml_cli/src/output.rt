//! What a command writes, and writing it.

ghost use Rattle.std.specs.Prelude.{◌≡◌};
ghost use Rattle.krml_cli.specs.Ends.{WritesAll};

use krml_trace::{Sink, SinkFault};

/// What a command writes, and the status that it ends with once that is written.
#[derive(Drop)]
pub struct Output {
    pub text: Vec<u8>,
    pub status: u8,
}

/// Writes a piece until none of it is left, or up to a fault.
pub fn write_all<K: Sink>(sink: &mut K, piece: &[u8]) -> Result<(), SinkFault>
    ensures { WritesAll (K.written sink.old) (K.written sink.new) (K.faults sink.old) (K.faults sink.new) piece.now result }
{
    let mut rest = piece;
    while !rest.is_empty() {
        let n = sink.write(rest)?;
        rest = &rest[n..];
    }
    Ok(())
}
