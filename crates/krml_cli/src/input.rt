//! Reading the input of a command.

ghost use Rattle.std.specs.Prelude.{◌≡◌, ◌<◌, ◌^◌};
ghost use Rattle.krml_cli.specs.Ends.{TakesInput, limit_of};

use crate::stop::Stop;
use krml_command::Command;
use krml_trace::{MAX_TEXT, Source};
use std::alloc::{AllocError, Global};

/// The bytes that a read asks for at the most.
const PIECE: usize = 4096;

/// The bytes of a command's input at the most.
fn limit_of(command: Command) -> usize
    ensures value { result ≡ limit_of command }
    ensures small { result < 2 ^ 32 }
{
    match command {
        Command::C | Command::Check => MAX_TEXT,
    }
}

/// Reads to the end of a command's input, or to one byte past its limit.
pub fn read_input<S: Source>(
    alloc: Global,
    command: Command,
    source: &mut S,
) -> Result<Vec<u8>, Stop>
    ensures { TakesInput command (S.left source.old) (S.left source.new) (S.faults source.old) (S.faults source.new) result }
{
    let limit = limit_of(command);
    let mut input = Vec::new(alloc);
    let mut piece = [0u8; PIECE];
    while input.len() <= limit {
        let room = PIECE.min(limit + 1 - input.len());
        let n = match source.read(&mut piece[..room]) {
            Ok(n) => n,
            Err(_) => return Err(Stop::ReadFault),
        };
        if n == 0 {
            return Ok(input);
        }
        match input.extend_from_slice(&piece[..n]) {
            Ok(()) => {}
            Err(AllocError) => return Err(Stop::NoMemory),
        }
    }
    Ok(input)
}
