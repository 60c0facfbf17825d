//! Where bytes come from and go to.

ghost use Rattle.std.specs.Prelude.{List, ℕ, Option, ◌≤◌, OnErr, OnOk, ◌≡◌};
ghost use Rattle.krml_trace.specs.Outside.{Reads, Writes};

/// A read or a write that the outside refused.
#[derive(Clone, Copy, Debug, PartialEq, Eq)]
pub struct Failed;

/// Why nothing was written.
#[derive(Clone, Copy, Debug, PartialEq, Eq)]
pub enum SinkFault {
    Failed,
    NoMemory,
}

/// Where bytes come from.
pub trait Source {
    // The bytes that are left, where they are known.
    ghost left: { Self → Option (List ℕ) };

    // How many reads failed, up to the last value of a u64.
    ghost faults: { Self → ℕ };

    /// Moves the first bytes of what is left into the front of `buf`, and says how many. 0 of a buffer
    /// that is not empty is the end of input. After `Failed`, nothing was moved.
    fn read(&mut self, buf: &mut [u8]) -> Result<usize, Failed>
        ensures { Reads (left self.old) (left self.new) (faults self.old) (faults self.new) buf.old buf.new result };
}

/// Where bytes go to.
pub trait Sink {
    // The bytes that were written, where they are known.
    ghost written: { Self → Option (List ℕ) };

    // How many writes failed, up to the last value of a u64.
    ghost faults: { Self → ℕ };

    /// Appends the first bytes of `piece`, and says how many: at least one where there are any. After
    /// an error, nothing was appended.
    fn write(&mut self, piece: &[u8]) -> Result<usize, SinkFault>
        ensures { Writes (written self.old) (written self.new) (faults self.old) (faults self.new) piece.now result };
}
