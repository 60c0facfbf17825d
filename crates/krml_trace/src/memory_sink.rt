//! A sink over memory that fails where it is told to.

ghost use Rattle.std.specs.Prelude.{◌≡◌, ◌≤◌, ◌↔◌, ◌++◌, [], take, IsErrOf, IfOk, Contains, Some};
ghost use Rattle.krml_trace.specs.Outside.{Writes, counted};
ghost use Rattle.krml_trace.specs.MemoryEnds.{taken};

use crate::outside::{Sink, SinkFault};
use sqlite_items::Items as Seq;
use std::alloc::{AllocError, Global};
use std::marker::Model;

/// A sink over memory, whose writes take so many bytes at the most, and which fails where it is told to.
#[derive(Drop)]
pub struct MemSink {
    bytes: Vec<u8>,
    fails: Seq<u64>,
    chunk: usize,
    calls: u64,
    faults: u64,
}

impl Model for MemSink {
    ghost use Rattle.std.specs.Prelude.{◌≤◌};
    ghost use Rattle.krml_trace.specs.MemoryEnds.{Writing};

    ghost Value = { Writing };

    ghost view = { λ s. record { written = s.bytes.items; fails = s.fails; chunk = s.chunk; calls = s.calls; faults = s.faults } };

    ghost invariant = { λ s. 1 ≤ s.chunk };
}

impl MemSink {
    /// An empty sink, which takes at most `chunk` bytes in a write. The writes whose numbers, from 0, are in `fails` fail.
    pub fn new(alloc: Global, fails: &[u64], chunk: usize) -> Result<MemSink, AllocError>
        requires { 1 ≤ chunk }
        ensures { IfOk result (λ s. s ≡ record { written = []; fails = fails.now; chunk = chunk; calls = 0; faults = 0 }) }
    {
        Ok(MemSink {
            bytes: Vec::new(alloc),
            fails: Seq::from_slice(alloc, fails)?,
            chunk,
            calls: 0,
            faults: 0,
        })
    }

    /// What was written.
    pub fn bytes(&self) -> &[u8]
        ensures { result.now ≡ self.now.written }
    {
        self.bytes.as_slice()
    }
}

impl Sink for MemSink {
    ghost written = { λ s. Some s.written };

    ghost faults = { λ s. s.faults };

    fn write(&mut self, piece: &[u8]) -> Result<usize, SinkFault>
        ensures writes { Writes (Some self.old.written) (Some self.new.written) self.old.faults self.new.faults piece.now result }
        ensures fails { IsErrOf result SinkFault.Failed ↔ Contains self.old.fails self.old.calls }
        ensures ok { IfOk result (λ n. (n ≡ taken self.old piece.now)
            × (self.new ≡ record self.old { written = self.old.written ++ take n piece.now; calls = counted self.old.calls })) }
        ensures failed { IsErrOf result SinkFault.Failed
            → self.new ≡ record self.old { calls = counted self.old.calls; faults = counted self.old.faults } }
        ensures no_memory { IsErrOf result SinkFault.NoMemory → self.new ≡ record self.old { calls = counted self.old.calls } }
    {
        let call = self.calls;
        self.calls = call.saturating_add(1);
        if self.fails.as_slice().contains(&call) {
            self.faults = self.faults.saturating_add(1);
            return Err(SinkFault::Failed);
        }
        let n = self.chunk.min(piece.len());
        match self.bytes.extend_from_slice(&piece[..n]) {
            Ok(()) => Ok(n),
            Err(AllocError) => Err(SinkFault::NoMemory),
        }
    }
}
