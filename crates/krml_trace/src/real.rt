//! The source and the sink at the system's readers and writers.

ghost use Rattle.std.specs.Prelude.{◌≡◌, None, IfOk, IfErr, ◌≤◌, length};
ghost use Rattle.krml_trace.specs.Outside.{Writes};

use crate::outside::{Failed, Sink, SinkFault, Source};
use std::io::{Read, Write};

/// A source over a reader of the system, which tells no content.
#[derive(Drop)]
pub struct RealSource<R: Read + Drop> {
    inner: R,
    faults: u64,
}

impl<R: Read + Drop> RealSource<R> {
    /// A source over this reader, with no fault counted yet.
    pub fn new(inner: R) -> RealSource<R>
        ensures { result.faults ≡ 0 }
    {
        RealSource { inner, faults: 0 }
    }
}

impl<R: Read + Drop> Source for RealSource<R> {
    ghost left = { λ _. None };

    ghost faults = { λ s. s.faults };

    fn read(&mut self, buf: &mut [u8]) -> Result<usize, Failed> {
        match self.inner.read(buf) {
            Ok(n) => Ok(n),
            Err(_) => {
                self.faults = self.faults.saturating_add(1);
                Err(Failed)
            }
        }
    }
}

/// A sink over a writer of the system, which tells no content. A writer that takes nothing of a piece that is not
/// empty is at fault.
#[derive(Drop)]
pub struct RealSink<W: Write + Drop> {
    inner: W,
    faults: u64,
}

impl<W: Write + Drop> RealSink<W> {
    /// A sink over this writer, with no fault counted yet.
    pub fn new(inner: W) -> RealSink<W>
        ensures { result.faults ≡ 0 }
    {
        RealSink { inner, faults: 0 }
    }
}

impl<W: Write + Drop> Sink for RealSink<W> {
    ghost written = { λ _. None };

    ghost faults = { λ s. s.faults };

    fn write(&mut self, piece: &[u8]) -> Result<usize, SinkFault>
        ensures writes { Writes None None self.old.faults self.new.faults piece.now result }
        // A writer that lacks memory is at fault too.
        ensures never { IfErr result (λ fault. fault ≡ SinkFault.Failed) }
    {
        match self.inner.write(piece) {
            Ok(n) if n > 0 || piece.is_empty() => Ok(n),
            _ => {
                self.faults = self.faults.saturating_add(1);
                Err(SinkFault::Failed)
            }
        }
    }
}
