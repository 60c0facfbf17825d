//! A source over memory that fails where it is told to.

ghost use Rattle.std.specs.Prelude.{◌≡◌, ◌≤◌, ◌↔◌, ◌++◌, [], length, take, drop, IsErr, IfOk, OnErr, Contains, Some};
ghost use Rattle.krml_trace.specs.Outside.{Reads, counted};
ghost use Rattle.krml_trace.specs.MemoryEnds.{given};

use crate::outside::{Failed, Source};
use crate::unread::Unread;
use sqlite_items::Items as Seq;
use std::alloc::{AllocError, Global};
use std::marker::Model;

/// A source over bytes in memory, whose reads give so many bytes at the most, and which fails where it is told to.
#[derive(Drop)]
pub struct MemSource {
    unread: Unread,
    fails: Seq<u64>,
    chunk: usize,
    calls: u64,
    faults: u64,
}

impl Model for MemSource {
    ghost use Rattle.std.specs.Prelude.{◌≤◌};
    ghost use Rattle.krml_trace.specs.MemoryEnds.{Reading};

    ghost Value = { Reading };

    ghost view = { λ s. record { left = s.unread; fails = s.fails; chunk = s.chunk; calls = s.calls; faults = s.faults } };

    ghost invariant = { λ s. 1 ≤ s.chunk };
}

impl MemSource {
    /// A source of `bytes`, which gives at most `chunk` of them in a read. The reads whose numbers, from 0, are in
    /// `fails` fail.
    pub fn new(
        alloc: Global,
        bytes: &[u8],
        fails: &[u64],
        chunk: usize,
    ) -> Result<MemSource, AllocError>
        requires { 1 ≤ chunk }
        ensures { IfOk result (λ s. s ≡ record { left = bytes.now; fails = fails.now; chunk = chunk; calls = 0; faults = 0 }) }
    {
        Ok(MemSource {
            unread: Unread::new(alloc, bytes)?,
            fails: Seq::from_slice(alloc, fails)?,
            chunk,
            calls: 0,
            faults: 0,
        })
    }
}

impl Source for MemSource {
    ghost left = { λ s. Some s.left };

    ghost faults = { λ s. s.faults };

    fn read(&mut self, buf: &mut [u8]) -> Result<usize, Failed>
        ensures reads { Reads (Some self.old.left) (Some self.new.left) self.old.faults self.new.faults buf.old buf.new result }
        ensures fails { IsErr result ↔ Contains self.old.fails self.old.calls }
        ensures ok { IfOk result (λ n. (n ≡ given self.old buf.old) × (buf.new ≡ take n self.old.left ++ drop n buf.old)
            × (self.new ≡ record self.old { left = drop n self.old.left; calls = counted self.old.calls })) }
        ensures err { OnErr result ((buf.new ≡ buf.old)
            × (self.new ≡ record self.old { calls = counted self.old.calls; faults = counted self.old.faults })) }
    {
        let call = self.calls;
        self.calls = call.saturating_add(1);
        if self.fails.as_slice().contains(&call) {
            self.faults = self.faults.saturating_add(1);
            return Err(Failed);
        }
        Ok(self.unread.read(buf, self.chunk))
    }
}
