//! A source over memory that never fails.

ghost use Rattle.std.specs.Prelude.{◌≡◌, ◌≤◌, ◌++◌, length, min, take, drop, IfOk, IsOk, Some};
ghost use Rattle.krml_trace.specs.Outside.{Reads};

use crate::outside::{Failed, Source};
use crate::unread::Unread;
use std::alloc::{AllocError, Global};
use std::marker::Model;

/// A source over bytes in memory that never fails. Contracts see the bytes that are left.
#[derive(Drop)]
pub struct SureSource {
    unread: Unread,
}

impl Model for SureSource {
    ghost use Rattle.std.specs.Prelude.{List, ℕ};

    ghost Value = { List ℕ };

    ghost view = { λ s. s.unread };
}

impl SureSource {
    /// A source of `bytes`.
    pub fn new(alloc: Global, bytes: &[u8]) -> Result<SureSource, AllocError>
        ensures { IfOk result (λ s. s ≡ bytes.now) }
    {
        let unread = Unread::new(alloc, bytes)?;
        Ok(SureSource { unread })
    }
}

impl Source for SureSource {
    ghost left = { λ s. Some s };

    ghost faults = { λ _. 0 };

    fn read(&mut self, buf: &mut [u8]) -> Result<usize, Failed>
        ensures reads { Reads (Some self.old) (Some self.new) 0 0 buf.old buf.new result }
        ensures ok { IsOk result }
        ensures moved { IfOk result (λ n. (n ≡ min (length buf.old) (length self.old)) × (buf.new ≡ take n self.old ++ drop n buf.old)
            × (self.new ≡ drop n self.old)) }
    {
        let room = buf.len();
        Ok(self.unread.read(buf, room))
    }
}
