//! Bytes whose front was read.

ghost use Rattle.std.specs.Prelude.{◌≡◌, ◌++◌, length, min, take, drop, IfOk};

use sqlite_items::Items as Seq;
use std::alloc::{AllocError, Global};
use std::marker::Model;

/// Bytes whose front was read. Contracts see those that are left.
#[derive(Drop)]
pub struct Unread {
    bytes: Seq<u8>,
    at: usize,
}

impl Model for Unread {
    ghost use Rattle.std.specs.Prelude.{List, ℕ, ◌≤◌, drop, length};

    ghost Value = { List ℕ };

    ghost view = { λ u. drop u.at u.bytes };

    ghost invariant = { λ u. u.at ≤ length u.bytes };
}

impl Unread {
    pub fn new(alloc: Global, bytes: &[u8]) -> Result<Unread, AllocError>
        ensures { IfOk result (λ u. u ≡ bytes.now) }
    {
        let bytes = Seq::from_slice(alloc, bytes)?;
        Ok(Unread { bytes, at: 0 })
    }

    /// Moves bytes into the front of `buf`, as many as there are and as fit, but `most` at the most. Says how many.
    pub fn read(&mut self, buf: &mut [u8], most: usize) -> usize
        ensures count { result ≡ min most (min (length buf.old) (length self.old)) }
        ensures moved { buf.new ≡ take result self.old ++ drop result buf.old }
        ensures left { self.new ≡ drop result self.old }
    {
        let left = &self.bytes.as_slice()[self.at..];
        let n = most.min(buf.len().min(left.len()));
        buf[..n].copy_from_slice(&left[..n]);
        self.at += n;
        n
    }
}
