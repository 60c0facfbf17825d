//! Names by number, each once.

ghost use Rattle.std.specs.Prelude.{◌≡◌, [], IfOk, OnErr, slice_get, option_map};
ghost use Rattle.krml_intern.specs.Puts.{Puts};

use krml_trace::{Name, NoMemory};
use std::alloc::Global;
use std::collections::BTreeMap;
use std::marker::Model;

/// Names by number, each once. Contracts see the list of them.
#[derive(Drop)]
pub struct NameTable<'a> {
    items: Vec<&'a Name>,
    places: BTreeMap<&'a [u8], usize>,
}

impl<'a> Model for NameTable<'a> {
    ghost use Rattle.std.specs.Prelude.{List, ℕ, map};
    ghost use Rattle.krml_intern.specs.Exact.{IsExact};
    ghost use Rattle.krml_intern.specs.Scope.{has};

    ghost Value = { List (List ℕ) };

    ghost view = { λ s. map (λ x. x.now) s.items.items };

    ghost invariant = { λ s. IsExact (map (λ x. x.now) s.items.items) (has s.places) };
}

impl<'a> NameTable<'a> {
    /// No names.
    pub fn new(alloc: Global) -> NameTable<'a>
        ensures { result ≡ [] }
    {
        NameTable {
            items: Vec::new(alloc),
            places: BTreeMap::new(alloc),
        }
    }

    /// The name of a number.
    pub fn get(&self, n: usize) -> Option<&'a Name>
        ensures { option_map (λ x. x.now) result ≡ slice_get self.now n }
    {
        self.items.get(n).copied()
    }

    /// The number of a name, which is added where it is not there. An error is want of memory, and nothing changes.
    pub fn put(&mut self, x: &'a Name) -> Result<usize, NoMemory>
        ensures ok { IfOk result (λ n. Puts self.old x.now n self.new) }
        ensures err { OnErr result (self.new ≡ self.old) }
    {
        if let Some(n) = self.places.get(x.as_bytes()).copied() {
            return Ok(n);
        }
        let n = self.items.len();
        self.items.push(x)?;
        match self.places.insert(x.as_bytes(), n) {
            Ok(_) => Ok(n),
            Err(_) => {
                self.items.truncate(n);
                Err(NoMemory)
            }
        }
    }
}
