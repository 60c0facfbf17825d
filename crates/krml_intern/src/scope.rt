//! The variables in scope, the newest of a name found by a map.

ghost use Rattle.std.specs.Prelude.{◌≡◌, ◌∷◌, ◌-◌, ◌≤◌, [], OnOk, OnErr, length, drop, take, slice_get, false};
ghost use Rattle.std.specs.Bool.{Decides};
ghost use Rattle.std.specs.Option.{MatchOption};
ghost use Rattle.krml_intern.specs.Scope.{look, cut, are_distinct};

use crate::entry::Entry;
use krml_trace::NoMemory;
use std::alloc::Global;
use std::collections::BTreeMap;
use std::marker::Model;

/// The variables in scope. Contracts see the newest first.
#[derive(Drop)]
pub struct Scope<'a> {
    items: Vec<Entry<'a>>,
    places: BTreeMap<&'a [u8], usize>,
}

impl<'a> Model for Scope<'a> {
    ghost use Rattle.std.specs.Prelude.{List, ℕ, reverse};
    ghost use Rattle.krml_intern.specs.Scope.{shown, IsScope};

    ghost Value = { List (List ℕ × ℕ) };

    ghost view = { λ s. shown (reverse s.items.items) };

    ghost invariant = { λ s. IsScope (reverse s.items.items) s.places };
}

fn entry_at<'a>(items: &[Entry<'a>], k: usize) -> Option<Entry<'a>>
    ensures { result ≡ slice_get items.now k }
{
    items.get(k).copied()
}

/// Whether there is a place, and it is this one or a later one.
fn is_from(place: Option<usize>, first: usize) -> bool
    ensures { MatchOption place (result ≡ false) (λ k. Decides result (first ≤ k)) }
{
    match place {
        Some(k) => first <= k,
        None => false,
    }
}

impl<'a> Scope<'a> {
    /// No variables.
    pub fn new(alloc: Global) -> Scope<'a>
        ensures { result ≡ [] }
    {
        Scope {
            items: Vec::new(alloc),
            places: BTreeMap::new(alloc),
        }
    }

    /// How many there are.
    pub fn len(&self) -> usize
        ensures { result ≡ length self.now }
    {
        self.items.len()
    }

    /// The newest value of a name.
    pub fn look(&self, x: &[u8]) -> Option<usize>
        ensures { result ≡ look self.now x.now }
    {
        let Some(k) = self.places.get(x).copied() else {
            return None;
        };
        let Some(entry) = entry_at(self.items.as_slice(), k) else {
            return None;
        };
        Some(entry.value)
    }

    /// One more variable, the newest. An error is want of memory, and nothing changes.
    pub fn push(&mut self, name: &'a [u8], value: usize) -> Result<(), NoMemory>
        ensures ok { OnOk result (self.new ≡ (name.now, value) ∷ self.old) }
        ensures err { OnErr result (self.new ≡ self.old) }
    {
        let hidden = self.places.get(name).copied();
        let n = self.items.len();
        self.items.push(Entry {
            name,
            value,
            hidden,
        })?;
        match self.places.insert(name, n) {
            Ok(_) => Ok(()),
            Err(_) => {
                self.items.truncate(n);
                Err(NoMemory)
            }
        }
    }

    /// Whether no two variables have one name among those that are newer than the oldest ones, so many.
    pub fn are_distinct(&self, len: usize) -> bool
        ensures { result ≡ are_distinct (take (length self.now - len) self.now) }
    {
        let mut n = self.items.len();
        while n > len {
            n -= 1;
            let Some(entry) = entry_at(self.items.as_slice(), n) else {
                return true;
            };
            if is_from(entry.hidden, len) {
                return false;
            }
        }
        true
    }

    /// Leaves all but the newest.
    fn pop(&mut self)
        ensures { self.new ≡ drop 1 self.old }
    {
        let Some(entry) = self.items.pop() else {
            return;
        };
        match entry.hidden {
            None => {
                let _ = self.places.remove(entry.name);
            }
            Some(k) => {
                let _ = self.places.insert(entry.name, k);
            }
        }
    }

    /// Leaves the oldest variables, so many.
    pub fn cut(&mut self, len: usize)
        ensures { self.new ≡ cut len self.old }
    {
        while self.len() > len {
            self.pop();
        }
    }
}
