//! The names of one kind, each with the place where it was given first.

ghost use Rattle.std.specs.Prelude.{◌≡◌, ℕ, List, [], ◌∷◌, None, OnOk};
ghost use Rattle.krml_ast.specs.Found.{has};
ghost use Rattle.krml_ast.specs.Places.{is_among, cons_of, place_or};

use krml_syntax::Con;
use krml_trace::NoMemory;
use std::alloc::Global;
use std::collections::BTreeMap;

/// The names that were given so far, each with the place where it was given first.
#[derive(Drop)]
pub struct FirstPlaces<'a> {
    places: BTreeMap<&'a [u8], usize>,
}

impl<'a> FirstPlaces<'a> {
    /// No names.
    pub fn new(alloc: Global) -> FirstPlaces<'a>
        ensures { (x : List ℕ) → has result x ≡ None }
    {
        FirstPlaces {
            places: BTreeMap::new(alloc),
        }
    }

    /// The place of a name.
    pub fn get(&self, x: &[u8]) -> Option<usize>
        ensures { result ≡ has self.now x.now }
    {
        self.places.get(x).copied()
    }

    /// Adds a name that is given at a place. The place of one that was given before stays.
    pub fn add(&mut self, name: &'a [u8], place: usize) -> Result<(), NoMemory>
        ensures { OnOk result ((x : List ℕ) → has self.new x ≡ place_or (has self.old x) (is_among (name.now ∷ []) x) place) }
    {
        if self.places.get(name).is_none() {
            self.places.insert(name, place)?;
        }
        Ok(())
    }

    /// Adds the names of constructors that are given at a place.
    pub fn add_cons(&mut self, cons: &'a [Con], place: usize) -> Result<(), NoMemory>
        ensures { OnOk result ((x : List ℕ) → has self.new x ≡ place_or (has self.old x) (is_among (cons_of cons.now) x) place) }
    {
        for con in cons {
            self.add(con.name.as_bytes(), place)?;
        }
        Ok(())
    }
}
