//! The names that definitions gave so far, kind by kind.

ghost use Rattle.std.specs.Prelude.{◌≡◌, ℕ, List, None, OnOk};
ghost use Rattle.krml_ast.specs.declared.kind.NameKind.{NameKind as Kind};
ghost use Rattle.krml_ast.specs.Found.{has_of};
ghost use Rattle.krml_ast.specs.Places.{is_among, names_in, place_or};

use crate::first_places::FirstPlaces;
use crate::kind::NameKind;
use krml_syntax::Def;
use krml_trace::NoMemory;
use std::alloc::Global;

/// The names that definitions gave so far, kind by kind.
#[derive(Drop)]
pub struct Places<'a> {
    types: FirstPlaces<'a>,
    cons: FirstPlaces<'a>,
    tables: FirstPlaces<'a>,
    funs: FirstPlaces<'a>,
    entries: FirstPlaces<'a>,
}

impl<'a> Places<'a> {
    /// No names.
    pub fn new(alloc: Global) -> Places<'a>
        ensures { (kind : Kind) (x : List ℕ) → has_of kind result x ≡ None }
    {
        Places {
            types: FirstPlaces::new(alloc),
            cons: FirstPlaces::new(alloc),
            tables: FirstPlaces::new(alloc),
            funs: FirstPlaces::new(alloc),
            entries: FirstPlaces::new(alloc),
        }
    }

    /// The place of a name of a kind.
    pub fn get(&self, kind: NameKind, x: &[u8]) -> Option<usize>
        ensures { result ≡ has_of kind self.now x.now }
    {
        match kind {
            NameKind::Type => self.types.get(x),
            NameKind::Con => self.cons.get(x),
            NameKind::Table => self.tables.get(x),
            NameKind::Fun => self.funs.get(x),
            NameKind::Entry => self.entries.get(x),
        }
    }

    /// Adds the names that the definition at a place gives.
    pub fn add(&mut self, def: &'a Def, place: usize) -> Result<(), NoMemory>
        ensures { OnOk result ((kind : Kind) (x : List ℕ) → has_of kind self.new x ≡ place_or (has_of kind self.old x) (is_among (names_in kind def.now) x) place) }
    {
        match def {
            Def::Struct { name, .. } => self.types.add(name.as_bytes(), place),
            Def::Sum { name, cons, .. } => {
                self.types.add(name.as_bytes(), place)?;
                self.cons.add_cons(cons.as_slice(), place)
            }
            Def::Table { name, .. } => self.tables.add(name.as_bytes(), place),
            Def::Fun { name, .. } => self.funs.add(name.as_bytes(), place),
            Def::Entry { name } => self.entries.add(name.as_bytes(), place),
        }
    }
}
