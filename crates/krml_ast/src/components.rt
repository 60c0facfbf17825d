//! Components of definitions at type arguments, each by the number that was found for it.

ghost use Rattle.std.specs.Prelude.{◌≡◌, ℕ, None, OnOk, OnErr};
ghost use Rattle.krml_ast.specs.declared.component.Component.{Component as Kind};
ghost use Rattle.krml_ast.specs.Components.{found_at, Adds};

use crate::component::Component;
use krml_trace::NoMemory;
use std::alloc::Global;
use std::collections::BTreeMap;
use std::marker::Model;

/// The code of a kind, the number that has the name and the type arguments, and the place among the components of the kind.
type Key = (u8, (usize, usize));

/// Components that were found, by their keys.
#[derive(Drop)]
pub struct Components {
    found: BTreeMap<Key, usize>,
}

impl Model for Components {
    ghost use Rattle.std.specs.Prelude.{List, ℕ};

    ghost Value = { List ((ℕ × (ℕ × ℕ)) × ℕ) };

    ghost view = { λ s. s.found.entries };
}

impl Components {
    /// None.
    pub fn new(alloc: Global) -> Components
        ensures { (kind : Kind) (k j : ℕ) → found_at result kind k j ≡ None }
    {
        Components {
            found: BTreeMap::new(alloc),
        }
    }

    /// What was found of a component of the number of a name at type arguments, by its kind and its place among those of the kind.
    pub fn get(&self, kind: Component, k: usize, j: usize) -> Option<usize>
        ensures { result ≡ found_at self.now kind k j }
    {
        self.found.get(&(kind.code(), (k, j))).copied()
    }

    /// Keeps what was found of a component. An error is want of memory, and nothing changes.
    pub fn put(&mut self, kind: Component, k: usize, j: usize, n: usize) -> Result<(), NoMemory>
        ensures ok { OnOk result (Adds self.old kind k j n self.new) }
        ensures err { OnErr result ((c : Kind) (l i : ℕ) → found_at self.new c l i ≡ found_at self.old c l i) }
    {
        self.found.insert((kind.code(), (k, j)), n)?;
        Ok(())
    }
}
