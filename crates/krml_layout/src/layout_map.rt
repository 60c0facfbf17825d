//! The layouts of structs and sums, found by their names.

ghost use Rattle.std.specs.Prelude.{◌≡◌, ℕ, List, None, Some, OnOk};
ghost use Rattle.std.specs.Map.{update};
ghost use Rattle.std.specs.Str.{bytes_eq};
ghost use Rattle.krml_layout.specs.Found.{has};

use crate::layout::TypeLayout;
use krml_trace::NoMemory;
use std::alloc::Global;
use std::collections::BTreeMap;

/// The layouts of structs and sums, by their names.
#[derive(Drop)]
pub struct LayoutMap<'a> {
    layouts: BTreeMap<&'a [u8], TypeLayout>,
}

impl<'a> LayoutMap<'a> {
    /// No names.
    pub fn new(alloc: Global) -> LayoutMap<'a>
        ensures { (x : List ℕ) → has result x ≡ None }
    {
        LayoutMap {
            layouts: BTreeMap::new(alloc),
        }
    }

    /// The layout of the struct or sum of a name.
    pub fn get(&self, x: &[u8]) -> Option<TypeLayout>
        ensures { result ≡ has self.now x.now }
    {
        self.layouts.get(x).copied()
    }

    /// Adds the layout of a name.
    pub fn add(&mut self, name: &'a [u8], layout: TypeLayout) -> Result<(), NoMemory>
        ensures { OnOk result ((x : List ℕ) → has self.new x ≡ update bytes_eq (has self.old) name.now (Some layout) x) }
    {
        self.layouts.insert(name, layout)?;
        Ok(())
    }
}
