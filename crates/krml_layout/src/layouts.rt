//! The layouts of a file's types.

ghost use Rattle.std.specs.Prelude.{◌≡◌, ◌≤◌, ◌<◌, ◌^◌, ℕ, List, Some, None, IfOk, OnOk};
ghost use Rattle.std.specs.Option.{SomeIff};
ghost use Rattle.krml_ast.specs.Leaves.{composite_of};
ghost use Rattle.krml_layout.specs.Layout.{layout_of, type_layout, slot_bytes, frame_bytes};
ghost use Rattle.krml_layout.specs.Bounds.{max_bytes};
ghost use Rattle.krml_layout.specs.Ordered.{AreInOrder, AreSmall};
ghost use Rattle.krml_layout.specs.Found.{has, named_layout, map_layout, put_def, AreAligned};

use crate::known::{Known, def_layout, type_layout};
use crate::layout::TypeLayout;
use crate::layout_map::LayoutMap;
use krml_ast::PlainFile;
use krml_syntax::{Def, Slot, Ty};
use krml_trace::NoMemory;
use std::alloc::Global;
use std::marker::Model;

/// How the types of a file lie in memory. The layout of each struct and sum is computed once.
#[derive(Drop)]
pub struct Layouts<'a> {
    defs: &'a [Def],
    layouts: LayoutMap<'a>,
    ghost exact: { (x : List ℕ) → has layouts x ≡ named_layout defs.now x },
    ghost small: { AreSmall defs.now },
}

impl<'a> Model for Layouts<'a> {
    ghost use Rattle.std.specs.Prelude.{List};
    ghost use Rattle.std.specs.Coded.{codes};
    ghost use Rattle.krml_syntax.specs.declared.tree.Def.{Def};
    ghost use Rattle.krml_syntax.specs.contracts.tree.Ty as ty;
    ghost use Rattle.krml_syntax.specs.contracts.tree.Expr as expr;

    ghost Value = { List Def };

    ghost coded = { Prim.hlevel (codes, ty.the_row.coded, expr.the_row.coded) };

    ghost view = { λ s. s.defs.now };
}

impl<'a> Layouts<'a> {
    /// The layouts of the types of a file.
    pub fn new(alloc: Global, file: &'a PlainFile) -> Result<Layouts<'a>, NoMemory>
        ensures { IfOk result (λ r. r ≡ file.now.defs) }
    {
        let defs = file.file().defs.as_slice();
        let layouts = layouts_of(alloc, defs)?;
        Ok(Layouts { defs, layouts })
    }

    /// The layout of a type. One that the file does not have takes no room.
    pub fn type_layout(&self, a: &Ty) -> TypeLayout
        ensures value { result ≡ type_layout self.now a.now }
        ensures small { result.size ≤ max_bytes }
    {
        type_layout(&Known::Map(&self.layouts), a)
    }

    /// The bytes that a slot takes.
    pub fn slot_bytes(&self, slot: &Slot) -> u64
        ensures { result ≡ slot_bytes self.now slot.now }
    {
        self.type_layout(&slot.ty).slot_bytes(slot.len)
    }

    /// The bytes that the slots of a frame take. `None` where they are 2 to the power 64 or more.
    pub fn frame_bytes(&self, slots: &[Slot]) -> Option<u64>
        ensures { SomeIff result (frame_bytes self.now slots.now < 2 ^ 64) (frame_bytes self.now slots.now) }
    {
        let mut bytes: u64 = 0;
        for slot in slots {
            bytes = bytes.checked_add(self.slot_bytes(slot))?;
        }
        Some(bytes)
    }
}

/// The layouts of the structs and sums that these define.
fn layouts_of<'a>(alloc: Global, defs: &'a [Def]) -> Result<LayoutMap<'a>, NoMemory>
    requires { AreInOrder defs.now }
    ensures { IfOk result (λ r. (x : List ℕ) → has r x ≡ named_layout defs.now x) }
{
    let mut layouts = LayoutMap::new(alloc);
    for def in defs {
        add(&mut layouts, def)?;
    }
    Ok(layouts)
}

/// Adds the layout of the struct or sum that a definition defines, if it does.
fn add<'a>(layouts: &mut LayoutMap<'a>, def: &'a Def) -> Result<(), NoMemory>
    requires aligned { AreAligned (has layouts.old) }
    requires fits { (layout_of (map_layout (has layouts.old)) (composite_of def.now)).size ≤ max_bytes }
    ensures { OnOk result ((x : List ℕ) → has layouts.new x ≡ put_def (has layouts.old) def.now x) }
{
    let layout = def_layout(&Known::Map(layouts), def);
    match def {
        Def::Struct { name, .. } => layouts.add(name.as_bytes(), layout),
        Def::Sum { name, .. } => layouts.add(name.as_bytes(), layout),
        _ => Ok(()),
    }
}
