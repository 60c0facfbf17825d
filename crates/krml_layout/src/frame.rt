//! The bytes of a frame, computed without memory.

ghost use Rattle.std.specs.Prelude.{◌≡◌, ◌≤◌, ◌<◌, ◌^◌, length};
ghost use Rattle.std.specs.List.{AllByRecursion};
ghost use Rattle.krml_trace.specs.Limits.{max_elements};
ghost use Rattle.krml_layout.specs.Layout.{frame_bytes, slot_bytes};
ghost use Rattle.krml_layout.specs.Ordered.{AreInOrder};

use crate::known::{Known, type_layout};
use krml_ast::PlainFile;
use krml_syntax::{Def, Slot};

/// The bytes that the slots of a frame take. The layout of a type is computed where it is asked for, among the file's definitions.
pub fn frame_bytes(file: &PlainFile, slots: &[Slot]) -> u64
    requires lengths { AllByRecursion (λ s. s.len ≤ max_elements) slots.now }
    requires count { length slots.now < 2 ^ 32 }
    ensures { result ≡ frame_bytes file.now.defs slots.now }
{
    let defs = file.file().defs.as_slice();
    let mut bytes = 0;
    for slot in slots {
        bytes += slot_bytes(defs, slot);
    }
    bytes
}

/// The bytes that a slot takes.
fn slot_bytes(defs: &[Def], slot: &Slot) -> u64
    requires { AreInOrder defs.now }
    ensures { result ≡ slot_bytes defs.now slot.now }
{
    type_layout(&Known::Among(defs), &slot.ty).slot_bytes(slot.len)
}
