//! The forms of a text, or why it has none.

ghost use Rattle.std.specs.Prelude.{IfOk};
ghost use Rattle.krml_forms.specs.Faults.{IsDeepAt, IsFirst};
ghost use Rattle.krml_forms.specs.Reading.{HasReading};

use crate::comments::Comments;
use crate::cutter::Cutter;
use crate::fault::first_fault;
use crate::form::Form;
use crate::nest::Step;
use krml_trace::{NoMemory, Seq};
use std::alloc::Global;

/// What a text is read as. Places are counted in bytes from 0.
#[derive(Drop)]
pub enum Reading {
    /// Its forms.
    Forms(Seq<Form>),
    /// The place of its first fault: a byte outside the alphabet, a `)` that closes nothing, or the end of the text
    /// where a list is open.
    Syntax { at: u64 },
    /// It has no fault, and this is the place of the first `(` of a 65th level.
    Nesting { at: u64 },
}

/// What a text is where a list is too deep at a place, and at no smaller one.
fn too_deep(text: &[u8], at: u64) -> Reading
    requires { IsFirst (IsDeepAt text.now) at }
    ensures { HasReading text.now result }
{
    match first_fault(text) {
        Some(fault) => Reading::Syntax { at: fault },
        None => Reading::Nesting { at },
    }
}

/// Reads the forms of a text, or finds where it first has none. Takes memory only as forms are read.
pub fn read_forms(alloc: Global, text: &[u8]) -> Result<Reading, NoMemory>
    ensures { IfOk result (λ reading. HasReading text.now reading) }
{
    let mut comments = Comments::new();
    let mut cutter = Cutter::new(alloc);
    for (i, byte) in text.iter().enumerate() {
        let plain = comments.blank(*byte);
        match cutter.byte(plain)? {
            Step::On => {}
            Step::Fault => return Ok(Reading::Syntax { at: i as u64 }),
            Step::Deep => return Ok(too_deep(text, i as u64)),
        }
    }
    match cutter.finish()? {
        Some(forms) => Ok(Reading::Forms(forms)),
        None => Ok(Reading::Syntax {
            at: text.len() as u64,
        }),
    }
}
