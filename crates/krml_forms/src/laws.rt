//! Laws about texts and forms, as contracts of calls that do nothing.

ghost use Rattle.std.specs.Prelude.{◌≡◌, ℕ, List};
ghost use Rattle.krml_trace.specs.Limits.{max_levels};
ghost use Rattle.krml_forms.specs.Text.{HasForms};
ghost use Rattle.krml_forms.specs.Levels.{AllWithin};
ghost use Rattle.krml_forms.specs.Faults.{IsFaultAt, IsDeepAt, HasNone};
ghost use Rattle.krml_forms.specs.Reading.{HasReading};
ghost use Rattle.krml_forms.specs.Writing.{forms_text, AllWritable};

use crate::form::Form;
use crate::read::Reading;

/// A text has at most one reading: forms, a place of a fault and a place of a 65th level exclude each other.
pub fn one_reading()
    ensures { (text : List ℕ) (a b : Reading) → HasReading text a → HasReading text b → a ≡ b }
{}

/// A text of forms of 64 levels at most has no fault at any place, and opens no 65th level.
pub fn forms_have_no_fault()
    ensures fault { (text : List ℕ) (forms : List Form) → HasForms text forms → AllWithin max_levels forms → HasNone (IsFaultAt text) }
    ensures deep { (text : List ℕ) (forms : List Form) → HasForms text forms → AllWithin max_levels forms → HasNone (IsDeepAt text) }
{}

/// The text that is written for forms whose atoms are words has these forms.
pub fn written_forms_are_read()
    ensures { (forms : List Form) → AllWritable forms → HasForms (forms_text forms) forms }
{}

/// The atoms of forms that a text has are words, so what was read is written and read again.
pub fn read_forms_are_writable()
    ensures { (text : List ℕ) (forms : List Form) → HasForms text forms → AllWithin max_levels forms → AllWritable forms }
{}
