//! Forms put together from words and parentheses, with a limit on the lists that are open.

ghost use Rattle.std.specs.Prelude.{List, OnOk, [], ◌∷◌, ◌≡◌, length};
ghost use Rattle.krml_forms.specs.Text.{Token, Open, Close, Word};
ghost use Rattle.krml_forms.specs.Nest.{Takes, after, nest};
ghost use Rattle.krml_forms.specs.Scan.{Moves};

use crate::form::Form;
use krml_trace::{MAX_LEVELS, NoMemory, Seq};
use std::alloc::Global;
use std::mem;

/// What a part of a text did to the lists that are open.
#[derive(Clone, Copy, Debug, PartialEq, Eq)]
pub enum Step {
    /// The text may go on.
    On,
    /// No text that begins so has forms.
    Fault,
    /// A list would be one level too deep.
    Deep,
}

/// The forms of a text so far.
#[derive(Drop)]
pub struct Nest {
    pub alloc: Global,
    /// What stands before each list that is open, in the list around it. The innermost is the last.
    pub outer: Vec<Seq<Form>>,
    /// What stands in the innermost list.
    pub inner: Seq<Form>,
}

impl Nest {
    pub fn new(alloc: Global) -> Nest
        ensures after { (ts : List Token) → after result ts ≡ nest [] [] ts }
        ensures depth { length result.outer.items ≡ 0 }
    {
        Nest {
            alloc,
            outer: Vec::new(alloc),
            inner: Seq::new(alloc),
        }
    }

    /// A list begins.
    pub fn open(&mut self) -> Result<Step, NoMemory>
        ensures takes { Takes self.old (Open ∷ []) result self.new }
        ensures moves { Moves (length self.old.outer.items) 40 result (length self.new.outer.items) }
    {
        if self.outer.len() >= MAX_LEVELS {
            return Ok(Step::Deep);
        }
        let forms = mem::replace(&mut self.inner, Seq::new(self.alloc));
        self.outer.push(forms)?;
        Ok(Step::On)
    }

    /// The innermost list ends. At fault where none is open.
    pub fn close(&mut self) -> Result<Step, NoMemory>
        ensures takes { Takes self.old (Close ∷ []) result self.new }
        ensures moves { Moves (length self.old.outer.items) 41 result (length self.new.outer.items) }
    {
        match self.outer.pop() {
            None => Ok(Step::Fault),
            Some(forms) => {
                let list = mem::replace(&mut self.inner, forms);
                self.inner.push(Form::List(list))?;
                Ok(Step::On)
            }
        }
    }

    pub fn word(&mut self, word: Seq<u8>) -> Result<(), NoMemory>
        ensures takes { OnOk result ((ts : List Token) → after self.old (Word word ∷ ts) ≡ after self.new ts) }
        ensures depth { OnOk result (length self.new.outer.items ≡ length self.old.outer.items) }
    {
        self.inner.push(Form::Atom(word))
    }
}
