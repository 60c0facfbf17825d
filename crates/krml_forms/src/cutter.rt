//! A text cut into words and parentheses, byte by byte.

ghost use Rattle.std.specs.Prelude.{List, ℕ, IfOk, OnOk, [], ◌≡◌, false, length};
ghost use Rattle.krml_forms.specs.Text.{is_word};
ghost use Rattle.krml_forms.specs.Cut.{Reads, Ends, Symbol, reading, forms_of_plain};
ghost use Rattle.krml_forms.specs.Scan.{Moves, Closes};

use crate::byte::{is_white, is_word};
use crate::form::Form;
use crate::nest::{Nest, Step};
use krml_trace::{NoMemory, Seq};
use std::alloc::Global;
use std::mem;

/// Cuts a text without comments into words and parentheses, byte by byte.
#[derive(Drop)]
pub struct Cutter {
    pub nest: Nest,
    /// The word that is being read.
    pub word: Seq<u8>,
}

impl Cutter {
    pub fn new(alloc: Global) -> Cutter
        ensures reading { (bytes : List ℕ) → reading result bytes ≡ forms_of_plain bytes }
        ensures depth { length result.nest.outer.items ≡ 0 }
    {
        Cutter {
            nest: Nest::new(alloc),
            word: Seq::new(alloc),
        }
    }

    /// The word ends here, if there is one.
    fn end_word(&mut self) -> Result<(), NoMemory>
        ensures ends { Ends self.old result self.new }
        ensures depth { OnOk result (length self.new.nest.outer.items ≡ length self.old.nest.outer.items) }
    {
        if self.word.is_empty() {
            return Ok(());
        }
        let word = mem::replace(&mut self.word, Seq::new(self.nest.alloc));
        self.nest.word(word)
    }

    /// Takes a byte that is of no word, behind a whole word.
    fn symbol(&mut self, byte: u8) -> Result<Step, NoMemory>
        requires empty { self.old.word ≡ [] }
        requires no_word { is_word byte ≡ false }
        ensures symbol { Symbol self.old byte result self.new }
        ensures moves { Moves (length self.old.nest.outer.items) byte result (length self.new.nest.outer.items) }
    {
        match byte {
            b'(' => self.nest.open(),
            b')' => self.nest.close(),
            _ => {
                if is_white(byte) {
                    Ok(Step::On)
                } else {
                    Ok(Step::Fault)
                }
            }
        }
    }

    /// Takes the next byte.
    pub fn byte(&mut self, byte: u8) -> Result<Step, NoMemory>
        ensures reads { Reads self.old byte result self.new }
        ensures moves { Moves (length self.old.nest.outer.items) byte result (length self.new.nest.outer.items) }
    {
        if is_word(byte) {
            self.word.push(byte)?;
            return Ok(Step::On);
        }
        self.end_word()?;
        self.symbol(byte)
    }

    /// The forms, where the text ends here. None where a list stays open.
    pub fn finish(mut self) -> Result<Option<Seq<Form>>, NoMemory>
        ensures forms { IfOk result (λ forms. forms ≡ reading self []) }
        ensures closes { IfOk result (λ forms. Closes forms (length self.nest.outer.items)) }
    {
        self.end_word()?;
        let Cutter { nest, .. } = self;
        let Nest { outer, inner, .. } = nest;
        if outer.is_empty() {
            Ok(Some(inner))
        } else {
            Ok(None)
        }
    }
}
