//! The syntax of the source language: its trees, what forms spell, and its limits.
#![tactic(auto)]

mod limit;
mod number;
mod tree;
mod words;

pub use limit::LimitKind;
pub use number::number_at;
pub use tree::{
    Arm, BinOp, Case, CmpOp, Con, Def, Expr, Field, IntTy, Item, Pat, Slot, SourceFile, Ty,
};
pub use words::{bin_word, bool_word, cmp_word, int_word, shift_word};
