//! What becomes of the labels of a type that is read.

/// What becomes of the labels of a type that is read.
#[derive(Clone, Copy)]
pub enum Labelling {
    Kept,
    Erased,
}
