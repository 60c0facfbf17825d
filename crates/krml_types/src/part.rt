//! What a field tells of whether its struct holds a buffer.

/// What a field tells of whether its struct holds a buffer.
#[derive(Drop)]
pub enum Part {
    /// It is a buffer.
    Buffer,
    /// It is of the struct at this place in the file.
    At(usize),
    /// It is of a type that holds none.
    Nothing,
}
