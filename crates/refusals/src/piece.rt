//! The pieces of a text that is told without memory.

/// A piece of a text.
#[derive(Clone, Copy, Debug, PartialEq, Eq)]
pub enum Piece {
    /// Words, as they are.
    Text(&'static str),
    /// A number, in decimal digits.
    Number(u32),
}
