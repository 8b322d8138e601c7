//! What the first pass notes for the second one.

/// What a piece tells its parts.
#[derive(Clone, Copy, Debug, PartialEq, Eq)]
pub struct Note {
    /// The width at which they are read; where there is none, they are read at that of the whole.
    pub width: Option<u8>,
    /// The number of a method's arguments.
    pub arguments: usize,
}
