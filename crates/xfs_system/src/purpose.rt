//! What a call does with its image.

/// What a call does with its image.
#[derive(Clone, Copy)]
pub enum Purpose {
    /// Nothing: the words are refused, or ask for help or the version alone.
    Nothing,
    /// It is read.
    Reads,
    /// It is read, and may be written.
    Writes,
}
