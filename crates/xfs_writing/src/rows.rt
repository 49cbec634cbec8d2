//! A block that is to be written.

/// A block that is to be written: its number on the disk, and its index in the bank that has its bytes.
#[derive(Clone, Copy, PartialEq, Eq)]
pub struct Row {
    pub at: u64,
    pub index: usize,
}
