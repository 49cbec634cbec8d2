//! Why trees are not read.

/// Why trees are not read.
#[derive(Clone, Copy)]
pub enum ForestFault {
    /// A read failed.
    ReadFault,
    /// There is not enough memory.
    NoMemory,
}
