//! Why groups are not read.

/// Why groups are not read.
#[derive(Clone, Copy)]
pub enum GroupsFault {
    /// A read failed.
    ReadFault,
    /// There is not enough memory.
    NoMemory,
}
