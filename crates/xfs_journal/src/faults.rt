//! Why the log or the log sequence numbers are not read.

/// Why the log or the log sequence numbers are not read.
#[derive(Clone, Copy)]
pub enum JournalFault {
    /// A read failed.
    ReadFault,
    /// There is not enough memory.
    NoMemory,
}
