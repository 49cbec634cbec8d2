//! Why a repair ends before anything is written.

/// Why a repair ends before anything is written.
#[derive(Clone, Copy)]
pub enum MendFault {
    /// A read failed.
    ReadFault,
    /// There is not enough memory.
    NoMemory,
}
