//! Why a round is not read.

/// Why a round is not read.
#[derive(Clone, Copy)]
pub enum RoundFault {
    /// A read failed.
    ReadFault,
    /// There is not enough memory.
    NoMemory,
}
