//! Why a slot is not read.

/// Why a slot is not read.
#[derive(Clone, Copy, Debug)]
pub enum InodeFault {
    /// A read failed.
    ReadFault,
    /// There is not enough memory.
    NoMemory,
}
