//! Why slots are not taken up.

/// Why something is not read.
#[derive(Clone, Copy)]
pub enum PartFault {
    /// A read failed.
    ReadFault,
    /// There is not enough memory.
    NoMemory,
}
