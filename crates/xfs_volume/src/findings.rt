//! What is wrong with a volume.

/// A law that a volume breaks, with the least place at which it does.
#[derive(Clone, Copy, Debug, PartialEq, Eq)]
pub struct Law {
    /// The number of the law, from 1 to 10.
    pub law: u8,
    /// Where: a block, a group or an inode, as the law has it.
    pub place: u64,
    /// The number that stands there.
    pub held: u128,
    /// The number that should stand there; another one than `held`.
    pub due: u128,
}

/// Why a catalog is not lawful.
#[derive(Clone, Copy, PartialEq, Eq)]
pub enum LawFault {
    /// It breaks this law first.
    Broken(Law),
    /// There is not enough memory.
    NoMemory,
}
