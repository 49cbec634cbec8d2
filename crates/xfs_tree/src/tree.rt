//! What a tree holds, or why it gives nothing.

use crate::kind::Kind;
use crate::unread::Unread;

/// What a tree holds: its records in order, and its blocks by number, by level from the root and then from
/// the left.
#[derive(Drop)]
pub struct Tree<K: Kind> {
    pub records: Vec<K::Record>,
    pub blocks: Vec<u64>,
}

/// Why a tree gives nothing.
#[derive(Clone, Copy, Debug, PartialEq, Eq)]
pub enum TreeFault {
    /// A block breaks a rule.
    Unread(Unread),
    /// A read failed.
    ReadFault,
    /// There is not enough memory.
    NoMemory,
}
