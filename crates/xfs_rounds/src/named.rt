//! Slots that name other blocks (chapter "On-disk Inode").

ghost use Rattle.std.specs.Prelude.{◌≡◌, []};

use std::alloc::Global;
use xfs_inode::{Needs, SlotRead};

/// A slot that names other blocks.
#[derive(Drop)]
pub(crate) struct NamingSlot {
    pub ino: u64,
    /// What it reads as by itself.
    pub read: SlotRead,
    pub needs: Needs,
    /// Which of the round's leaves of attributes is its own, from 0.
    pub leaf_at: Option<usize>,
    /// Which of the round's targets of symbolic links is its own, from 0.
    pub link_at: Option<usize>,
}

/// The slots of a round that name other blocks, in order.
#[derive(Drop)]
pub(crate) struct NamedSlots {
    pub slots: Vec<NamingSlot>,
    /// The blocks of leaves of attributes, by number.
    pub leaves: Vec<u64>,
    /// The blocks of targets of symbolic links, by number.
    pub links: Vec<u64>,
}

impl NamedSlots {
    /// No slot.
    pub fn new(alloc: Global) -> NamedSlots
        ensures slots { result.slots.items ≡ [] }
        ensures leaves { result.leaves.items ≡ [] }
        ensures links { result.links.items ≡ [] }
    {
        NamedSlots {
            slots: Vec::new(alloc),
            leaves: Vec::new(alloc),
            links: Vec::new(alloc),
        }
    }
}
