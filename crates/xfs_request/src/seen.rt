//! What is known of slots.

ghost use Rattle.std.specs.Prelude.{◌≡◌, ◌==◌, filter};
ghost use Rattle.std.specs.List.Sorted.{IsNonDecreasingBy};
ghost use Rattle.xfs_request.specs.Slots.{is_bare, is_free, state_at};

use xfs_naming::{Numbered, records_near};

/// What a slot reads as.
#[derive(Clone, Copy)]
pub enum SlotState {
    /// It holds no file.
    Free,
    /// It holds a file whose attributes do not read.
    Bare,
    /// It holds any other file, or does not read.
    Other,
}

/// What is known of a slot of a cluster.
#[derive(Clone, Copy)]
pub struct SlotSeen {
    /// The number of its inode.
    pub ino: u64,
    pub state: SlotState,
    /// The log sequence number that stands in it.
    pub lsn: u64,
}

impl Numbered for SlotSeen {
    ghost key = { λ slot. slot.ino };

    fn number(&self) -> u64 {
        self.ino
    }
}

/// What the slot of an inode reads as. `near` is a place among the slots at which it may stand.
pub(crate) fn state_at(slots: &[SlotSeen], near: &mut usize, ino: u64) -> SlotState
    requires { IsNonDecreasingBy (λ (slot : SlotSeen). slot.ino) slots.now }
    ensures { result ≡ state_at slots.now ino }
{
    match records_near(slots, near, ino).first() {
        Some(slot) => slot.state,
        None => SlotState::Other,
    }
}

/// Whether a slot holds no file.
pub(crate) fn is_free(state: SlotState) -> bool
    ensures { result ≡ is_free state }
{
    matches!(state, SlotState::Free)
}

/// Whether a slot holds a file whose attributes do not read.
pub(crate) fn is_bare(state: SlotState) -> bool
    ensures { result ≡ is_bare state }
{
    matches!(state, SlotState::Bare)
}
