//! Features of an inode that are not supported.

ghost use Rattle.std.specs.Prelude.{◌≡◌, ℕ, ◌+◌, ◌<◌, ◌≤◌, length};
ghost use Rattle.xfs_inode.specs.Slots.{attribute_start, extent_count, has_bit, has_long_extent, has_wide_attributes, unsupported};

use crate::layouts::inode::{DATA_FORK, EXTENT_SIZE, SLOT_SIZE};
use xfs_volume::Core;
use xfs_word::get32;

/// The number of the first feature that the slot uses and that is not supported.
#[tactic(auto, unfolding(crate::specs::Slots::unsupported))]
pub fn unsupported(core: &Core, slot: &[u8]) -> Option<u8>
    requires { length slot.now ≡ 512 }
    ensures { result ≡ unsupported core.now slot.now }
{
    if has_bit(core.flags as u64, 0) {
        return Some(3);
    }
    if has_bit(core.flags2, 1) {
        return Some(4);
    }
    if has_bit(core.flags2, 3) {
        return Some(5);
    }
    if has_bit(core.flags2, 4) {
        return Some(6);
    }
    if has_wide_attributes(core, slot) {
        return Some(2);
    }
    None
}

/// Whether a bit, counted from the lowest, is set.
fn has_bit(number: u64, bit: u32) -> bool
    requires { bit < 64 }
    ensures { result ≡ has_bit number bit }
{
    (number >> bit) % 2 == 1
}

/// Whether the attributes are in more than one block.
fn has_wide_attributes(core: &Core, slot: &[u8]) -> bool
    requires { length slot.now ≡ 512 }
    ensures { result ≡ has_wide_attributes core.now slot.now }
{
    if core.forkoff == 0 {
        return false;
    }
    if core.aformat == 3 {
        return true;
    }
    if core.aformat != 2 {
        return false;
    }
    core.anextents > 1 || has_long_extent(core, slot)
}

/// Whether the only extent of the attribute fork lies inside the slot and has more than one block.
fn has_long_extent(core: &Core, slot: &[u8]) -> bool
    requires { length slot.now ≡ 512 }
    ensures { result ≡ has_long_extent core.now slot.now }
{
    let start = attribute_start(core.forkoff);
    if core.anextents != 1 {
        return false;
    }
    if start + EXTENT_SIZE > SLOT_SIZE {
        return false;
    }
    extent_count(slot, start) > 1
}

/// The byte offset at which the attribute fork begins, where there is one, by its place in the core.
pub fn attribute_start(forkoff: u8) -> usize
    ensures { result ≡ attribute_start forkoff }
{
    DATA_FORK + 8 * forkoff as usize
}

/// The blocks of the extent whose 16 bytes stand at an offset.
#[tactic(auto, unfolding(crate::specs::Slots::extent_count))]
fn extent_count(slot: &[u8], at: usize) -> u32
    requires { at + 16 ≤ length slot.now }
    ensures { result ≡ extent_count slot.now at }
{
    get32(slot, at + 12) % (1 << 21)
}
