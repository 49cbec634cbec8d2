//! A leaf of attributes.

ghost use Rattle.std.specs.Prelude.{◌≡◌, ◌↔◌, true, ℕ, ◌+◌, ◌*◌, ◌<◌, ◌≤◌, length, map, filter, min, not, IfOk};
ghost use Rattle.std.specs.List.{list_all};
ghost use Rattle.xfs_attr.specs.Readings.{IsReading};
ghost use Rattle.xfs_attr.specs.Leaf.{leaf_entry_at, entries, leaf_entry_size, is_local, is_complete, attribute_of, leaf_of, leaf_with, entries_apart, AreInside, AreDisjoint};

use crate::attributes::{Attr, AttrFault, Attrs};
use crate::entries::{LeafEntry, leaf_entry_name, read_entry, value_of};
use crate::layouts::leaf::{COUNT, MOST_ENTRIES};
use crate::soundness::is_sound_leaf;
use std::alloc::Global;
use xfs_disk::NoMemory;
use xfs_word::get16;

/// What of a leaf is not supported: a value outside it.
const REMOTE: u8 = 1;

/// The attributes of a leaf, a block of 4096 bytes, but for the entries that are incomplete. `Unsupported` of
/// 1 where one of its entries, as far as they lie inside the block, says that its value stands elsewhere.
/// Else `Unsound` where the leaf breaks a rule of its form (chapter "Extended Attributes"). Its magic number,
/// its seal and its owner are not looked at.
#[tactic(auto, unfolding(crate::specs::Leaf::leaf_with))]
pub fn read_leaf(alloc: Global, block: &[u8]) -> Result<Attrs, AttrFault>
    requires { length block.now ≡ 4096 }
    ensures due { IsReading (leaf_of block.now) result }
    ensures disjoint { (count : ℕ) → AreInside block.now count → (entries_apart block.now (entries block.now count) ≡ true) ↔ AreDisjoint block.now count }
{
    let count = get16(block, COUNT.offset) as usize;
    if !are_local(block, count.min(MOST_ENTRIES)) {
        return Err(AttrFault::Unsupported { what: REMOTE });
    }
    if !is_sound_leaf(block, count) {
        return Err(AttrFault::Unsound);
    }
    match read_attributes(alloc, block, count) {
        Ok(attributes) => Ok(Attrs::from_vec(attributes)),
        Err(NoMemory) => Err(AttrFault::NoMemory),
    }
}

/// Whether the values of the first entries stand in the leaf.
fn are_local(block: &[u8], count: usize) -> bool
    requires { 80 + 8 * count ≤ length block.now }
    ensures { result ≡ list_all is_local (entries block.now count) }
{
    for index in 0..count {
        if !read_entry(block, index).is_local() {
            return false;
        }
    }
    true
}

/// The attributes of the first entries, whose values lie inside the block.
fn read_attributes(alloc: Global, block: &[u8], count: usize) -> Result<Vec<Attr>, NoMemory>
    requires block { length block.now ≡ 4096 }
    requires inside { AreInside block.now count }
    ensures { IfOk result (λ attributes. attributes.items ≡ map (attribute_of block.now) (filter is_complete (entries block.now count))) }
{
    let mut attributes = Vec::new(alloc);
    for index in 0..count {
        let entry = read_entry(block, index);
        if entry.is_complete() {
            attributes.push(read_attribute(alloc, block, entry)?)?;
        }
    }
    Ok(attributes)
}

/// The attribute of an entry.
fn read_attribute(alloc: Global, block: &[u8], entry: LeafEntry) -> Result<Attr, NoMemory>
    requires { entry.nameidx + leaf_entry_size block.now entry ≤ length block.now }
    ensures { IfOk result (λ attribute. attribute ≡ attribute_of block.now entry) }
{
    Attr::copied(
        alloc,
        entry.flags,
        leaf_entry_name(block, entry),
        value_of(block, entry),
    )
}
