//! The short form of attributes, which stands in an inode.

ghost use Rattle.std.specs.Prelude.{◌≡◌, ◌↔◌, List, [], ◌∷◌, ◌++◌, Ok, ℕ, ◌-◌, ◌<◌, length, drop, IsTrue, MatchOption, IfOk, nat_le, ◌&&◌, ◌≤◌, true, false};
ghost use Rattle.std.specs.Option.{ok_or};
ghost use Rattle.xfs_word.specs.Field.{field_of, part_of};
ghost use Rattle.xfs_attr.specs.declared.attributes.Attr.{Attr};
ghost use Rattle.xfs_attr.specs.Readings.{IsReading};
ghost use Rattle.xfs_attr.specs.ShortForm.{size_of_entry, begin_with_entry, attribute_of_entry, attributes_of, short_attributes, BeginsWith};

use crate::attributes::{Attr, AttrFault, Attrs};
use crate::layouts::short_form::{
    COUNT, ENTRY_SIZE, FLAGS, HEADER_SIZE, NAMELEN, TOTSIZE, VALUELEN,
};
use std::alloc::Global;
use xfs_disk::NoMemory;
use xfs_word::{get8, get16, part};

/// The attributes of the short form that a fork begins with. `Unsound` where the form's size is not that of
/// its header and entries or exceeds the fork, or a name is empty (chapter "Extended Attributes").
#[tactic(auto, unfolding(crate::specs::ShortForm::short_attributes))]
pub fn read_short_attributes(alloc: Global, fork: &[u8]) -> Result<Attrs, AttrFault>
    ensures due { IsReading (short_attributes fork.now) result }
    ensures spelled { (attributes : List Attr) → (short_attributes fork.now ≡ Ok attributes) ↔ BeginsWith fork.now attributes }
{
    let Some(bytes) = entry_bytes(fork) else {
        return Err(AttrFault::Unsound);
    };
    read_attributes(alloc, get8(fork, COUNT.offset) as u64, bytes)
}

/// The bytes of the entries, where the short form lies in the fork.
fn entry_bytes(fork: &[u8]) -> Option<&[u8]>
    ensures { MatchOption result
        ((nat_le 4 (field_of fork.now 0 2) && nat_le (field_of fork.now 0 2) (length fork.now)) ≡ false)
        (λ bytes. (bytes.now ≡ part_of fork.now 4 (field_of fork.now 0 2 - 4)) × (4 ≤ field_of fork.now 0 2) × (field_of fork.now 0 2 ≤ length fork.now)) }
{
    if fork.len() < HEADER_SIZE {
        return None;
    }
    let size = get16(fork, TOTSIZE.offset) as usize;
    if size < HEADER_SIZE || fork.len() < size {
        return None;
    }
    Some(part(fork, HEADER_SIZE, size - HEADER_SIZE))
}

/// The attributes of so many entries, which fill the bytes.
fn read_attributes(alloc: Global, count: u64, bytes: &[u8]) -> Result<Attrs, AttrFault>
    ensures { IsReading (ok_or (attributes_of count bytes.now) AttrFault.Unsound) result }
{
    let mut attributes = Vec::new(alloc);
    let mut rest = bytes;
    for _ in 0..count {
        let Some(size) = entry_size(rest) else {
            return Err(AttrFault::Unsound);
        };
        match push_entry(alloc, &mut attributes, rest) {
            Ok(()) => {}
            Err(NoMemory) => return Err(AttrFault::NoMemory),
        }
        rest = after(rest, size);
    }
    if rest.len() > 0 {
        return Err(AttrFault::Unsound);
    }
    Ok(Attrs::from_vec(attributes))
}

/// Adds the attribute of the entry that the bytes begin with.
fn push_entry(alloc: Global, attributes: &mut Vec<Attr>, bytes: &[u8]) -> Result<(), NoMemory>
    requires { IsTrue (begin_with_entry bytes.now) }
    ensures { IfOk result (λ _. attributes.new.items ≡ attributes.old.items ++ attribute_of_entry bytes.now ∷ []) }
{
    let attribute = read_entry(alloc, bytes)?;
    attributes.push(attribute)?;
    Ok(())
}

/// The bytes behind the first `size`.
fn after(bytes: &[u8], size: usize) -> &[u8]
    requires { size ≤ length bytes.now }
    ensures { result.now ≡ drop size bytes.now }
{
    &bytes[size..]
}

/// The size of the entry that the bytes begin with, in bytes, where they begin with one.
fn entry_size(bytes: &[u8]) -> Option<usize>
    ensures { MatchOption result (begin_with_entry bytes.now ≡ false)
        (λ size. (size ≡ size_of_entry bytes.now) × (begin_with_entry bytes.now ≡ true)) }
{
    if bytes.len() < ENTRY_SIZE || get8(bytes, NAMELEN.offset) == 0 {
        return None;
    }
    let size = ENTRY_SIZE
        + get8(bytes, NAMELEN.offset) as usize
        + get8(bytes, VALUELEN.offset) as usize;
    if bytes.len() < size { None } else { Some(size) }
}

/// The attribute of the entry that the bytes begin with.
fn read_entry(alloc: Global, bytes: &[u8]) -> Result<Attr, NoMemory>
    requires { IsTrue (begin_with_entry bytes.now) }
    ensures { IfOk result (λ attribute. attribute ≡ attribute_of_entry bytes.now) }
{
    let name_size = get8(bytes, NAMELEN.offset) as usize;
    let value_size = get8(bytes, VALUELEN.offset) as usize;
    let name = part(bytes, ENTRY_SIZE, name_size);
    let value = part(bytes, ENTRY_SIZE + name_size, value_size);
    Attr::copied(alloc, get8(bytes, FLAGS.offset), name, value)
}
