//! What is wanted of slots, with what names change in it.

ghost use Rattle.std.specs.Prelude.{◌≡◌, ◌≤◌, ◌++◌, List, length, take, drop, IfOk, OnOk};
ghost use Rattle.xfs_geom.specs.Features.{or_else};
ghost use Rattle.xfs_render.specs.declared.wanted_slots.SlotWanted.{SlotWanted};
ghost use Rattle.xfs_changes.specs.Slots.{base_or, changed, changed_alone, put_first, slots_before, with_changes};

use crate::changes::SlotChange;
use std::alloc::Global;
use xfs_disk::{NoMemory, Word};
use xfs_inodebuild::ForkWanted;
use xfs_render::{SlotBase, SlotWanted};

/// The slots by inode, with the changes by inode, each at its place.
pub fn with_changes(
    alloc: Global,
    changes: &[SlotChange],
    slots: &[SlotWanted],
) -> Result<Vec<SlotWanted>, NoMemory>
    ensures { IfOk result (λ all. all.items ≡ with_changes changes.now slots.now) }
{
    let mut all = Vec::new(alloc);
    let mut rest = slots;
    for change in changes {
        rest = put_change(alloc, change, rest, &mut all)?;
    }
    push_slots(alloc, rest, &mut all)?;
    Ok(all)
}

/// Adds the slots in front of a change, and the change; and gives the slots behind it.
fn put_change<'a>(
    alloc: Global,
    change: &SlotChange,
    slots: &'a [SlotWanted],
    all: &mut Vec<SlotWanted>,
) -> Result<&'a [SlotWanted], NoMemory>
    ensures { IfOk result (λ rest. (next : List SlotWanted → List SlotWanted) →
        (all.old.items ++ (take (slots_before change.now slots.now) slots.now ++ put_first change.now next (drop (slots_before change.now slots.now) slots.now)))
        ≡ (all.new.items ++ next rest.now)) }
{
    let before = slots_before(change, slots);
    push_slots(alloc, &slots[..before], all)?;
    let rest = put_first(alloc, change, behind(slots, before), all)?;
    Ok(rest)
}

/// The records behind so many.
pub(crate) fn behind<T>(records: &[T], count: usize) -> &[T]
    requires { count ≤ length records.now }
    ensures { result.now ≡ drop count records.now }
{
    &records[count..]
}

/// How many slots stand in front of a change.
fn slots_before(change: &SlotChange, slots: &[SlotWanted]) -> usize
    ensures place { result ≡ slots_before change.now slots.now }
    ensures within { result ≤ length slots.now }
{
    for (index, slot) in slots.iter().enumerate() {
        if slot.ino >= change.ino {
            return index;
        }
    }
    slots.len()
}

/// Adds a change, at the first of some slots where that is its own; and gives the slots behind it.
fn put_first<'a>(
    alloc: Global,
    change: &SlotChange,
    slots: &'a [SlotWanted],
    all: &mut Vec<SlotWanted>,
) -> Result<&'a [SlotWanted], NoMemory>
    ensures { IfOk result (λ rest. (next : List SlotWanted → List SlotWanted) → (all.old.items ++ put_first change.now next slots.now) ≡ (all.new.items ++ next rest.now)) }
{
    match slots.split_first() {
        Some((slot, rest)) => {
            if slot.ino == change.ino {
                all.push(changed(alloc, change, slot)?)?;
                return Ok(rest);
            }
        }
        None => {}
    }
    all.push(changed_alone(alloc, change)?)?;
    Ok(slots)
}

/// Adds slots as they are.
fn push_slots(
    alloc: Global,
    slots: &[SlotWanted],
    all: &mut Vec<SlotWanted>,
) -> Result<(), NoMemory>
    ensures { OnOk result (all.new.items ≡ all.old.items ++ slots.now) }
{
    for slot in slots {
        all.push(copy_slot(alloc, slot)?)?;
    }
    Ok(())
}

/// A slot as it is.
fn copy_slot(alloc: Global, slot: &SlotWanted) -> Result<SlotWanted, NoMemory>
    ensures { IfOk result (λ copy. copy ≡ slot.now) }
{
    Ok(SlotWanted {
        ino: slot.ino,
        base: slot.base,
        drop_attrs: slot.drop_attrs,
        fork: copy_wanted(alloc, &slot.fork)?,
        nlink: slot.nlink,
    })
}

/// A slot of which something was wanted, changed.
fn changed(alloc: Global, change: &SlotChange, slot: &SlotWanted) -> Result<SlotWanted, NoMemory>
    ensures { IfOk result (λ new. new ≡ changed change.now slot.now) }
{
    let fork = if change.fork.is_some() {
        copy_wanted(alloc, &change.fork)?
    } else {
        copy_wanted(alloc, &slot.fork)?
    };
    Ok(SlotWanted {
        ino: slot.ino,
        base: base_or(slot.base, change.base),
        drop_attrs: slot.drop_attrs,
        fork,
        nlink: links_or(change.nlink, slot.nlink),
    })
}

/// A slot of which nothing was wanted, changed.
fn changed_alone(alloc: Global, change: &SlotChange) -> Result<SlotWanted, NoMemory>
    ensures { IfOk result (λ new. new ≡ changed_alone change.now) }
{
    Ok(SlotWanted {
        ino: change.ino,
        base: base_or(SlotBase::Kept, change.base),
        drop_attrs: None,
        fork: copy_wanted(alloc, &change.fork)?,
        nlink: change.nlink,
    })
}

/// What a slot is before other changes, where that may be another.
fn base_or(base: SlotBase, other: Option<SlotBase>) -> SlotBase
    ensures { result ≡ base_or base other }
{
    match other {
        Some(other) => other,
        None => base,
    }
}

/// A number of links, or else another.
fn links_or(nlink: Option<u32>, other: Option<u32>) -> Option<u32>
    ensures { result ≡ or_else nlink other }
{
    match nlink {
        Some(nlink) => Some(nlink),
        None => other,
    }
}

/// A fork that may be wanted.
fn copy_wanted(alloc: Global, fork: &Option<ForkWanted>) -> Result<Option<ForkWanted>, NoMemory>
    ensures { IfOk result (λ copy. copy ≡ fork.now) }
{
    match fork {
        Some(fork) => Ok(Some(copy_fork(alloc, fork)?)),
        None => Ok(None),
    }
}

/// A fork as it is.
pub(crate) fn copy_fork(alloc: Global, fork: &ForkWanted) -> Result<ForkWanted, NoMemory>
    ensures { IfOk result (λ copy. copy ≡ fork.now) }
{
    Ok(ForkWanted {
        format: fork.format,
        size: fork.size,
        nblocks: fork.nblocks,
        nextents: fork.nextents,
        bytes: Word::from_slice(alloc, fork.bytes.bytes())?,
    })
}
