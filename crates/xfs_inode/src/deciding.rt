//! What a slot reads as, decided from the blocks that it names.

ghost use Rattle.std.specs.Prelude.{◌≡◌, ℕ, ◌+◌, ◌*◌, ◌<◌, ◌≤◌, [], ◌∷◌, List, Some, None, length, true, IfSome, IfOk, option_map, ◌&&◌};
ghost use Rattle.std.specs.List.{list_all, sum_by};
ghost use Rattle.std.specs.Option.{option_copied};
ghost use Rattle.xfs_word.specs.declared.extents.Extent.{Extent};
ghost use Rattle.xfs_geom.specs.Volumes.{volume_of};
ghost use Rattle.xfs_kinds.specs.FileTrees.{is_extent};
ghost use Rattle.xfs_tree.specs.Reading.{Contents};
ghost use Rattle.xfs_inode.specs.Slots.{slot_read};
ghost use Rattle.xfs_inode.specs.Forks.{core_type};
ghost use Rattle.xfs_inode.specs.Sound.{IsSound};
ghost use Rattle.xfs_inode.specs.Files.{attr_fork, ranges_apart, contents_of, data_fork, file_read, is_placed, is_whole_fork, ranges_of, used_file, with_attrs, with_data};
ghost use Rattle.xfs_inode.specs.Private.Steps.{by_core, with_held};

use crate::attributes::{attr_fork, feature_of};
use crate::claims::{is_placed, ranges_apart};
use crate::conditions::{has_link_target, is_core};
use crate::extents::attr_place;
use crate::files::FileRead;
use crate::held::{DataHeld, data_fork};
use crate::outcomes::with_attrs;
use crate::reading::{SlotRead, read_slot};
use std::alloc::{AllocError, Global};
use xfs_disk::NoMemory;
use xfs_geom::Geometry;
use xfs_kinds::Bmbt;
use xfs_tree::Tree;
use xfs_volume::Core;

/// What the slot of an inode, of 512 bytes, reads as with the blocks that it names (chapter "On-disk Inode"): `tree`
/// is what reads from the level under the root of its data fork, and `attr_leaf` and `link` are the block of a leaf of
/// attributes and that of a symbolic link's target, of 4096 bytes each. `None` stands where there is none, and where
/// the tree does not read. Whatever these hold, a file that reads keeps what `IsSound` says of files.
pub fn decide_file(
    alloc: Global,
    g: &Geometry,
    ino: u64,
    slot: &[u8],
    tree: Option<&Tree<Bmbt>>,
    attr_leaf: Option<&[u8]>,
    link: Option<&[u8]>,
) -> Result<FileRead, NoMemory>
    requires slot { length slot.now ≡ 512 }
    requires attr_leaf { IfSome (option_copied attr_leaf) (λ block. length block ≡ 4096) }
    requires link { IfSome (option_copied link) (λ block. length block ≡ 4096) }
    ensures read { IfOk result (λ read. read ≡ file_read (volume_of g.now) ino slot.now (option_map contents_of (option_copied tree.entry)) (option_copied attr_leaf.entry) (option_copied link.entry)) }
    ensures sound { IfOk result (λ read. IsSound (volume_of g.now) ino read) }
{
    let read = read_slot(g, ino, slot);
    decide_read(alloc, g, ino, slot, &read, tree, attr_leaf, link)
}

/// The same of a slot that reads so by itself.
pub fn decide_read(
    alloc: Global,
    g: &Geometry,
    ino: u64,
    slot: &[u8],
    read: &SlotRead,
    tree: Option<&Tree<Bmbt>>,
    attr_leaf: Option<&[u8]>,
    link: Option<&[u8]>,
) -> Result<FileRead, NoMemory>
    requires slot { length slot.now ≡ 512 }
    requires read { read.now ≡ slot_read (volume_of g.now) ino slot.now }
    requires attr_leaf { IfSome (option_copied attr_leaf) (λ block. length block ≡ 4096) }
    requires link { IfSome (option_copied link) (λ block. length block ≡ 4096) }
    ensures read { IfOk result (λ file. file ≡ file_read (volume_of g.now) ino slot.now (option_map contents_of (option_copied tree.entry)) (option_copied attr_leaf.entry) (option_copied link.entry)) }
    ensures sound { IfOk result (λ file. IsSound (volume_of g.now) ino file) }
{
    by_slot(alloc, g, ino, slot, read, tree, attr_leaf, link)
}

/// What a slot reads as by itself, or where it is in use with the blocks that it names.
#[tactic(auto, unfolding(crate::specs::Files::file_read))]
fn by_slot(
    alloc: Global,
    g: &Geometry,
    ino: u64,
    slot: &[u8],
    read: &SlotRead,
    tree: Option<&Tree<Bmbt>>,
    attr_leaf: Option<&[u8]>,
    link: Option<&[u8]>,
) -> Result<FileRead, NoMemory>
    requires slot { length slot.now ≡ 512 }
    requires read { read.now ≡ slot_read (volume_of g.now) ino slot.now }
    requires attr_leaf { IfSome (option_copied attr_leaf) (λ block. length block ≡ 4096) }
    requires link { IfSome (option_copied link) (λ block. length block ≡ 4096) }
    ensures { IfOk result (λ file. file ≡ file_read (volume_of g.now) ino slot.now (option_map contents_of (option_copied tree.entry)) (option_copied attr_leaf.entry) (option_copied link.entry)) }
{
    match read {
        SlotRead::Unsound => Ok(FileRead::Unsound),
        SlotRead::Free => Ok(FileRead::Free),
        SlotRead::Unsupported { what } => Ok(FileRead::Unsupported { what: *what }),
        SlotRead::InUse(core) => used_file(alloc, g, ino, core, slot, tree, attr_leaf, link),
    }
}

/// What a slot in use reads as.
fn used_file(
    alloc: Global,
    g: &Geometry,
    ino: u64,
    core: &Core,
    slot: &[u8],
    tree: Option<&Tree<Bmbt>>,
    attr_leaf: Option<&[u8]>,
    link: Option<&[u8]>,
) -> Result<FileRead, NoMemory>
    requires slot { length slot.now ≡ 512 }
    requires attr_leaf { IfSome (option_copied attr_leaf) (λ block. length block ≡ 4096) }
    requires link { IfSome (option_copied link) (λ block. length block ≡ 4096) }
    ensures { IfOk result (λ read. read ≡ used_file (volume_of g.now) ino core.now slot.now (option_map contents_of (option_copied tree.entry)) (option_copied attr_leaf.entry) (option_copied link.entry)) }
{
    let place = attr_place(g, core, slot);
    match feature_of(alloc, g, ino, place, attr_leaf)? {
        Some(what) => Ok(FileRead::Unsupported { what }),
        None => by_core(alloc, g, ino, core, slot, tree, attr_leaf, link),
    }
}

/// What a slot in use reads as of which no feature is unsupported.
fn by_core(
    alloc: Global,
    g: &Geometry,
    ino: u64,
    core: &Core,
    slot: &[u8],
    tree: Option<&Tree<Bmbt>>,
    attr_leaf: Option<&[u8]>,
    link: Option<&[u8]>,
) -> Result<FileRead, NoMemory>
    requires slot { length slot.now ≡ 512 }
    requires attr_leaf { IfSome (option_copied attr_leaf) (λ block. length block ≡ 4096) }
    requires link { IfSome (option_copied link) (λ block. length block ≡ 4096) }
    ensures { IfOk result (λ read. read ≡ by_core (volume_of g.now) ino core.now slot.now (option_map contents_of (option_copied tree.entry)) (option_copied attr_leaf.entry) (option_copied link.entry)) }
{
    if !is_core(core) {
        return Ok(FileRead::Unsound);
    }
    let held = data_fork(alloc, core, slot, tree)?;
    with_data(alloc, g, ino, core, slot, attr_leaf, link, held)
}

/// What a slot in use reads as by its data fork.
fn with_data(
    alloc: Global,
    g: &Geometry,
    ino: u64,
    core: &Core,
    slot: &[u8],
    attr_leaf: Option<&[u8]>,
    link: Option<&[u8]>,
    held: Option<DataHeld>,
) -> Result<FileRead, NoMemory>
    requires slot { length slot.now ≡ 512 }
    requires forkoff { core.now.forkoff ≤ 41 }
    requires fits { core.now.format ≡ 1 → core.now.size ≤ 336 }
    requires attr_leaf { IfSome (option_copied attr_leaf) (λ block. length block ≡ 4096) }
    requires link { IfSome (option_copied link) (λ block. length block ≡ 4096) }
    ensures { IfOk result (λ read. read ≡ with_data (volume_of g.now) ino core.now slot.now (option_copied attr_leaf.entry) (option_copied link.entry) held) }
{
    match held {
        Some(held) => with_held(alloc, g, ino, core, slot, attr_leaf, link, held),
        None => Ok(FileRead::Unsound),
    }
}

/// What a slot in use reads as whose data fork reads.
fn with_held(
    alloc: Global,
    g: &Geometry,
    ino: u64,
    core: &Core,
    slot: &[u8],
    attr_leaf: Option<&[u8]>,
    link: Option<&[u8]>,
    held: DataHeld,
) -> Result<FileRead, NoMemory>
    requires slot { length slot.now ≡ 512 }
    requires forkoff { core.now.forkoff ≤ 41 }
    requires fits { core.now.format ≡ 1 → core.now.size ≤ 336 }
    requires attr_leaf { IfSome (option_copied attr_leaf) (λ block. length block ≡ 4096) }
    requires link { IfSome (option_copied link) (λ block. length block ≡ 4096) }
    ensures { IfOk result (λ read. read ≡ with_held (volume_of g.now) ino core.now slot.now (option_copied attr_leaf.entry) (option_copied link.entry) held) }
{
    let whole = match is_whole_fork(alloc, g, ino, core, slot, link, &held) {
        Ok(whole) => whole,
        Err(_) => {
            drop(held);
            return Err(NoMemory);
        }
    };
    if !whole {
        drop(held);
        return Ok(FileRead::Unsound);
    }
    with_attr_fork(alloc, g, ino, core, slot, attr_leaf, link, held)
}

/// What a slot in use reads as of which all but the attributes is that of a file.
fn with_attr_fork(
    alloc: Global,
    g: &Geometry,
    ino: u64,
    core: &Core,
    slot: &[u8],
    attr_leaf: Option<&[u8]>,
    link: Option<&[u8]>,
    held: DataHeld,
) -> Result<FileRead, NoMemory>
    requires slot { length slot.now ≡ 512 }
    requires forkoff { core.now.forkoff ≤ 41 }
    requires fits { core.now.format ≡ 1 → core.now.size ≤ 336 }
    requires short { core_type core.now ≡ 10 → core.now.format ≡ 2 → core.now.size ≤ 1024 }
    requires placed { is_placed (volume_of g.now) held ≡ true }
    requires attr_leaf { IfSome (option_copied attr_leaf) (λ block. length block ≡ 4096) }
    requires link { IfSome (option_copied link) (λ block. length block ≡ 4096) }
    ensures { IfOk result (λ read. read ≡ with_attrs (volume_of g.now) ino core.now slot.now (option_copied link.entry) held (attr_fork (volume_of g.now) ino core.now slot.now (option_copied attr_leaf.entry))) }
{
    match attr_fork(alloc, g, ino, core, slot, attr_leaf) {
        Ok(fork) => with_attrs(alloc, g, ino, core, slot, link, held, fork),
        Err(NoMemory) => {
            drop(held);
            Err(NoMemory)
        }
    }
}

/// Whether all but the attributes is that of a file.
fn is_whole_fork(
    alloc: Global,
    g: &Geometry,
    ino: u64,
    core: &Core,
    slot: &[u8],
    link: Option<&[u8]>,
    held: &DataHeld,
) -> Result<bool, AllocError>
    requires slot { length slot.now ≡ 512 }
    requires link { IfSome (option_copied link) (λ block. length block ≡ 4096) }
    ensures value { IfOk result (λ whole. whole ≡ is_whole_fork (volume_of g.now) ino core.now slot.now (option_copied link.entry) held.now) }
    ensures placed { IfOk result (λ whole. whole ≡ true → is_placed (volume_of g.now) held.now ≡ true) }
    ensures short { IfOk result (λ whole. whole ≡ true → core_type core.now ≡ 10 → core.now.format ≡ 2 → core.now.size ≤ 1024) }
{
    if !has_link_target(g, ino, core, slot, link) {
        return Ok(false);
    }
    lies_apart(alloc, g, held)
}

/// Whether what a data fork holds lies in the volume, and no block in two of its runs.
fn lies_apart(alloc: Global, g: &Geometry, held: &DataHeld) -> Result<bool, AllocError>
    ensures value { IfOk result (λ apart. apart ≡ (is_placed (volume_of g.now) held.now && ranges_apart (ranges_of (volume_of g.now) held.now))) }
    ensures placed { IfOk result (λ apart. apart ≡ true → is_placed (volume_of g.now) held.now ≡ true) }
{
    if !is_placed(g, held) {
        return Ok(false);
    }
    ranges_apart(alloc, g, held)
}
