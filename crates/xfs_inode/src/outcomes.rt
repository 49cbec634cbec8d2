//! What a slot reads as whose data fork is that of a file.

ghost use Rattle.std.specs.Prelude.{◌≡◌, ℕ, ◌≤◌, ◌&&◌, length, true, Some, IfSome, IfOk};
ghost use Rattle.std.specs.Option.{option_copied};
ghost use Rattle.xfs_geom.specs.Volumes.{volume_of};
ghost use Rattle.xfs_inode.specs.Forks.{core_type};
ghost use Rattle.xfs_inode.specs.Files.{file_record, has_leaf, is_off_attributes, is_counted, is_placed, no_attrs, with_attrs};
ghost use Rattle.xfs_inode.specs.Private.Steps.{by_counts, without_leaf};
ghost use Rattle.xfs_inode.specs.declared.files.FileRead.TheVariants as Reads;

use crate::attributes::AttrHeld;
use crate::counts::{is_counted, is_off_attributes};
use crate::files::FileRead;
use crate::held::DataHeld;
use crate::records::file_record;
use std::alloc::{AllocError, Global};
use xfs_disk::NoMemory;
use xfs_geom::Geometry;
use xfs_volume::Core;

/// What a slot reads as by its attribute fork.
pub fn with_attrs(
    alloc: Global,
    g: &Geometry,
    ino: u64,
    core: &Core,
    slot: &[u8],
    link: Option<&[u8]>,
    held: DataHeld,
    fork: Option<AttrHeld>,
) -> Result<FileRead, NoMemory>
    requires slot { length slot.now ≡ 512 }
    requires link { IfSome (option_copied link) (λ block. length block ≡ 4096) }
    requires fits { core.now.format ≡ 1 → core.now.size ≤ 336 }
    requires short { core_type core.now ≡ 10 → core.now.format ≡ 2 → core.now.size ≤ 1024 }
    requires placed { is_placed (volume_of g.now) held ≡ true }
    ensures { IfOk result (λ read. read ≡ with_attrs (volume_of g.now) ino core.now slot.now (option_copied link.entry) held fork) }
{
    match fork {
        None => without_attrs(alloc, ino, core, slot, link, held),
        Some(fork) => with_fork(alloc, g, ino, core, slot, link, held, fork),
    }
}

/// What a slot reads as whose attributes can't be kept.
fn without_attrs(
    alloc: Global,
    ino: u64,
    core: &Core,
    slot: &[u8],
    link: Option<&[u8]>,
    held: DataHeld,
) -> Result<FileRead, NoMemory>
    requires slot { length slot.now ≡ 512 }
    requires link { IfSome (option_copied link) (λ block. length block ≡ 4096) }
    requires fits { core.now.format ≡ 1 → core.now.size ≤ 336 }
    requires short { core_type core.now ≡ 10 → core.now.format ≡ 2 → core.now.size ≤ 1024 }
    ensures { IfOk result (λ read. read ≡ Reads.FileWithoutAttrs (file_record ino core.now slot.now (option_copied link.entry) held no_attrs)) }
{
    let file = file_record(alloc, ino, core, slot, link, held, AttrHeld::none(alloc))?;
    Ok(FileRead::FileWithoutAttrs(file))
}

/// What a slot reads as whose attribute fork reads.
fn with_fork(
    alloc: Global,
    g: &Geometry,
    ino: u64,
    core: &Core,
    slot: &[u8],
    link: Option<&[u8]>,
    held: DataHeld,
    fork: AttrHeld,
) -> Result<FileRead, NoMemory>
    requires slot { length slot.now ≡ 512 }
    requires link { IfSome (option_copied link) (λ block. length block ≡ 4096) }
    requires fits { core.now.format ≡ 1 → core.now.size ≤ 336 }
    requires short { core_type core.now ≡ 10 → core.now.format ≡ 2 → core.now.size ≤ 1024 }
    requires placed { is_placed (volume_of g.now) held ≡ true }
    ensures { IfOk result (λ read. read ≡ with_attrs (volume_of g.now) ino core.now slot.now (option_copied link.entry) held (Some fork)) }
{
    match is_settled(alloc, g, core, &held, &fork) {
        Ok(settled) => by_counts(alloc, ino, core, slot, link, held, fork, settled),
        Err(_) => {
            drop(held);
            drop(fork);
            Err(NoMemory)
        }
    }
}

/// The same where it is known whether its blocks are counted, and those of attributes have no other use.
fn by_counts(
    alloc: Global,
    ino: u64,
    core: &Core,
    slot: &[u8],
    link: Option<&[u8]>,
    held: DataHeld,
    fork: AttrHeld,
    settled: bool,
) -> Result<FileRead, NoMemory>
    requires slot { length slot.now ≡ 512 }
    requires link { IfSome (option_copied link) (λ block. length block ≡ 4096) }
    requires fits { core.now.format ≡ 1 → core.now.size ≤ 336 }
    requires short { core_type core.now ≡ 10 → core.now.format ≡ 2 → core.now.size ≤ 1024 }
    ensures { IfOk result (λ read. read ≡ by_counts ino core.now slot.now (option_copied link.entry) held fork settled) }
{
    if settled {
        return whole_file(alloc, ino, core, slot, link, held, fork);
    }
    let leaf = has_leaf(&fork);
    drop(fork);
    unsettled(alloc, ino, core, slot, link, held, leaf)
}

/// What a slot reads as of which all reads.
fn whole_file(
    alloc: Global,
    ino: u64,
    core: &Core,
    slot: &[u8],
    link: Option<&[u8]>,
    held: DataHeld,
    fork: AttrHeld,
) -> Result<FileRead, NoMemory>
    requires slot { length slot.now ≡ 512 }
    requires link { IfSome (option_copied link) (λ block. length block ≡ 4096) }
    requires fits { core.now.format ≡ 1 → core.now.size ≤ 336 }
    requires short { core_type core.now ≡ 10 → core.now.format ≡ 2 → core.now.size ≤ 1024 }
    ensures { IfOk result (λ read. read ≡ Reads.File (file_record ino core.now slot.now (option_copied link.entry) held fork)) }
{
    let file = file_record(alloc, ino, core, slot, link, held, fork)?;
    Ok(FileRead::File(file))
}

/// What a slot reads as whose attribute fork is at odds with its other blocks.
fn unsettled(
    alloc: Global,
    ino: u64,
    core: &Core,
    slot: &[u8],
    link: Option<&[u8]>,
    held: DataHeld,
    leaf: bool,
) -> Result<FileRead, NoMemory>
    requires slot { length slot.now ≡ 512 }
    requires link { IfSome (option_copied link) (λ block. length block ≡ 4096) }
    requires fits { core.now.format ≡ 1 → core.now.size ≤ 336 }
    requires short { core_type core.now ≡ 10 → core.now.format ≡ 2 → core.now.size ≤ 1024 }
    ensures { IfOk result (λ read. read ≡ without_leaf ino core.now slot.now (option_copied link.entry) held leaf) }
{
    if leaf {
        return without_attrs(alloc, ino, core, slot, link, held);
    }
    drop(held);
    Ok(FileRead::Unsound)
}

/// Whether the blocks are counted, and those of attributes have no other use in the file.
fn is_settled(
    alloc: Global,
    g: &Geometry,
    core: &Core,
    held: &DataHeld,
    fork: &AttrHeld,
) -> Result<bool, AllocError>
    requires { is_placed (volume_of g.now) held.now ≡ true }
    ensures { IfOk result (λ settled. settled ≡ (is_counted core.now held.now fork.now && is_off_attributes (volume_of g.now) held.now fork.now)) }
{
    if !is_counted(core, held, fork) {
        return Ok(false);
    }
    is_off_attributes(alloc, g, held, fork)
}

/// Whether an attribute fork has a leaf.
fn has_leaf(fork: &AttrHeld) -> bool
    ensures { result ≡ has_leaf fork.now }
{
    fork.blocks().len() != 0
}
