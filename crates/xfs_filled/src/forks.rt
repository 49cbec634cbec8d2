//! The data forks of the inodes of a new volume.

ghost use Rattle.std.specs.Prelude.{◌≡◌, ◌+◌, ◌*◌, ◌<◌, ◌≤◌, ◌^◌, ◌++◌, length, All, IfOk, OnOk};
ghost use Rattle.std.specs.List.{flat_map};
ghost use Rattle.std.specs.Option.{option_copied};
ghost use Rattle.xfs_geom.specs.Volumes.{volume_of};
ghost use Rattle.xfs_word.specs.Extent.{IsPackable};
ghost use Rattle.xfs_word.specs.declared.extents.Extent.{Extent};
ghost use Rattle.xfs_place.specs.Pool.{IsRunOf};
ghost use Rattle.xfs_filled.specs.Directories.{IsSoundWhere};
ghost use Rattle.xfs_filled.specs.FileTrees.{CanHold};
ghost use Rattle.xfs_filled.specs.Forks.{HasOffset, device_bytes, device_fork, directory_fork, extent_fork, extent_of_piece, extents_of_run, fork_of_kind, local_fork, target_fork};

use crate::content::Content;
use crate::directories::{FORK_ROOM, MadeDirectory};
use std::alloc::Global;
use xfs_disk::{BLOCK_SIZE, NoMemory, Word};
use xfs_geom::{Geometry, Run};
use xfs_inodebuild::ForkWanted;
use xfs_proto::ProtoKind;
use xfs_word::{Extent, pack_extent};

/// The most blocks of an extent (chapter "Data Extents").
const MOST_EXTENT: u64 = 2_097_151;

/// The bits of an offset word that are an offset (chapter "Reverse-Mapping B+tree").
const OFFSETS: u64 = 1 << 61;

/// The lower numbers of a device: they have 18 bits.
const MINORS: u32 = 1 << 18;

/// The extents of runs, in order.
pub fn list_extents(alloc: Global, g: &Geometry, runs: &[Run]) -> Result<Vec<Extent>, NoMemory>
    requires inside { All (IsRunOf g.now.dblocks) runs.now }
    requires offsets { All HasOffset runs.now }
    ensures value { IfOk result (λ extents. extents.items ≡ flat_map (extents_of_run (volume_of g.now)) runs.now) }
    ensures small { IfOk result (λ extents. All IsPackable extents.items) }
{
    let mut extents = Vec::new(alloc);
    for run in runs {
        push_extents(g, run, &mut extents)?;
    }
    Ok(extents)
}

/// Adds the extents of a run: each has at most 2,097,151 blocks.
fn push_extents(g: &Geometry, run: &Run, extents: &mut Vec<Extent>) -> Result<(), NoMemory>
    requires inside { run.now.start + run.now.count ≤ g.now.dblocks }
    requires offset { HasOffset run.now }
    requires small { All IsPackable extents.old.items }
    ensures value { OnOk result (extents.new.items ≡ extents.old.items ++ extents_of_run (volume_of g.now) run.now) }
    ensures small { OnOk result (All IsPackable extents.new.items) }
{
    for i in 0..(run.count + MOST_EXTENT - 1) / MOST_EXTENT {
        extents.push(extent_of(g, run, i))?;
    }
    Ok(())
}

/// An extent of a run.
fn extent_of(g: &Geometry, run: &Run, i: u64) -> Extent
    requires inside { run.now.start + run.now.count ≤ g.now.dblocks }
    requires some { i * 2097151 < run.now.count }
    requires offset { HasOffset run.now }
    ensures value { result ≡ extent_of_piece (volume_of g.now) run.now i }
    ensures small { IsPackable result }
{
    let first = i * MOST_EXTENT;
    Extent {
        offset: run.offset_word % OFFSETS + first,
        start: g.address_of_block(run.start + first),
        count: MOST_EXTENT.min(run.count - first),
        unwritten: false,
    }
}

/// The fork of a file with these extents, or with what is built of it where it is a directory.
pub fn make_fork(
    alloc: Global,
    kind: &ProtoKind,
    directory: Option<&MadeDirectory>,
    content: &Content,
    extents: &[Extent],
) -> Result<ForkWanted, NoMemory>
    requires can { CanHold kind.now }
    requires directory { IsSoundWhere (option_copied directory) }
    requires extents { All IsPackable extents.now }
    requires few { length extents.now ≤ 21 }
    ensures { IfOk result (λ fork. fork ≡ fork_of_kind kind.now (option_copied directory.entry) content.now extents.now) }
{
    match kind {
        ProtoKind::Regular { .. } => extent_fork(alloc, content.len() as u64, extents),
        ProtoKind::Directory => directory_fork(alloc, directory, extents),
        ProtoKind::Link(target) => target_fork(alloc, target.bytes(), extents),
        ProtoKind::Block { major, minor } | ProtoKind::Character { major, minor } => {
            device_fork(alloc, &device_bytes(*major, *minor))
        }
        ProtoKind::Pipe => device_fork(alloc, &[]),
    }
}

/// The fork of a directory.
fn directory_fork(
    alloc: Global,
    directory: Option<&MadeDirectory>,
    extents: &[Extent],
) -> Result<ForkWanted, NoMemory>
    requires directory { IsSoundWhere (option_copied directory) }
    requires extents { All IsPackable extents.now }
    requires few { length extents.now ≤ 21 }
    ensures { IfOk result (λ fork. fork ≡ directory_fork (option_copied directory.entry) extents.now) }
{
    let Some(made) = directory else {
        return device_fork(alloc, &[]);
    };
    if made.data_blocks == 0 {
        local_fork(alloc, made.short.bytes())
    } else {
        extent_fork(alloc, BLOCK_SIZE as u64 * made.data_blocks, extents)
    }
}

/// The fork of a symbolic link.
fn target_fork(alloc: Global, target: &[u8], extents: &[Extent]) -> Result<ForkWanted, NoMemory>
    requires extents { All IsPackable extents.now }
    requires few { length extents.now ≤ 21 }
    ensures { IfOk result (λ fork. fork ≡ target_fork target.now extents.now) }
{
    if target.len() <= FORK_ROOM {
        local_fork(alloc, target)
    } else {
        extent_fork(alloc, target.len() as u64, extents)
    }
}

/// A fork that has the bytes of the file itself.
fn local_fork(alloc: Global, bytes: &[u8]) -> Result<ForkWanted, NoMemory>
    ensures { IfOk result (λ fork. fork ≡ local_fork bytes.now) }
{
    Ok(ForkWanted {
        format: 1,
        size: bytes.len() as u64,
        nblocks: 0,
        nextents: 0,
        bytes: Word::from_slice(alloc, bytes)?,
    })
}

/// The fork of a file without content.
fn device_fork(alloc: Global, bytes: &[u8]) -> Result<ForkWanted, NoMemory>
    ensures { IfOk result (λ fork. fork ≡ device_fork bytes.now) }
{
    Ok(ForkWanted {
        format: 0,
        size: 0,
        nblocks: 0,
        nextents: 0,
        bytes: Word::from_slice(alloc, bytes)?,
    })
}

/// The number of a device, as it stands in its fork.
fn device_bytes(major: u32, minor: u32) -> [u8; 4]
    requires bounds { (major < 2 ^ 14) × (minor < 2 ^ 18) }
    ensures { result ≡ device_bytes major minor }
{
    (major * MINORS + minor).to_be_bytes()
}

/// A fork of extents, of a file of so many bytes.
fn extent_fork(alloc: Global, size: u64, extents: &[Extent]) -> Result<ForkWanted, NoMemory>
    requires extents { All IsPackable extents.now }
    requires few { length extents.now ≤ 21 }
    ensures { IfOk result (λ fork. fork ≡ extent_fork size extents.now) }
{
    let mut bytes = Vec::new(alloc);
    let mut nblocks = 0;
    for extent in extents {
        bytes.extend_from_slice(&pack_extent(extent))?;
        nblocks += extent.count;
    }
    Ok(ForkWanted {
        format: 2,
        size,
        nblocks,
        nextents: extents.len() as u64,
        bytes: Word::from_vec(bytes),
    })
}
