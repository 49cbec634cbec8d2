//! The objects of a new volume: what asks for blocks.

ghost use Rattle.std.specs.Prelude.{◌≡◌, ◌<◌, ◌^◌, ◌++◌, length, IfOk, OnOk};
ghost use Rattle.std.specs.Option.{option_copied};
ghost use Rattle.xfs_geom.specs.Volumes.{volume_of};
ghost use Rattle.xfs_filled.specs.Directories.{IsSoundWhere};
ghost use Rattle.xfs_filled.specs.Objects.{all_objects, blocks_of_length, directory_runs, objects_of_place, object_kind, run_of, runs_at, target_blocks};
ghost use Rattle.xfs_filled.specs.Sites.{IsSite};

use crate::directories::{FORK_ROOM, MadeDirectory};
use crate::site::{Site, content_at, directory_at, ino_at};
use std::alloc::Global;
use xfs_disk::{BLOCK_SIZE, NoMemory};
use xfs_place::{Object, ObjectKind, RunAsk};
use xfs_proto::ProtoKind;
use xfs_volume::Records;

/// The first index block and the first free block of a directory, in its file (chapter "Directories").
const INDEX_BLOCK: u64 = 0x80_0000;

const FREE_BLOCK: u64 = 0x100_0000;

/// How many extents a fork without attributes holds.
const MOST_RUNS: u32 = 21;

/// The objects of all files that have blocks: directories, and behind them the others.
pub fn list_objects(alloc: Global, site: &Site<'_>) -> Result<Vec<Object>, NoMemory>
    requires site { IsSite site.now.geometry.now site.now.starts.now site.now.nodes.now site.now.contents.now site.now.directories.now site.now.order.now }
    ensures { IfOk result (λ objects. objects.items ≡ all_objects (volume_of site.now.geometry.now) site.now.starts.now site.now.nodes.now site.now.contents.now) }
{
    let mut objects = Vec::new(alloc);
    for k in site.order {
        push_object(alloc, site, *k, &mut objects)?;
    }
    Ok(objects)
}

/// Adds the object of the file at a place, where it has blocks.
fn push_object(
    alloc: Global,
    site: &Site<'_>,
    k: usize,
    objects: &mut Vec<Object>,
) -> Result<(), NoMemory>
    requires site { IsSite site.now.geometry.now site.now.starts.now site.now.nodes.now site.now.contents.now site.now.directories.now site.now.order.now }
    requires inside { k < length site.now.nodes.now }
    ensures { OnOk result (objects.new.items ≡ objects.old.items
        ++ objects_of_place (volume_of site.now.geometry.now) site.now.starts.now site.now.nodes.now site.now.contents.now k) }
{
    let runs = runs_at(alloc, site, k)?;
    if runs.len() != 0 {
        objects.push(Object {
            ino: ino_at(site, k),
            kind: object_kind(&site.nodes[k].kind),
            runs: Records::from_vec(runs),
            most: MOST_RUNS,
        })?;
    }
    Ok(())
}

/// What the object of a file is.
fn object_kind(kind: &ProtoKind) -> ObjectKind
    ensures { result ≡ object_kind kind.now }
{
    match kind {
        ProtoKind::Directory => ObjectKind::Directory,
        ProtoKind::Link(_) => ObjectKind::Symlink,
        ProtoKind::Regular { .. }
        | ProtoKind::Block { .. }
        | ProtoKind::Character { .. }
        | ProtoKind::Pipe => ObjectKind::Data,
    }
}

/// The runs that the file at a place asks for.
fn runs_at(alloc: Global, site: &Site<'_>, k: usize) -> Result<Vec<RunAsk>, NoMemory>
    requires site { IsSite site.now.geometry.now site.now.starts.now site.now.nodes.now site.now.contents.now site.now.directories.now site.now.order.now }
    requires inside { k < length site.now.nodes.now }
    ensures { IfOk result (λ runs. runs.items ≡ runs_at (volume_of site.now.geometry.now) site.now.starts.now site.now.nodes.now site.now.contents.now k) }
{
    let ino = ino_at(site, k);
    let mut runs = Vec::new(alloc);
    match &site.nodes[k].kind {
        ProtoKind::Regular { .. } => {
            push_run(blocks_for(content_at(site, k).len()), ino, 0, &mut runs)?;
        }
        ProtoKind::Directory => push_directory(directory_at(site, k), ino, &mut runs)?,
        ProtoKind::Link(target) => push_run(target_blocks(target.bytes()), ino, 0, &mut runs)?,
        ProtoKind::Block { .. } | ProtoKind::Character { .. } | ProtoKind::Pipe => {}
    }
    Ok(runs)
}

/// Adds the runs of a directory.
fn push_directory(
    directory: Option<&MadeDirectory>,
    ino: u64,
    runs: &mut Vec<RunAsk>,
) -> Result<(), NoMemory>
    requires few { IsSoundWhere (option_copied directory) }
    ensures { OnOk result (runs.new.items ≡ runs.old.items ++ directory_runs ino (option_copied directory.entry)) }
{
    let Some(made) = directory else {
        return Ok(());
    };
    push_run(made.data_blocks as u32, ino, 0, runs)?;
    push_run(made.index_blocks as u32, ino, INDEX_BLOCK, runs)?;
    push_run(made.free_blocks as u32, ino, FREE_BLOCK, runs)
}

/// Adds a run of so many blocks, where there are some.
fn push_run(
    blocks: u32,
    owner: u64,
    offset_word: u64,
    runs: &mut Vec<RunAsk>,
) -> Result<(), NoMemory>
    ensures { OnOk result (runs.new.items ≡ runs.old.items ++ run_of blocks owner offset_word) }
{
    if blocks != 0 {
        runs.push(RunAsk {
            blocks,
            owner,
            offset_word,
        })?;
    }
    Ok(())
}

/// How many blocks so many bytes ask for.
pub fn blocks_for(bytes: usize) -> u32
    requires { bytes < 2 ^ 63 }
    ensures { result ≡ blocks_of_length bytes }
{
    ((bytes + BLOCK_SIZE - 1) / BLOCK_SIZE).min(u32::MAX as usize) as u32
}

/// How many blocks a target has outside its inode.
pub fn target_blocks(target: &[u8]) -> u32
    ensures { result ≡ target_blocks target.now }
{
    if target.len() <= FORK_ROOM { 0 } else { 1 }
}
