//! The slots of the chunks of a new volume.

ghost use Rattle.std.specs.Prelude.{◌≡◌, ◌*◌, ◌<◌, ◌≤◌, ◌==◌, ◌||◌, length, IfOk};
ghost use Rattle.std.specs.List.{All, flat_map};
ghost use Rattle.std.specs.Option.{option_copied};
ghost use Rattle.xfs_geom.specs.Volumes.{volume_of};
ghost use Rattle.xfs_place.specs.Pool.{IsRunOf};
ghost use Rattle.xfs_filled.specs.FileTrees.{object_order};
ghost use Rattle.xfs_filled.specs.Forks.{HasOffset, extents_of_run};
ghost use Rattle.xfs_filled.specs.Numbers.{number_of};
ghost use Rattle.xfs_filled.specs.Sites.{IsSite};
ghost use Rattle.xfs_filled.specs.Slots.{all_slots, core_at, fork_of_place, links_of_made, made_slot, slot_of_index, slot_of_place};
ghost use Rattle.xfs_filled.specs.Spans.{AreRunsOf, HasSpans};

use crate::directories::MadeDirectory;
use crate::forks::{list_extents, make_fork};
use crate::numbers::{CHUNK_INODES, SYSTEM_INODES, inode_at};
use crate::site::{Site, content_at, directory_at, ino_at};
use crate::spans::{RunSpan, list_spans};
use std::alloc::Global;
use xfs_disk::{NoMemory, Stamp};
use xfs_empty::{fresh_core, system_slot, time_of, unused_slot};
use xfs_geom::Run;
use xfs_render::{SlotBase, SlotWanted};
use xfs_volume::Core;

/// What is wanted of the slots of all chunks, where all objects have these runs.
pub fn list_slots(
    alloc: Global,
    site: &Site<'_>,
    stamp: &Stamp,
    runs: &[Run],
) -> Result<Vec<SlotWanted>, NoMemory>
    requires site { IsSite site.now.geometry.now site.now.starts.now site.now.nodes.now site.now.contents.now site.now.directories.now site.now.order.now }
    requires inside { All (IsRunOf site.now.geometry.now.dblocks) runs.now }
    requires offsets { All HasOffset runs.now }
    requires runs { AreRunsOf (volume_of site.now.geometry.now) site.now.starts.now (object_order site.now.nodes.now) runs.now }
    ensures { IfOk result (λ slots. slots.items
        ≡ all_slots (volume_of site.now.geometry.now) stamp.now site.now.starts.now site.now.nodes.now site.now.contents.now runs.now) }
{
    let spans = list_spans(alloc, site, runs)?;
    let mut slots = Vec::with_capacity(alloc, CHUNK_INODES * site.starts.len())?;
    for j in 0..CHUNK_INODES * site.starts.len() {
        slots.push(slot_at(alloc, site, stamp, runs, &spans, j)?)?;
    }
    Ok(slots)
}

/// What is wanted of a slot: the root, the two system inodes, the other files, and behind these free inodes.
fn slot_at(
    alloc: Global,
    site: &Site<'_>,
    stamp: &Stamp,
    runs: &[Run],
    spans: &[RunSpan],
    j: usize,
) -> Result<SlotWanted, NoMemory>
    requires site { IsSite site.now.geometry.now site.now.starts.now site.now.nodes.now site.now.contents.now site.now.directories.now site.now.order.now }
    requires inside { All (IsRunOf site.now.geometry.now.dblocks) runs.now }
    requires offsets { All HasOffset runs.now }
    requires spans { HasSpans (volume_of site.now.geometry.now) site.now.starts.now (length site.now.nodes.now) runs.now spans.now }
    requires slot { j < 64 * length site.now.starts.now }
    ensures { IfOk result (λ slot. slot
        ≡ slot_of_index (volume_of site.now.geometry.now) stamp.now site.now.starts.now site.now.nodes.now site.now.contents.now runs.now j) }
{
    if is_system(j) {
        let ino = inode_at(site.geometry, site.starts, j);
        return Ok(system_slot(site.geometry, stamp, ino));
    }
    if j < site.nodes.len() + SYSTEM_INODES {
        let k = j.saturating_sub(SYSTEM_INODES);
        return spanned_slot(alloc, site, stamp, runs, spans, k);
    }
    Ok(unused_slot(inode_at(site.geometry, site.starts, j)))
}

/// What is wanted of the slot of the file at a place, by the spans of the runs.
fn spanned_slot(
    alloc: Global,
    site: &Site<'_>,
    stamp: &Stamp,
    runs: &[Run],
    spans: &[RunSpan],
    k: usize,
) -> Result<SlotWanted, NoMemory>
    requires site { IsSite site.now.geometry.now site.now.starts.now site.now.nodes.now site.now.contents.now site.now.directories.now site.now.order.now }
    requires file { k < length site.now.nodes.now }
    requires inside { All (IsRunOf site.now.geometry.now.dblocks) runs.now }
    requires offsets { All HasOffset runs.now }
    requires spans { HasSpans (volume_of site.now.geometry.now) site.now.starts.now (length site.now.nodes.now) runs.now spans.now }
    ensures { IfOk result (λ slot. slot
        ≡ slot_of_place (volume_of site.now.geometry.now) stamp.now site.now.starts.now site.now.nodes.now site.now.contents.now runs.now k) }
{
    let span = spans[k];
    let own = &runs[span.from..span.to];
    file_slot(alloc, site, stamp, own, k)
}

/// Whether an inode of the chunks is one of the two system inodes.
fn is_system(j: usize) -> bool
    ensures { result ≡ (j == 1 || j == 2) }
{
    j == 1 || j == SYSTEM_INODES
}

/// What is wanted of the slot of the file at a place.
fn file_slot(
    alloc: Global,
    site: &Site<'_>,
    stamp: &Stamp,
    runs: &[Run],
    k: usize,
) -> Result<SlotWanted, NoMemory>
    requires site { IsSite site.now.geometry.now site.now.starts.now site.now.nodes.now site.now.contents.now site.now.directories.now site.now.order.now }
    requires file { k < length site.now.nodes.now }
    requires inside { All (IsRunOf site.now.geometry.now.dblocks) runs.now }
    requires offsets { All HasOffset runs.now }
    requires few { length (flat_map (extents_of_run (volume_of site.now.geometry.now)) runs.now) ≤ 21 }
    ensures { IfOk result (λ slot. slot ≡ made_slot (number_of (volume_of site.now.geometry.now) site.now.starts.now k)
        (core_at (volume_of site.now.geometry.now) stamp.now site.now.starts.now site.now.nodes.now k)
        (fork_of_place (volume_of site.now.geometry.now) site.now.starts.now site.now.nodes.now site.now.contents.now (flat_map (extents_of_run (volume_of site.now.geometry.now)) runs.now) k)) }
{
    let kind = &site.nodes[k].kind;
    let extents = list_extents(alloc, site.geometry, runs)?;
    let fork = make_fork(
        alloc,
        kind,
        directory_at(site, k),
        content_at(site, k),
        &extents,
    )?;
    Ok(SlotWanted {
        ino: ino_at(site, k),
        base: SlotBase::Fresh(core_at(site, stamp, k)),
        drop_attrs: None,
        fork: Some(fork),
        nlink: None,
    })
}

/// The core of the file at a place, but for what goes with its content.
fn core_at(site: &Site<'_>, stamp: &Stamp, k: usize) -> Core
    requires site { IsSite site.now.geometry.now site.now.starts.now site.now.nodes.now site.now.contents.now site.now.directories.now site.now.order.now }
    requires inside { k < length site.now.nodes.now }
    ensures { result ≡ core_at (volume_of site.now.geometry.now) stamp.now site.now.starts.now site.now.nodes.now k }
{
    let node = &site.nodes[k];
    let ino = ino_at(site, k);
    Core {
        uid: node.uid,
        gid: node.gid,
        nlink: links_of(directory_at(site, k)),
        ..fresh_core(
            site.geometry,
            time_of(stamp),
            stamp.generation,
            ino,
            node.mode,
        )
    }
}

/// How many names a file has.
fn links_of(directory: Option<&MadeDirectory>) -> u32
    ensures { result ≡ links_of_made (option_copied directory.entry) }
{
    match directory {
        Some(made) => made.links,
        None => 1,
    }
}
