//! The blocks of a volume, rendered.

ghost use Rattle.std.specs.Prelude.{◌≡◌, ◌≤◌, ◌<◌, ◌+◌, ◌^◌, [], ◌∷◌, length, IfOk, OnOk, MatchOption};
ghost use Rattle.xfs_geom.specs.Volumes.{volume_of};
ghost use Rattle.xfs_render.specs.Drafts.{IsDraft};
ghost use Rattle.xfs_render.specs.NewBlocks.{AreReaches};
ghost use Rattle.xfs_render.specs.Objects.{object_blocks};
ghost use Rattle.xfs_render.specs.Plans.{IsArranged};
ghost use Rattle.xfs_render.specs.Rendering.{AddsBlank, AddsGroups, AddsPlaces, IsDueSuper, IsPlaceDue, IsReady, IsRendered, group_placed, is_put, wanted_inodes, old_at, byte_place};
ghost use Rattle.xfs_render.specs.Trees.{AddsTrees};
ghost use Rattle.xfs_render.specs.declared.plan.Plan.{Plan};

use crate::arranging::arrange;
use crate::bytes::Bytes;
use crate::clusters::put_cluster;
use crate::draft::Draft;
use crate::header_block::put_headers;
use crate::log::add_log;
use crate::new_blocks::{Reach, lies_in_runs, list_reaches};
use crate::object_blocks::{ObjectBlock, object_blocks};
use crate::objects::add_objects;
use crate::plan::Plan;
use crate::trees::add_trees;
use std::alloc::Global;
use std::marker::Sync;
use std::thread::Threads;
use xfs_disk::{BLOCK_SIZE, Gate, NoMemory};
use xfs_geom::{Geometry, InoRec, write_super};
use xfs_place::{GroupPlaced, Placed, Wanted};

/// The blocks of a volume that is written anew: the trees of its groups and the first block of each with superblock and
/// headers, the blocks of objects that are written, those of all clusters, and the log where it is to be blank. Each place
/// is planned once, those that nothing kept stands on first. The log takes two blocks of memory.
///
/// `NoMemory` where memory is wanting.
pub fn render<R: Threads + Sync, G: Gate>(
    _rt: &R,
    alloc: Global,
    wanted: &Wanted,
    placed: &Placed,
    bytes: &Bytes,
    _workers: u32,
    gate: &G,
) -> Result<Plan, NoMemory>
    requires { IsReady wanted.now placed.now bytes.now }
    ensures { IfOk result (λ plan. IsRendered wanted.now placed.now bytes.now plan) }
{
    gate.enter(0);
    let mut sector = [0; 512];
    write_super(&bytes.sector, &placed.counts, &mut sector);
    let objects = object_blocks(alloc, wanted, placed)?;
    let reaches = list_reaches(alloc, wanted.geometry.dblocks, wanted.new.as_slice())?;
    let work = Work {
        wanted,
        placed,
        bytes,
        sector: &sector,
        reaches: &reaches,
    };
    render_work(alloc, &work, &objects)
}

/// The blocks of a volume, of which those of objects have their places.
fn render_work(alloc: Global, work: &Work<'_>, objects: &[ObjectBlock]) -> Result<Plan, NoMemory>
    requires ready { IsReady work.now.wanted.now work.now.placed.now work.now.bytes.now }
    requires due { IsDueSuper work.now.wanted.now work.now.placed.now work.now.bytes.now work.now.sector.now }
    requires sector { length work.now.sector.now ≡ 512 }
    requires reaches { AreReaches work.now.wanted.now.new work.now.reaches.now }
    requires objects { objects.now ≡ object_blocks work.now.wanted.now work.now.placed.now }
    ensures { IfOk result (λ plan. IsRendered work.now.wanted.now work.now.placed.now work.now.bytes.now plan) }
{
    let mut draft = Draft::make(alloc)?;
    let first = fill_draft(alloc, work, objects, &mut draft)?;
    Ok(arrange(alloc, draft, first)?)
}

/// Puts down all blocks, and says how many of them nothing kept stands on.
fn fill_draft(
    alloc: Global,
    work: &Work<'_>,
    objects: &[ObjectBlock],
    draft: &mut Draft,
) -> Result<usize, NoMemory>
    requires ready { IsReady work.now.wanted.now work.now.placed.now work.now.bytes.now }
    requires due { IsDueSuper work.now.wanted.now work.now.placed.now work.now.bytes.now work.now.sector.now }
    requires sector { length work.now.sector.now ≡ 512 }
    requires reaches { AreReaches work.now.wanted.now.new work.now.reaches.now }
    requires objects { objects.now ≡ object_blocks work.now.wanted.now work.now.placed.now }
    requires draft { IsDraft draft.old }
    requires none { draft.old.rows.items ≡ [] }
    requires empty { draft.old.bank ≡ [] }
    ensures draft { IfOk result (λ first. IsDraft draft.new) }
    ensures inside { IfOk result (λ first. first ≤ length draft.new.rows.items) }
    ensures rendered { IfOk result (λ first. (plan : Plan) → IsArranged draft.new first plan → IsRendered work.now.wanted.now work.now.placed.now work.now.bytes.now plan) }
{
    add_groups(alloc, work.wanted, work.placed, work.bytes, draft)?;
    add_objects(&work.wanted.geometry, objects, &work.bytes.objects, draft)?;
    add_places(work, true, draft)?;
    let first = draft.rows.len();
    add_places(work, false, draft)?;
    add_blank(work.wanted, work.bytes.cycle, draft)?;
    Ok(first)
}

/// What blocks are made of.
#[derive(Clone, Copy)]
struct Work<'a> {
    wanted: &'a Wanted,
    placed: &'a Placed,
    bytes: &'a Bytes,
    /// The superblock that is due.
    sector: &'a [u8],
    /// How far the runs of new chunks reach.
    reaches: &'a [Reach],
}

/// The records of inodes of a group.
fn wanted_inodes(wanted: &Wanted, ag: u32) -> &[InoRec]
    requires { ag < length wanted.now.inodes }
    ensures { result.now ≡ wanted_inodes wanted.now ag }
{
    wanted.inodes.as_slice()[ag as usize].records.as_slice()
}

/// What is placed in a group.
fn group_placed(placed: &Placed, ag: u32) -> &GroupPlaced
    requires { ag < length placed.now.groups }
    ensures { result.now ≡ group_placed placed.now ag }
{
    &placed.groups.as_slice()[ag as usize]
}

/// The number of the block at a place, by its index.
fn byte_place(bytes: &Bytes, i: usize) -> u64
    requires { i < length bytes.now.places }
    ensures { result ≡ byte_place bytes.now i }
{
    bytes.places.as_slice()[i]
}

/// The bytes that it had.
fn old_at(bytes: &Bytes, i: usize) -> &[u8]
    requires { i < length bytes.now.old }
    ensures value { result.now ≡ old_at bytes.now i }
    ensures size { length result.now ≡ 4096 }
{
    bytes.old.view(i)
}

/// Puts down the trees of all groups.
fn add_groups(
    alloc: Global,
    wanted: &Wanted,
    placed: &Placed,
    bytes: &Bytes,
    draft: &mut Draft,
) -> Result<(), NoMemory>
    requires ready { IsReady wanted.now placed.now bytes.now }
    requires draft { IsDraft draft.old }
    ensures { OnOk result (AddsGroups wanted.now placed.now wanted.now.geometry.agcount draft.old draft.new) }
{
    let g = &wanted.geometry;
    for ag in 0..g.agcount {
        add_trees(
            alloc,
            g,
            ag,
            wanted_inodes(wanted, ag),
            group_placed(placed, ag),
            draft,
        )?;
    }
    Ok(())
}

/// Puts down the first blocks of groups and the blocks of clusters that are fresh, or those that are not.
fn add_places(work: &Work<'_>, fresh: bool, draft: &mut Draft) -> Result<(), NoMemory>
    requires ready { IsReady work.now.wanted.now work.now.placed.now work.now.bytes.now }
    requires sector { length work.now.sector.now ≡ 512 }
    requires reaches { AreReaches work.now.wanted.now.new work.now.reaches.now }
    requires draft { IsDraft draft.old }
    ensures { OnOk result (AddsPlaces work.now.wanted.now work.now.placed.now work.now.bytes.now work.now.sector.now fresh 0 (length work.now.bytes.now.places)
        work.now.bytes.now.places draft.old draft.new) }
{
    for i in 0..work.bytes.places.as_slice().len() {
        add_place(work, fresh, i, draft)?;
    }
    Ok(())
}

/// Puts down the block at a place, where it is fresh, or where it is not.
fn add_place(work: &Work<'_>, fresh: bool, i: usize, draft: &mut Draft) -> Result<(), NoMemory>
    requires ready { IsReady work.now.wanted.now work.now.placed.now work.now.bytes.now }
    requires sector { length work.now.sector.now ≡ 512 }
    requires reaches { AreReaches work.now.wanted.now.new work.now.reaches.now }
    requires inside { i < length work.now.bytes.now.places }
    requires draft { IsDraft draft.old }
    ensures { OnOk result (AddsPlaces work.now.wanted.now work.now.placed.now work.now.bytes.now work.now.sector.now fresh i (i + 1)
        (byte_place work.now.bytes.now i ∷ []) draft.old draft.new) }
{
    let place = byte_place(work.bytes, i);
    if is_put(work, fresh, place) {
        let mut block = [0; BLOCK_SIZE];
        put_place(work, i, &mut block);
        draft.add_block(place, &block)?;
    }
    Ok(())
}

/// Whether a place is fresh, or whether it is not.
fn is_put(work: &Work<'_>, fresh: bool, place: u64) -> bool
    requires { AreReaches work.now.wanted.now.new work.now.reaches.now }
    ensures { result ≡ is_put work.now.wanted.now fresh place }
{
    let new = lies_in_runs(work.reaches, place);
    if fresh { new } else { !new }
}

/// Writes the block at a place: the first one of its group, or one of a cluster.
fn put_place(work: &Work<'_>, i: usize, block: &mut [u8])
    requires ready { IsReady work.now.wanted.now work.now.placed.now work.now.bytes.now }
    requires sector { length work.now.sector.now ≡ 512 }
    requires inside { i < length work.now.bytes.now.places }
    requires block { length block.old ≡ 4096 }
    ensures due { IsPlaceDue work.now.wanted.now work.now.placed.now work.now.bytes.now work.now.sector.now i block.new }
{
    let g = &work.wanted.geometry;
    let place = byte_place(work.bytes, i);
    let old = old_at(work.bytes, i);
    if place % g.agblocks as u64 == 0 {
        let ag = (place / g.agblocks as u64) as u32;
        put_headers(
            g,
            ag,
            wanted_inodes(work.wanted, ag),
            group_placed(work.placed, ag),
            work.sector,
            old,
            block,
        );
    } else {
        put_cluster(
            g,
            place,
            work.bytes.slots.as_slice(),
            &work.bytes.stamp,
            old,
            block,
        );
    }
}

/// Puts down the blocks of the log, where it is to be blank.
fn add_blank(wanted: &Wanted, cycle: Option<u32>, draft: &mut Draft) -> Result<(), NoMemory>
    requires cycle { MatchOption cycle (Unit {0}) (λ n. (1 ≤ n) × (n < 2 ^ 31)) }
    requires draft { IsDraft draft.old }
    ensures { OnOk result (AddsBlank wanted.now cycle draft.old draft.new) }
{
    if let Some(cycle) = cycle {
        add_log(&wanted.geometry, cycle, draft)?;
    }
    Ok(())
}
