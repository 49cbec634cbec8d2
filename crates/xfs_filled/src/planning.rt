//! The plan of a new volume with files.

ghost use Rattle.std.specs.Prelude.{◌≡◌, ◌<◌, All, IfErr, IfOk, OnOk, length};
ghost use Rattle.xfs_geom.specs.Volumes.{stated_volume, volume_of};
ghost use Rattle.xfs_geom.specs.Writing.{IsAcceptedSector};
ghost use Rattle.xfs_render.specs.Drafts.{AreInBank};
ghost use Rattle.xfs_render.specs.Plans.{plan_rows, planned};
ghost use Rattle.xfs_empty.specs.Geometry.{HasFirstChunk};
ghost use Rattle.xfs_empty.specs.Planning.{HasRoom, StandsFor};
ghost use Rattle.xfs_place.specs.Objects.{ServeAsks, asks_of};
ghost use Rattle.xfs_filled.specs.Chunks.{chunk_starts, spared_list};
ghost use Rattle.xfs_filled.specs.FileTrees.{AreProtoNodes};
ghost use Rattle.xfs_filled.specs.Planning.{HoldsFiles, IsFilledCause, IsFilledPlan, IsSiteCause};
ghost use Rattle.xfs_filled.specs.Sites.{IsSite};
ghost use Rattle.xfs_filled.specs.Wanting.{bytes_with, filled_wanted, wanted_by_chunks};

use crate::bytes::make_bytes;
use crate::chunks::place_chunks;
use crate::content::Content;
use crate::directories::list_directories;
use crate::site::{Site, list_order};
use crate::wanting::make_wanted;
use std::alloc::Global;
use std::marker::Sync;
use std::thread::Threads;
use xfs_disk::{NoGate, NoMemory, Stamp};
use xfs_geom::Geometry;
use xfs_place::{PlaceFault, Placed, Wanted, place};
use xfs_proto::ProtoNode;
use xfs_render::{Bytes, Plan, chunks_are_few, placed_is_ready, render};
use xfs_volume::Records;

/// How many threads render.
const WORKERS: u32 = 4;

/// The blocks of a new volume of this geometry with this superblock and these files, depth first, of which each regular one has
/// its bytes: the root is inode 128, the two system inodes follow it, and behind them the other files have the inodes of the
/// chunks in order. The first chunk stands at blocks 16 to 23, the others on the lowest blocks that serve; then directories that
/// are not short, and behind them files and long targets, by number; each group keeps room for its trees.
///
/// `NoRoom` of a chunk, of the first object or of the first group that finds none; `NoMemory` where memory is wanting.
pub fn plan_filled<R: Threads + Sync>(
    rt: &R,
    alloc: Global,
    g: &Geometry,
    sector: &[u8; 512],
    stamp: &Stamp,
    nodes: &[ProtoNode],
    contents: &[Content],
) -> Result<Plan, PlaceFault>
    requires accepted { IsAcceptedSector sector.now }
    requires states { stated_volume sector.now ≡ volume_of g.now }
    requires chunk { HasFirstChunk (volume_of g.now) }
    requires files { AreProtoNodes nodes.now }
    requires contents { length contents.now ≡ length nodes.now }
    ensures rendered { IfOk result (λ plan. IsFilledPlan g.now sector.now stamp.now nodes.now contents.now plan) }
    ensures inside { IfOk result (λ plan. All (λ place. place < g.now.dblocks) (planned plan)) }
    ensures held { IfOk result (λ plan. AreInBank (plan_rows plan) plan.bank) }
    ensures room { OnOk result (HoldsFiles g.now nodes.now contents.now) }
    ensures cause { IfErr result (IsFilledCause g.now nodes.now contents.now) }
{
    let chunks = place_chunks(alloc, g, nodes.len())?;
    let starts = chunks.starts.as_slice();
    let directories = list_directories(alloc, g, starts, nodes)?;
    let order = list_order(alloc, nodes)?;
    let site = Site {
        geometry: g,
        starts,
        nodes,
        contents,
        directories: &directories,
        order: &order,
    };
    plan_site(
        rt,
        alloc,
        &site,
        sector,
        stamp,
        chunks.spared_from.as_slice(),
    )
}

/// The blocks of a volume with these files, whose chunks are placed.
fn plan_site<R: Threads + Sync>(
    rt: &R,
    alloc: Global,
    site: &Site<'_>,
    sector: &[u8; 512],
    stamp: &Stamp,
    spared_from: &[u32],
) -> Result<Plan, PlaceFault>
    requires site { IsSite site.now.geometry.now site.now.starts.now site.now.nodes.now site.now.contents.now site.now.directories.now site.now.order.now }
    requires accepted { IsAcceptedSector sector.now }
    requires states { stated_volume sector.now ≡ volume_of site.now.geometry.now }
    requires chunk { HasFirstChunk (volume_of site.now.geometry.now) }
    requires starts { site.now.starts.now ≡ chunk_starts site.now.geometry.now (length site.now.nodes.now) }
    requires spared { spared_from.now ≡ spared_list site.now.geometry.now }
    ensures rendered { IfOk result (λ plan. IsFilledPlan site.now.geometry.now sector.now stamp.now site.now.nodes.now site.now.contents.now plan) }
    ensures inside { IfOk result (λ plan. All (λ place. place < site.now.geometry.now.dblocks) (planned plan)) }
    ensures held { IfOk result (λ plan. AreInBank (plan_rows plan) plan.bank) }
    ensures room { OnOk result (HasRoom (filled_wanted site.now.geometry.now site.now.nodes.now site.now.contents.now)) }
    ensures cause { IfErr result (IsSiteCause site.now.geometry.now site.now.nodes.now site.now.contents.now) }
{
    let spared = Vec::from_slice(alloc, spared_from)?;
    match make_wanted(alloc, site, Records::from_vec(spared)) {
        Ok(wanted) => plan_wanted(rt, alloc, site, sector, stamp, &wanted),
        Err(NoMemory) => Err(PlaceFault::NoMemory),
    }
}

/// The same of what is wanted.
fn plan_wanted<R: Threads + Sync>(
    rt: &R,
    alloc: Global,
    site: &Site<'_>,
    sector: &[u8; 512],
    stamp: &Stamp,
    wanted: &Wanted,
) -> Result<Plan, PlaceFault>
    requires site { IsSite site.now.geometry.now site.now.starts.now site.now.nodes.now site.now.contents.now site.now.directories.now site.now.order.now }
    requires accepted { IsAcceptedSector sector.now }
    requires states { stated_volume sector.now ≡ volume_of site.now.geometry.now }
    requires chunk { HasFirstChunk (volume_of site.now.geometry.now) }
    requires starts { site.now.starts.now ≡ chunk_starts site.now.geometry.now (length site.now.nodes.now) }
    requires wanted { wanted.now ≡ wanted_by_chunks site.now.geometry.now site.now.starts.now site.now.nodes.now site.now.contents.now }
    ensures rendered { IfOk result (λ plan. IsFilledPlan site.now.geometry.now sector.now stamp.now site.now.nodes.now site.now.contents.now plan) }
    ensures inside { IfOk result (λ plan. All (λ place. place < site.now.geometry.now.dblocks) (planned plan)) }
    ensures held { IfOk result (λ plan. AreInBank (plan_rows plan) plan.bank) }
    ensures room { OnOk result (HasRoom (filled_wanted site.now.geometry.now site.now.nodes.now site.now.contents.now)) }
    ensures cause { IfErr result (IsSiteCause site.now.geometry.now site.now.nodes.now site.now.contents.now) }
{
    chunks_are_few(wanted);
    match place(alloc, wanted) {
        Ok(placed) => plan_placed(rt, alloc, site, sector, stamp, wanted, &placed),
        Err(fault) => Err(fault),
    }
}

/// The same where all that is wanted is placed.
fn plan_placed<R: Threads + Sync>(
    rt: &R,
    alloc: Global,
    site: &Site<'_>,
    sector: &[u8; 512],
    stamp: &Stamp,
    wanted: &Wanted,
    placed: &Placed,
) -> Result<Plan, PlaceFault>
    requires site { IsSite site.now.geometry.now site.now.starts.now site.now.nodes.now site.now.contents.now site.now.directories.now site.now.order.now }
    requires accepted { IsAcceptedSector sector.now }
    requires states { stated_volume sector.now ≡ volume_of site.now.geometry.now }
    requires chunk { HasFirstChunk (volume_of site.now.geometry.now) }
    requires starts { site.now.starts.now ≡ chunk_starts site.now.geometry.now (length site.now.nodes.now) }
    requires wanted { wanted.now ≡ wanted_by_chunks site.now.geometry.now site.now.starts.now site.now.nodes.now site.now.contents.now }
    requires cuts { ServeAsks (asks_of wanted.now.objects) placed.now.cuts placed.now.runs }
    requires stands { StandsFor wanted.now placed.now }
    ensures rendered { IfOk result (λ plan. IsFilledPlan site.now.geometry.now sector.now stamp.now site.now.nodes.now site.now.contents.now plan) }
    ensures inside { IfOk result (λ plan. All (λ place. place < site.now.geometry.now.dblocks) (planned plan)) }
    ensures held { IfOk result (λ plan. AreInBank (plan_rows plan) plan.bank) }
    ensures room { OnOk result (HasRoom (filled_wanted site.now.geometry.now site.now.nodes.now site.now.contents.now)) }
    ensures cause { IfErr result (IsSiteCause site.now.geometry.now site.now.nodes.now site.now.contents.now) }
{
    match make_bytes(alloc, site, sector, stamp, placed.runs.as_slice()) {
        Ok(bytes) => plan_bytes(rt, alloc, site, sector, stamp, wanted, placed, &bytes),
        Err(NoMemory) => Err(PlaceFault::NoMemory),
    }
}

/// The same with what its blocks are made of.
fn plan_bytes<R: Threads + Sync>(
    rt: &R,
    alloc: Global,
    site: &Site<'_>,
    sector: &[u8; 512],
    stamp: &Stamp,
    wanted: &Wanted,
    placed: &Placed,
    bytes: &Bytes,
) -> Result<Plan, PlaceFault>
    requires site { IsSite site.now.geometry.now site.now.starts.now site.now.nodes.now site.now.contents.now site.now.directories.now site.now.order.now }
    requires accepted { IsAcceptedSector sector.now }
    requires states { stated_volume sector.now ≡ volume_of site.now.geometry.now }
    requires chunk { HasFirstChunk (volume_of site.now.geometry.now) }
    requires starts { site.now.starts.now ≡ chunk_starts site.now.geometry.now (length site.now.nodes.now) }
    requires wanted { wanted.now ≡ wanted_by_chunks site.now.geometry.now site.now.starts.now site.now.nodes.now site.now.contents.now }
    requires cuts { ServeAsks (asks_of wanted.now.objects) placed.now.cuts placed.now.runs }
    requires stands { StandsFor wanted.now placed.now }
    requires bytes { bytes.now ≡ bytes_with site.now.geometry.now sector.now stamp.now site.now.starts.now site.now.nodes.now site.now.contents.now placed.now.runs }
    ensures rendered { IfOk result (λ plan. IsFilledPlan site.now.geometry.now sector.now stamp.now site.now.nodes.now site.now.contents.now plan) }
    ensures inside { IfOk result (λ plan. All (λ place. place < site.now.geometry.now.dblocks) (planned plan)) }
    ensures held { IfOk result (λ plan. AreInBank (plan_rows plan) plan.bank) }
    ensures room { OnOk result (HasRoom (filled_wanted site.now.geometry.now site.now.nodes.now site.now.contents.now)) }
    ensures cause { IfErr result (IsSiteCause site.now.geometry.now site.now.nodes.now site.now.contents.now) }
{
    placed_is_ready(wanted, placed, bytes);
    match render(rt, alloc, wanted, placed, bytes, WORKERS, &NoGate) {
        Ok(plan) => Ok(plan),
        Err(NoMemory) => Err(PlaceFault::NoMemory),
    }
}
