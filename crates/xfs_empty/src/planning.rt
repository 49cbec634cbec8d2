//! The plan of an empty volume.

ghost use Rattle.std.specs.Prelude.{◌≡◌, ◌<◌, ◌⊎◌, All, IfErr, IfOk};
ghost use Rattle.xfs_geom.specs.Volumes.{stated_volume, volume_of};
ghost use Rattle.xfs_geom.specs.Writing.{IsAcceptedSector};
ghost use Rattle.xfs_place.specs.Wanted.{CanBeKept, FindsNoRoom, kept_runs};
ghost use Rattle.xfs_place.specs.declared.faults.Unplaced.{Unplaced};
ghost use Rattle.xfs_render.specs.Drafts.{AreInBank};
ghost use Rattle.xfs_render.specs.Plans.{plan_rows, planned};
ghost use Rattle.xfs_render.specs.Readiness.{HasBytes, IsWritable};
ghost use Rattle.xfs_empty.specs.Geometry.{HasFirstChunk};
ghost use Rattle.xfs_empty.specs.Placing.{empty_wanted};
ghost use Rattle.xfs_empty.specs.Planning.{HasRoom, IsEmptyPlan, IsPlanFor};

use crate::bytes::empty_bytes;
use crate::wanted::empty_wanted;
use std::alloc::Global;
use std::marker::Sync;
use std::thread::Threads;
use xfs_disk::{NoGate, NoMemory, Stamp};
use xfs_geom::Geometry;
use xfs_place::{PlaceFault, Wanted, place};
use xfs_render::{Bytes, Plan, chunks_are_few, placed_is_ready, render};

/// How many threads render.
const WORKERS: u32 = 4;

/// The blocks of an empty volume of this geometry with this superblock: its root directory and the two system inodes in
/// the chunk at blocks 16 to 23, the trees and free lists of its groups, and a blank log of cycle 1.
///
/// `NoRoom` of the first group whose trees have none; `NoMemory` where memory is wanting.
pub fn plan_empty<R: Threads + Sync>(
    rt: &R,
    alloc: Global,
    g: &Geometry,
    sector: &[u8; 512],
    stamp: &Stamp,
) -> Result<Plan, PlaceFault>
    requires accepted { IsAcceptedSector sector.now }
    requires states { stated_volume sector.now ≡ volume_of g.now }
    requires chunk { HasFirstChunk (volume_of g.now) }
    ensures rendered { IfOk result (λ plan. IsEmptyPlan g.now sector.now stamp.now plan) }
    ensures inside { IfOk result (λ plan. All (λ place. place < g.now.dblocks) (planned plan)) }
    ensures held { IfOk result (λ plan. AreInBank (plan_rows plan) plan.bank) }
    ensures room { IfOk result (λ plan. HasRoom (empty_wanted g.now)) }
    ensures cause { IfErr result (λ fault. (fault ≡ PlaceFault.NoMemory) ⊎ ((what : Unplaced) × (fault ≡ PlaceFault.NoRoom what) × FindsNoRoom (empty_wanted g.now) what)) }
{
    match empty_wanted(alloc, g) {
        Ok(wanted) => {
            let planned = plan_made(rt, alloc, g, sector, stamp, &wanted);
            drop(wanted);
            planned
        }
        Err(NoMemory) => Err(PlaceFault::NoMemory),
    }
}

/// The same, where what is wanted is at hand.
fn plan_made<R: Threads + Sync>(
    rt: &R,
    alloc: Global,
    g: &Geometry,
    sector: &[u8; 512],
    stamp: &Stamp,
    wanted: &Wanted,
) -> Result<Plan, PlaceFault>
    requires accepted { IsAcceptedSector sector.now }
    requires states { stated_volume sector.now ≡ volume_of g.now }
    requires chunk { HasFirstChunk (volume_of g.now) }
    requires wanted { wanted.now ≡ empty_wanted g.now }
    ensures rendered { IfOk result (λ plan. IsEmptyPlan g.now sector.now stamp.now plan) }
    ensures inside { IfOk result (λ plan. All (λ place. place < g.now.dblocks) (planned plan)) }
    ensures held { IfOk result (λ plan. AreInBank (plan_rows plan) plan.bank) }
    ensures room { IfOk result (λ plan. HasRoom (empty_wanted g.now)) }
    ensures cause { IfErr result (λ fault. (fault ≡ PlaceFault.NoMemory) ⊎ ((what : Unplaced) × (fault ≡ PlaceFault.NoRoom what) × FindsNoRoom (empty_wanted g.now) what)) }
{
    match empty_bytes(alloc, g, sector, stamp) {
        Ok(bytes) => {
            let planned = plan_wanted(rt, alloc, wanted, &bytes);
            drop(bytes);
            planned
        }
        Err(NoMemory) => Err(PlaceFault::NoMemory),
    }
}

/// The blocks of a volume with what is wanted, made of these bytes.
fn plan_wanted<R: Threads + Sync>(
    rt: &R,
    alloc: Global,
    wanted: &Wanted,
    bytes: &Bytes,
) -> Result<Plan, PlaceFault>
    requires kept { CanBeKept (volume_of wanted.now.geometry) (kept_runs wanted.now) }
    requires writable { IsWritable wanted.now }
    requires held { HasBytes wanted.now bytes.now }
    ensures rendered { IfOk result (λ plan. IsPlanFor wanted.now bytes.now plan) }
    ensures inside { IfOk result (λ plan. All (λ place. place < wanted.now.geometry.dblocks) (planned plan)) }
    ensures held { IfOk result (λ plan. AreInBank (plan_rows plan) plan.bank) }
    ensures room { IfOk result (λ plan. HasRoom wanted.now) }
    ensures cause { IfErr result (λ fault. (fault ≡ PlaceFault.NoMemory) ⊎ ((what : Unplaced) × (fault ≡ PlaceFault.NoRoom what) × FindsNoRoom wanted.now what)) }
{
    chunks_are_few(wanted);
    let placed = place(alloc, wanted)?;
    placed_is_ready(wanted, &placed, bytes);
    match render(rt, alloc, wanted, &placed, bytes, WORKERS, &NoGate) {
        Ok(plan) => {
            drop(placed);
            Ok(plan)
        }
        Err(NoMemory) => {
            drop(placed);
            Err(PlaceFault::NoMemory)
        }
    }
}
