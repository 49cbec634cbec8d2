//! The blocks of what is asked, placed and rendered, and what is left of them to write.

ghost use Rattle.std.specs.Prelude.{◌≡◌, ◌<◌, ◌≤◌, ◌⊎◌, IfErr, IfOk};
ghost use Rattle.std.specs.List.{All};
ghost use Rattle.std.specs.Option.{ForSome};
ghost use Rattle.xfs_disk.specs.Reads.{OnlyReads};
ghost use Rattle.xfs_geom.specs.Volumes.{volume_of};
ghost use Rattle.xfs_request.specs.xfs_empty.Planning.{StandsFor};
ghost use Rattle.xfs_place.specs.Objects.{ServeAsks, asks_of};
ghost use Rattle.xfs_place.specs.Wanted.{CanBeKept, kept_runs};
ghost use Rattle.xfs_render.specs.Drafts.{AreInBank};
ghost use Rattle.xfs_render.specs.Plans.{plan_rows, planned};
ghost use Rattle.xfs_render.specs.Readiness.{HasBytes, IsWritable};
ghost use Rattle.xfs_rebuild.specs.Rebuilds.{CanBeWritten, IsLeft, IsPlannedFor, IsRenderedLeft};
ghost use Rattle.xfs_rebuild.specs.Refusals.{HasRebuildCause, IsPlaceRefused, IsReadRefused};

use crate::differing::left_to_write;
use crate::faults::RebuildFault;
use crate::planning::Rebuilt;
use std::alloc::Global;
use std::thread::Threads;
use xfs_collections::BlockList;
use xfs_disk::{Disk, Gate, NoMemory};
use xfs_place::{PlaceFault, Placed, Wanted, place};
use xfs_render::{Bytes, Plan, chunks_are_few, placed_is_ready, render};
use xfs_volume::Records;
use xfs_writing::Row;

/// How many threads render.
const WORKERS: u32 = 1;

/// The blocks of a volume with what is wanted, made of these bytes, that the disk does not hold already. So many inodes are then in
/// use, and so many slots freed.
pub(crate) fn plan_wanted<R: Threads + Sync, D: Disk, G: Gate>(
    rt: &R,
    alloc: Global,
    disk: &mut D,
    wanted: &Wanted,
    bytes: &Bytes,
    kept: u64,
    cleared: u64,
    gate: &G,
) -> Result<Rebuilt, RebuildFault>
    requires inside { wanted.now.geometry.dblocks ≤ D.size disk.old }
    requires stands { CanBeKept (volume_of wanted.now.geometry) (kept_runs wanted.now) }
    requires writable { IsWritable wanted.now }
    requires held { HasBytes wanted.now bytes.now }
    ensures writable { IfOk result (CanBeWritten (D.size disk.old)) }
    ensures planned { IfOk result (λ r. ForSome (D.holds disk.old) (λ image. IsPlannedFor wanted.now bytes.now image r)) }
    ensures kept { IfOk result (λ r. r.kept ≡ kept) }
    ensures cleared { IfOk result (λ r. r.cleared ≡ cleared) }
    ensures refused { IfErr result (IsPlaceRefused wanted.now) }
    ensures cause { HasRebuildCause (D.faults disk.old) (D.faults disk.new) result }
    ensures disk { OnlyReads D.size D.holds D.write_faults D.writes D.tells_stops D.moment D.may_leave D.left_since disk.old disk.new }
{
    chunks_are_few(wanted);
    let placed = match place(alloc, wanted) {
        Ok(placed) => placed,
        Err(PlaceFault::NoRoom(what)) => return Err(RebuildFault::NoRoom(what)),
        Err(PlaceFault::NoMemory) => return Err(RebuildFault::NoMemory),
    };
    let planned = plan_placed(rt, alloc, disk, wanted, &placed, bytes, kept, cleared, gate);
    drop(placed);
    planned
}

/// The same where all that is wanted is placed.
pub fn plan_placed<R: Threads + Sync, D: Disk, G: Gate>(
    rt: &R,
    alloc: Global,
    disk: &mut D,
    wanted: &Wanted,
    placed: &Placed,
    bytes: &Bytes,
    kept: u64,
    cleared: u64,
    gate: &G,
) -> Result<Rebuilt, RebuildFault>
    requires inside { wanted.now.geometry.dblocks ≤ D.size disk.old }
    requires stands { StandsFor wanted.now placed.now }
    requires cuts { ServeAsks (asks_of wanted.now.objects) placed.now.cuts placed.now.runs }
    requires writable { IsWritable wanted.now }
    requires held { HasBytes wanted.now bytes.now }
    ensures writable { IfOk result (CanBeWritten (D.size disk.old)) }
    ensures planned { IfOk result (λ r. ForSome (D.holds disk.old) (λ image. IsRenderedLeft wanted.now placed.now bytes.now image r)) }
    ensures kept { IfOk result (λ r. r.kept ≡ kept) }
    ensures cleared { IfOk result (λ r. r.cleared ≡ cleared) }
    ensures refused { IfErr result IsReadRefused }
    ensures cause { HasRebuildCause (D.faults disk.old) (D.faults disk.new) result }
    ensures disk { OnlyReads D.size D.holds D.write_faults D.writes D.tells_stops D.moment D.may_leave D.left_since disk.old disk.new }
{
    placed_is_ready(wanted, placed, bytes);
    let plan = match render(rt, alloc, wanted, placed, bytes, WORKERS, gate) {
        Ok(plan) => plan,
        Err(NoMemory) => return Err(RebuildFault::NoMemory),
    };
    leave_equal(alloc, disk, plan, kept, cleared)
}

/// The blocks of a plan that the disk does not hold already.
fn leave_equal<D: Disk>(
    alloc: Global,
    disk: &mut D,
    plan: Plan,
    kept: u64,
    cleared: u64,
) -> Result<Rebuilt, RebuildFault>
    requires inside { All (λ place. place < D.size disk.old) (planned plan) }
    requires banked { AreInBank (plan_rows plan) plan.bank }
    ensures writable { IfOk result (CanBeWritten (D.size disk.old)) }
    ensures left { IfOk result (λ r. ForSome (D.holds disk.old) (λ image. IsLeft image plan r)) }
    ensures kept { IfOk result (λ r. r.kept ≡ kept) }
    ensures cleared { IfOk result (λ r. r.cleared ≡ cleared) }
    ensures refused { IfErr result IsReadRefused }
    ensures cause { HasRebuildCause (D.faults disk.old) (D.faults disk.new) result }
    ensures disk { OnlyReads D.size D.holds D.write_faults D.writes D.tells_stops D.moment D.may_leave D.left_since disk.old disk.new }
{
    let Plan {
        fresh,
        in_place,
        bank,
    } = plan;
    let fresh = match left_to_write(alloc, disk, &bank, fresh.as_slice()) {
        Ok(rows) => rows,
        Err(fault) => return Err(fault),
    };
    let in_place = match left_to_write(alloc, disk, &bank, in_place.as_slice()) {
        Ok(rows) => rows,
        Err(fault) => return Err(fault),
    };
    Ok(joined(bank, fresh, in_place, kept, cleared))
}

/// What is to be written, from its parts.
fn joined(bank: BlockList, fresh: Vec<Row>, in_place: Vec<Row>, kept: u64, cleared: u64) -> Rebuilt
    ensures { result ≡ record { bank = bank; fresh = fresh.items; in_place = in_place.items; kept = kept; cleared = cleared } }
{
    Rebuilt {
        bank,
        fresh: Records::from_vec(fresh),
        in_place: Records::from_vec(in_place),
        kept,
        cleared,
    }
}
