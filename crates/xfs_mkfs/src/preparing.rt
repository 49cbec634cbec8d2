//! What is written of a new volume: its geometry is chosen, its files are read, and all blocks are planned.

ghost use Rattle.std.specs.Prelude.{◌≡◌, ◌≤◌, ◌<◌, ◌&&◌, not, ℕ, length, All, Option, None, IfErr, IfOk, OnErr, OnOk};
ghost use Rattle.std.specs.Option.{ForSome};
ghost use Rattle.xfs_disk.specs.Faults.{HasCause};
ghost use Rattle.xfs_disk.specs.Files.{Files};
ghost use Rattle.xfs_disk.specs.Reads.{OnlyReads};
ghost use Rattle.xfs_geom.specs.Volumes.{volume_of};
ghost use Rattle.xfs_render.specs.Drafts.{AreInBank};
ghost use Rattle.xfs_render.specs.Plans.{plan_rows, planned};
ghost use Rattle.xfs_empty.specs.Geometry.{HasFirstChunk};
ghost use Rattle.xfs_empty.specs.Sizes.{too_small};
ghost use Rattle.xfs_mkfs.specs.Marks.{is_marked};
ghost use Rattle.xfs_mkfs.specs.Due.{IsGeometry, asked_of, identifier, refusal};
ghost use Rattle.xfs_mkfs.specs.Counts.{CountsReads, IsUnwritten, LooksPartly, looked};
ghost use Rattle.xfs_mkfs.specs.FilesAsked.{CanBePlanned};
ghost use Rattle.xfs_mkfs.specs.Outcome.{HasRoomFor, IsDueMake, IsMakingCause, IsPlanned, IsPlanningCause, IsPrepared, place_outcome};

use crate::files::{FilesAsked, read_files};
use crate::marks::is_marked;
use crate::outcome::MakeOutcome;
use std::alloc::Global;
use std::marker::Sync;
use std::thread::Threads;
use xfs_disk::{Disk, Failed, Library, Stamp};
use xfs_empty::{SizesAsked, choose, plan_empty, put_super};
use xfs_filled::plan_filled;
use xfs_geom::Geometry;
use xfs_options::MakeOptions;
use xfs_place::PlaceFault;
use xfs_render::Plan;

/// A volume that is to be written.
#[derive(Drop)]
pub struct Prepared {
    pub geometry: Geometry,
    pub plan: Plan,
}

/// The volume that is asked for; or the answer, where that is due before anything is written.
pub fn prepare<R: Threads + Sync, D: Disk, L: Library>(
    rt: &R,
    alloc: Global,
    disk: &mut D,
    files: &mut L,
    options: &MakeOptions,
    stamp: &Stamp,
) -> Result<Prepared, MakeOutcome>
    requires label { length options.now.label ≤ 12 }
    requires generate { ForSome options.now.generate (λ n. n ≤ 100000) }
    ensures due { IfErr result (λ outcome. ForSome (D.holds disk.old) (λ image. IsDueMake options.now stamp.now (L.files files.old) (D.size disk.old) image outcome)) }
    ensures early { IfErr result IsUnwritten }
    ensures cause { IfErr result (λ outcome. IsMakingCause (D.faults disk.old) (D.faults disk.new) (D.write_faults disk.old) (D.write_faults disk.new) (L.faults files.old) (L.faults files.new) outcome) }
    ensures none { OnOk result (ForSome (D.holds disk.old) (λ image. refusal options.now (D.size disk.old) image ≡ None)) }
    ensures fits { OnOk result (too_small (asked_of options.now) (D.size disk.old) ≡ None) }
    ensures prepared { IfOk result (λ volume. IsPrepared options.now stamp.now (L.files files.old) (D.size disk.old) volume.geometry volume.plan) }
    ensures inside { IfOk result (λ volume. All (λ place. place < volume.geometry.dblocks) (planned volume.plan)) }
    ensures held { IfOk result (λ volume. AreInBank (plan_rows volume.plan) volume.plan.bank) }
    ensures disk { OnlyReads D.size D.holds D.write_faults D.writes D.tells_stops D.moment D.may_leave D.left_since disk.old disk.new }
    ensures reads { IfErr result (λ outcome. CountsReads options.now.force (D.reads disk.old) (D.reads disk.new) outcome) }
    ensures looked { OnOk result (D.reads disk.new ≡ looked options.now.force (D.reads disk.old)) }
    ensures faults { D.faults disk.old ≤ D.faults disk.new }
    ensures files { L.files files.new ≡ L.files files.old }
    ensures library_faults { L.faults files.old ≤ L.faults files.new }
    ensures unasked { ForSome options.now.generate (λ n. files.new ≡ files.old) }
{
    let geometry = match decide(disk, options, stamp) {
        Ok(geometry) => geometry,
        Err(outcome) => return Err(outcome),
    };
    let asked = match read_files(alloc, files, options) {
        Ok(asked) => asked,
        Err(outcome) => return Err(outcome),
    };
    match plan_volume(rt, alloc, &geometry, options.label.bytes(), stamp, &asked) {
        Ok(plan) => {
            drop(asked);
            Ok(Prepared { geometry, plan })
        }
        Err(fault) => {
            drop(asked);
            Err(place_outcome(fault))
        }
    }
}

/// The geometry of the volume that is to be made; or the answer, where that is due before anything is placed.
fn decide<D: Disk>(
    disk: &mut D,
    options: &MakeOptions,
    stamp: &Stamp,
) -> Result<Geometry, MakeOutcome>
    ensures due { IfErr result (λ outcome. (told : Option Files) → ForSome (D.holds disk.old) (λ image. IsDueMake options.now stamp.now told (D.size disk.old) image outcome)) }
    ensures early { IfErr result IsUnwritten }
    ensures cause { IfErr result (λ outcome. (before now : ℕ) → IsMakingCause (D.faults disk.old) (D.faults disk.new) (D.write_faults disk.old) (D.write_faults disk.new) before now outcome) }
    ensures none { OnOk result (ForSome (D.holds disk.old) (λ image. refusal options.now (D.size disk.old) image ≡ None)) }
    ensures fits { OnOk result (too_small (asked_of options.now) (D.size disk.old) ≡ None) }
    ensures chosen { IfOk result (λ g. IsGeometry options.now stamp.now (D.size disk.old) g) }
    ensures disk { OnlyReads D.size D.holds D.write_faults D.writes D.tells_stops D.moment D.may_leave D.left_since disk.old disk.new }
    ensures reads { IfErr result (λ outcome. CountsReads options.now.force (D.reads disk.old) (D.reads disk.new) outcome) }
    ensures looked { OnOk result (D.reads disk.new ≡ looked options.now.force (D.reads disk.old)) }
    ensures faults { D.faults disk.old ≤ D.faults disk.new }
{
    let blocks = match count_blocks(disk) {
        Ok(blocks) => blocks,
        Err(Failed) => return Err(read_fault(disk)),
    };
    let g = match choose(&asked_of(options), blocks, identifier(options, stamp)) {
        Ok(g) => g,
        Err(what) => return Err(MakeOutcome::TooSmall { what }),
    };
    match has_volume(disk, options.force) {
        Ok(false) => Ok(g),
        Ok(true) => Err(MakeOutcome::HasVolume),
        Err(Failed) => Err(read_fault(disk)),
    }
}

/// How many blocks the disk has.
fn count_blocks<D: Disk>(disk: &mut D) -> Result<u64, Failed>
    ensures count { IfOk result (λ n. n ≡ D.size disk.old) }
    ensures cause { HasCause (D.faults disk.old) (D.faults disk.new) result }
    ensures reads { D.reads disk.new ≡ D.reads disk.old }
    ensures disk { OnlyReads D.size D.holds D.write_faults D.writes D.tells_stops D.moment D.may_leave D.left_since disk.old disk.new }
{
    disk.blocks()
}

/// What is asked of the sizes of the volume.
fn asked_of(options: &MakeOptions) -> SizesAsked
    ensures { result ≡ asked_of options.now }
{
    SizesAsked {
        blocks: options.blocks,
        agcount: options.agcount,
        agblocks: options.agblocks,
        logblocks: options.logblocks,
    }
}

/// The identifier of the new volume: the one that is asked for, or else that of the stamp.
fn identifier(options: &MakeOptions, stamp: &Stamp) -> [u8; 16]
    ensures { result ≡ identifier options.now stamp.now }
{
    options.uuid.unwrap_or(stamp.uuid)
}

/// The answer to a read that failed.
fn read_fault<D: Disk>(disk: &D) -> MakeOutcome
    ensures { result ≡ MakeOutcome.ReadFault (D.faults disk.now) }
{
    MakeOutcome::ReadFault {
        faults: disk.faults(),
    }
}

/// The answer where placing failed.
fn place_outcome(fault: PlaceFault) -> MakeOutcome
    ensures value { result ≡ place_outcome fault }
    ensures early { IsUnwritten result }
{
    match fault {
        PlaceFault::NoRoom(what) => MakeOutcome::NoRoom(what),
        PlaceFault::NoMemory => MakeOutcome::NoMemory,
    }
}

/// Whether a mark stands on the disk, which is not looked at where it is written over anyway.
fn has_volume<D: Disk>(disk: &mut D, force: bool) -> Result<bool, Failed>
    requires some { 16 < D.size disk.old }
    ensures value { IfOk result (λ there. ForSome (D.holds disk.old) (λ image. there ≡ (not force && is_marked image))) }
    ensures disk { OnlyReads D.size D.holds D.write_faults D.writes D.tells_stops D.moment D.may_leave D.left_since disk.old disk.new }
    ensures looked { OnOk result (D.reads disk.new ≡ looked force (D.reads disk.old)) }
    ensures failed { OnErr result (LooksPartly force (D.reads disk.old) (D.reads disk.new)) }
    ensures cause { HasCause (D.faults disk.old) (D.faults disk.new) result }
{
    if force {
        return Ok(false);
    }
    is_marked(disk)
}

/// The blocks of a volume of this geometry with these files, with this label.
fn plan_volume<R: Threads + Sync>(
    rt: &R,
    alloc: Global,
    g: &Geometry,
    label: &[u8],
    stamp: &Stamp,
    asked: &FilesAsked,
) -> Result<Plan, PlaceFault>
    requires label { length label.now ≤ 12 }
    requires no_sectors { g.now.logsectlog ≡ 0 }
    requires chunk { HasFirstChunk (volume_of g.now) }
    requires listed { CanBePlanned asked.now }
    ensures rendered { IfOk result (λ plan. IsPlanned g.now label.now stamp.now asked.now plan) }
    ensures inside { IfOk result (λ plan. All (λ place. place < g.now.dblocks) (planned plan)) }
    ensures held { IfOk result (λ plan. AreInBank (plan_rows plan) plan.bank) }
    ensures room { OnOk result (HasRoomFor g.now asked.now) }
    ensures cause { IfErr result (IsPlanningCause g.now asked.now) }
{
    let mut sector = [0; 512];
    put_super(g, label, &mut sector);
    match asked {
        FilesAsked::Root => plan_empty(rt, alloc, g, &sector, stamp),
        FilesAsked::Listed { nodes, contents } => plan_filled(
            rt,
            alloc,
            g,
            &sector,
            stamp,
            nodes.as_slice(),
            contents.as_slice(),
        ),
    }
}
