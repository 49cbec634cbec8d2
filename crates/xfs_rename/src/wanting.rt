//! What is asked of the volume once its names are settled.

ghost use Rattle.std.specs.Prelude.{◌≡◌, ◌++◌, [], map, true, IfOk};
ghost use Rattle.std.specs.List.{All};
ghost use Rattle.std.specs.List.Sorted.{IsNonDecreasingBy};
ghost use Rattle.xfs_geom.specs.Volumes.{volume_of};
ghost use Rattle.xfs_space.specs.Parts.{HasLawfulForks};
ghost use Rattle.xfs_volume.specs.declared.files.FileRec.{FileRec};
ghost use Rattle.xfs_names.specs.declared.building.ForkRoom.{ForkRoom};
ghost use Rattle.xfs_naming.specs.Naming.{NumbersAscend};
ghost use Rattle.xfs_rebuild.specs.Rebuilds.{HasNamesDue};
ghost use Rattle.xfs_rebuild.specs.declared.names_due.NamesDue.{NamesDue};
ghost use Rattle.xfs_salvage.specs.Kept.{run_of_cluster, taken_of};
ghost use Rattle.xfs_changes.specs.xfs_built.Asks.{objects_of};
ghost use Rattle.xfs_changes.specs.Replaced.{replaced_blocks};
ghost use Rattle.xfs_rename.specs.Objects.{asked_with, wanted_with, with_added};
ghost use Rattle.xfs_rename.specs.Parted.{IsParted};
ghost use Rattle.xfs_rename.specs.Renames.{IsSettling};
ghost use Rattle.xfs_rename.specs.Settled.{fresh_with, settled, staying_files, with_numbers};

use crate::settled::{fresh_with, staying_files, with_numbers};
use crate::settling::Settling;
use std::alloc::Global;
use xfs_changes::{Lost, objects_of, push_replaced};
use xfs_disk::{NoMemory, Stamp};
use xfs_geom::{Geometry, Run};
use xfs_log::LogState;
use xfs_place::{GroupInodes, Object, Wanted};
use xfs_rebuild::{BoxedNames, NamesDue, SlotSeen, inodes_wanted, taken_runs};
use xfs_render::SlotWanted;
use xfs_salvage::Salvaged;
use xfs_volume::{FileRec, Records};

/// The owner of the blocks of inodes, and the blocks of a cluster.
const INODES: u64 = u64::MAX - 6;

const CLUSTER_BLOCKS: u64 = 4;

/// What is asked.
#[derive(Drop)]
pub struct SettledAsk {
    /// What is to be placed, and what the volume holds already.
    pub wanted: Wanted,
    /// What the volume has once it is settled.
    pub kept: Salvaged,
    /// What was wanted of slots before, what is known of them, and the state of the log.
    pub slots: Records<SlotWanted>,
    pub seen: Records<SlotSeen>,
    pub log: LogState,
}

/// What is asked of it.
pub(crate) fn ask_settled(
    alloc: Global,
    g: &Geometry,
    due: BoxedNames,
    settling: &Settling,
    stamp: &Stamp,
) -> Result<SettledAsk, NoMemory>
    requires due { HasNamesDue g.now stamp.now due }
    requires settling { IsSettling g.now due settling.now }
    ensures wanted { IfOk result (λ asked. asked.wanted ≡ wanted_with g.now due settling.now.lost settling.now.names (objects_of settling.now.rooms settling.now.built)) }
    ensures kept { IfOk result (λ asked. asked.kept ≡ settled due settling.now.lost settling.now.names) }
    ensures slots { IfOk result (λ asked. asked.slots ≡ due.slots) }
    ensures seen { IfOk result (λ asked. asked.seen ≡ due.seen) }
    ensures log { IfOk result (λ asked. asked.log ≡ due.log) }
{
    ask_names(alloc, g, due.into_names(), settling, stamp)
}

/// The same, by what is known, no longer apart.
fn ask_names(
    alloc: Global,
    g: &Geometry,
    due: NamesDue,
    settling: &Settling,
    stamp: &Stamp,
) -> Result<SettledAsk, NoMemory>
    requires due { HasNamesDue g.now stamp.now due }
    requires settling { IsSettling g.now due settling.now }
    ensures wanted { IfOk result (λ asked. asked.wanted ≡ wanted_with g.now due settling.now.lost settling.now.names (objects_of settling.now.rooms settling.now.built)) }
    ensures kept { IfOk result (λ asked. asked.kept ≡ settled due settling.now.lost settling.now.names) }
    ensures slots { IfOk result (λ asked. asked.slots ≡ due.slots) }
    ensures seen { IfOk result (λ asked. asked.seen ≡ due.seen) }
    ensures log { IfOk result (λ asked. asked.log ≡ due.log) }
{
    let NamesDue {
        wanted,
        slots,
        files,
        entries,
        dirs,
        clusters,
        fresh,
        seen,
        log,
    } = due;
    drop(entries);
    drop(dirs);
    match ask_parts(alloc, g, wanted, files, clusters, fresh, settling, stamp) {
        Ok(asked) => {
            let (wanted, kept) = asked;
            Ok(SettledAsk {
                wanted,
                kept,
                slots,
                seen,
                log,
            })
        }
        Err(NoMemory) => {
            drop(slots);
            drop(seen);
            Err(NoMemory)
        }
    }
}

/// What is asked, and what is kept with new clusters, by what is known, in parts.
fn ask_parts(
    alloc: Global,
    g: &Geometry,
    wanted: Wanted,
    files: Records<FileRec>,
    clusters: Records<u64>,
    fresh: Records<u64>,
    settling: &Settling,
    stamp: &Stamp,
) -> Result<(Wanted, Salvaged), NoMemory>
    requires parts { (n : NamesDue) × IsParted g.now stamp.now n settling.now wanted files clusters fresh }
    ensures wanted { (n : NamesDue) → IsParted g.now stamp.now n settling.now wanted files clusters fresh
        → IfOk result (λ both. both.0 ≡ wanted_with g.now n settling.now.lost settling.now.names (objects_of settling.now.rooms settling.now.built)) }
    ensures kept { (n : NamesDue) → IsParted g.now stamp.now n settling.now wanted files clusters fresh
        → IfOk result (λ both. both.1 ≡ settled n settling.now.lost settling.now.names) }
{
    let rebuilt = settling.names.rebuilt.as_slice();
    let reserved = reserved_with(g, rebuilt, files.as_slice(), wanted)?;
    let kept = staying_of(alloc, rebuilt, &settling.lost, clusters, files, fresh)?;
    asked_of(alloc, g, settling, kept, reserved)
}

/// What is asked, and what is kept with new clusters, by what is kept without them and the reserved blocks.
fn asked_of(
    alloc: Global,
    g: &Geometry,
    settling: &Settling,
    kept: Salvaged,
    reserved: Vec<u64>,
) -> Result<(Wanted, Salvaged), NoMemory>
    requires forks { All (HasLawfulForks (volume_of g.now)) kept.files }
    requires files { IsNonDecreasingBy (λ (f : FileRec). f.ino) kept.files }
    requires clusters { NumbersAscend 0 (with_numbers settling.now.lost.added kept.clusters) }
    requires rooms { IsNonDecreasingBy (λ (r : ForkRoom). r.ino) settling.now.rooms }
    ensures wanted { IfOk result (λ both. both.0 ≡ asked_with g.now settling.now (taken_of (volume_of g.now) kept.clusters kept.files) reserved.items (with_added settling.now.lost.added kept)) }
    ensures kept { IfOk result (λ both. both.1 ≡ with_added settling.now.lost.added kept) }
{
    let taken = match taken_runs(alloc, g, &kept) {
        Ok(taken) => taken,
        Err(NoMemory) => {
            drop(kept);
            return Err(NoMemory);
        }
    };
    let kept = with_added(settling.lost.added.as_slice(), kept)?;
    match wanted_of(alloc, g, settling, &kept, taken, reserved) {
        Ok(wanted) => Ok((wanted, kept)),
        Err(NoMemory) => {
            drop(kept);
            Err(NoMemory)
        }
    }
}

/// What is asked, by what is kept with new clusters, the runs that were taken without them and the reserved blocks.
fn wanted_of(
    alloc: Global,
    g: &Geometry,
    settling: &Settling,
    kept: &Salvaged,
    taken: Vec<Run>,
    reserved: Vec<u64>,
) -> Result<Wanted, NoMemory>
    requires files { IsNonDecreasingBy (λ (f : FileRec). f.ino) kept.now.files }
    requires clusters { NumbersAscend 0 kept.now.clusters }
    requires rooms { IsNonDecreasingBy (λ (r : ForkRoom). r.ino) settling.now.rooms }
    ensures { IfOk result (λ wanted. wanted ≡ asked_with g.now settling.now taken.items reserved.items kept.now) }
{
    let inodes = inodes_wanted(alloc, g, kept)?;
    let objects = objects_of(alloc, settling.rooms.as_slice(), settling.built.as_slice())?;
    let new = cluster_runs(alloc, settling.lost.added.as_slice())?;
    let spared = Vec::from_slice(alloc, settling.lost.spared.as_slice())?;
    Ok(joined(g, taken, new, reserved, spared, objects, inodes))
}

/// The blocks that were reserved before, and those of the directories that are built anew.
fn reserved_with(
    g: &Geometry,
    rebuilt: &[u64],
    files: &[FileRec],
    wanted: Wanted,
) -> Result<Vec<u64>, NoMemory>
    requires rebuilt { NumbersAscend 0 rebuilt.now }
    ensures { IfOk result (λ all. all.items ≡ wanted.reserved ++ replaced_blocks (volume_of g.now) rebuilt.now files.now) }
{
    let mut reserved = reserved_of(wanted);
    push_replaced(g, rebuilt, files, &mut reserved)?;
    Ok(reserved)
}

/// The blocks that were reserved before.
fn reserved_of(wanted: Wanted) -> Vec<u64>
    ensures { result.items ≡ wanted.reserved }
{
    let Wanted { reserved, .. } = wanted;
    reserved.into_vec()
}

/// What is kept, without new clusters.
fn staying_of(
    alloc: Global,
    rebuilt: &[u64],
    lost: &Lost,
    clusters: Records<u64>,
    files: Records<FileRec>,
    fresh: Records<u64>,
) -> Result<Salvaged, NoMemory>
    requires rebuilt { NumbersAscend 0 rebuilt.now }
    ensures { IfOk result (λ kept. kept ≡ record { clusters = clusters; files = staying_files rebuilt.now fresh files; fresh = fresh_with lost.now fresh; entries = []; dirs = [] }) }
{
    let files = staying_files(rebuilt, fresh.as_slice(), files.into_vec());
    let fresh = fresh_with(lost, fresh.into_vec())?;
    Ok(Salvaged {
        clusters,
        files: Records::from_vec(files),
        fresh: Records::from_vec(fresh),
        entries: Records::from_vec(Vec::new(alloc)),
        dirs: Records::from_vec(Vec::new(alloc)),
    })
}

/// What is asked, from its parts: nothing below a block, and spared blocks where directories find no others.
fn joined(
    g: &Geometry,
    taken: Vec<Run>,
    new: Vec<Run>,
    reserved: Vec<u64>,
    spared: Vec<u32>,
    objects: Vec<Object>,
    inodes: Vec<GroupInodes>,
) -> Wanted
    ensures { result ≡ record { geometry = g.now; taken = taken.items; new = new.items; reserved = reserved.items; from = 0; spared_from = spared.items; takes_spared = true; objects = objects.items; inodes = inodes.items } }
{
    Wanted {
        geometry: *g,
        taken: Records::from_vec(taken),
        new: Records::from_vec(new),
        reserved: Records::from_vec(reserved),
        from: 0,
        spared_from: Records::from_vec(spared),
        takes_spared: true,
        objects: Records::from_vec(objects),
        inodes: Records::from_vec(inodes),
    }
}

/// What is kept, with new clusters.
fn with_added(added: &[u64], kept: Salvaged) -> Result<Salvaged, NoMemory>
    ensures { IfOk result (λ all. all ≡ with_added added.now kept) }
{
    let Salvaged {
        clusters,
        files,
        fresh,
        entries,
        dirs,
    } = kept;
    let clusters = with_numbers(added, clusters.into_vec())?;
    Ok(Salvaged {
        clusters: Records::from_vec(clusters),
        files,
        fresh,
        entries,
        dirs,
    })
}

/// The runs of clusters.
fn cluster_runs(alloc: Global, clusters: &[u64]) -> Result<Vec<Run>, NoMemory>
    ensures { IfOk result (λ runs. runs.items ≡ map run_of_cluster clusters.now) }
{
    let mut runs = Vec::new(alloc);
    for cluster in clusters {
        runs.push(Run {
            start: *cluster,
            count: CLUSTER_BLOCKS,
            owner: INODES,
            offset_word: 0,
        })?;
    }
    Ok(runs)
}
