//! Where everything of a volume stands.

ghost use Rattle.std.specs.Prelude.{◌≡◌, ℕ, List, ◌<◌, ◌≤◌, ◌++◌, ◌^◌, ◌⊎◌, length, drop, All, IfErr, IfOk, Ok, Err};
ghost use Rattle.xfs_geom.specs.declared.records.Run.{Run};
ghost use Rattle.xfs_geom.specs.Volumes.{volume_of};
ghost use Rattle.xfs_place.specs.Counts.{placed_counts};
ghost use Rattle.xfs_place.specs.Kept.{AreWantedKept, IsPlacedAs};
ghost use Rattle.xfs_place.specs.Objects.{ServeAsks, IsAsk, asks_of};
ghost use Rattle.xfs_place.specs.Standing.{AreOfPool};
ghost use Rattle.xfs_place.specs.Wanted.{CanBeKept, ArePlaced, FindsNoRoom, IsWithoutRoom, all_kept, kept_runs};
ghost use Rattle.xfs_place.specs.declared.faults.Unplaced.{Unplaced};

use crate::counting::count_all;
use crate::faults::PlaceFault;
use crate::object_placing::{ObjectsKept, keep_with};
use crate::open_rows::Site;
use crate::placed::{GroupPlaced, Placed};
use crate::volume_placing::place_groups;
use crate::wanted::Wanted;
use std::alloc::Global;
use xfs_disk::NoMemory;
use xfs_geom::Run;
use xfs_volume::Records;

/// Places what is wanted, and counts what the volume then holds. The pool is the blocks that have no fixed use and are
/// neither taken, new nor reserved. Each ask of each object, in order, takes the lowest run of pool blocks of its length
/// that lies inside one allocation group, at AG block `from` or behind; none has more than the 44,040,171 blocks of 21
/// extents, which fill a fork. Where there is none it takes the longest run of fewer blocks that is an extent, the lowest
/// of equally long ones, and so on with what it still needs, which then takes one run only where that is an extent. All
/// asks of an object take no more runs than it may have: an ask those that are left, but for one for each ask behind it. An
/// object stands on blocks that are not spared; where these do not hold it and it may take spared ones, all its asks are placed anew
/// on all blocks of the pool.
/// Then the trees and the free list of each group take the lowest blocks that are left of its pool, as few as leave the free list 6 to 118 blocks; where no number
/// does, as many as leave it 0 to 5. Reserved blocks become free.
///
/// `NoRoom` of the first object that finds no room, else of the first group; `NoMemory` where memory is wanting.
pub fn place(alloc: Global, wanted: &Wanted) -> Result<Placed, PlaceFault>
    requires kept { CanBeKept (volume_of wanted.now.geometry) (kept_runs wanted.now) }
    requires asks { All (λ object. All IsAsk object.runs) wanted.now.objects }
    requires inodes { length wanted.now.inodes ≡ wanted.now.geometry.agcount }
    requires few { All (λ group. length group.records < 2 ^ 32) wanted.now.inodes }
    ensures runs { IfOk result (λ placed. all_kept wanted.now ≡ Ok (kept_runs wanted.now ++ placed.runs)) }
    ensures cuts { IfOk result (λ placed. ServeAsks (asks_of wanted.now.objects) placed.cuts placed.runs) }
    ensures groups { IfOk result (λ placed. ArePlaced (volume_of wanted.now.geometry) (kept_runs wanted.now ++ placed.runs) wanted.now.reserved wanted.now.inodes
        wanted.now.geometry.agcount placed.groups) }
    ensures apart { IfOk result (λ placed. CanBeKept (volume_of wanted.now.geometry) (kept_runs wanted.now ++ placed.runs)) }
    ensures pool { IfOk result (λ placed. AreOfPool (volume_of wanted.now.geometry) (kept_runs wanted.now ++ placed.runs) wanted.now.reserved wanted.now.inodes
        wanted.now.geometry.agcount placed.groups) }
    ensures counts { IfOk result (λ placed. placed.counts ≡ placed_counts wanted.now.inodes placed.groups) }
    ensures cause { IfErr result (λ fault. (fault ≡ PlaceFault.NoMemory) ⊎ ((what : Unplaced) × (fault ≡ PlaceFault.NoRoom what) × FindsNoRoom wanted.now what)) }
{
    place_all(alloc, wanted)
}

/// The same, with one clause on all that stands.
fn place_all(alloc: Global, wanted: &Wanted) -> Result<Placed, PlaceFault>
    requires kept { CanBeKept (volume_of wanted.now.geometry) (kept_runs wanted.now) }
    requires asks { All (λ object. All IsAsk object.runs) wanted.now.objects }
    requires inodes { length wanted.now.inodes ≡ wanted.now.geometry.agcount }
    requires few { All (λ group. length group.records < 2 ^ 32) wanted.now.inodes }
    ensures told { IfOk result (λ placed. IsPlacedAs wanted.now placed) }
    ensures cause { IfErr result (λ fault. (fault ≡ PlaceFault.NoMemory) ⊎ ((what : Unplaced) × (fault ≡ PlaceFault.NoRoom what) × FindsNoRoom wanted.now what)) }
{
    let kept = list_kept(alloc, wanted)?;
    let first = kept.len();
    let objects = keep_objects(alloc, wanted, kept)?;
    place_behind(alloc, wanted, first, objects)
}

/// Adds the runs of the objects to what is kept.
fn keep_objects(alloc: Global, wanted: &Wanted, kept: Vec<Run>) -> Result<ObjectsKept, PlaceFault>
    requires kept { CanBeKept (volume_of wanted.now.geometry) (kept_runs wanted.now) }
    requires asks { All (λ object. All IsAsk object.runs) wanted.now.objects }
    requires all { kept.items ≡ kept_runs wanted.now }
    ensures told { IfOk result (λ now. AreWantedKept wanted.now now.all.items now.cuts.items) }
    ensures cause { IfErr result (λ fault. (fault ≡ PlaceFault.NoMemory) ⊎ ((what : Unplaced) × (fault ≡ PlaceFault.NoRoom what) × (all_kept wanted.now ≡ Err what))) }
{
    let site = Site {
        geometry: &wanted.geometry,
        reserved: wanted.reserved.as_slice(),
        from: wanted.from,
        spared: wanted.spared_from.as_slice(),
        takes: wanted.takes_spared,
    };
    keep_with(alloc, &site, kept, wanted.objects.as_slice())
}

/// Places the trees and the free lists of all groups behind the runs of the objects.
fn place_behind(
    alloc: Global,
    wanted: &Wanted,
    first: usize,
    objects: ObjectsKept,
) -> Result<Placed, PlaceFault>
    requires first { first ≡ length (kept_runs wanted.now) }
    requires told { AreWantedKept wanted.now objects.all.items objects.cuts.items }
    requires inodes { length wanted.now.inodes ≡ wanted.now.geometry.agcount }
    requires few { All (λ group. length group.records < 2 ^ 32) wanted.now.inodes }
    ensures told { IfOk result (λ placed. IsPlacedAs wanted.now placed) }
    ensures cause { IfErr result (λ fault. (fault ≡ PlaceFault.NoMemory) ⊎ ((what : Unplaced) × (fault ≡ PlaceFault.NoRoom what) × FindsNoRoom wanted.now what)) }
{
    let ObjectsKept { all, cuts } = objects;
    let groups = place_wanted(alloc, wanted, &all)?;
    let runs = Vec::from_slice(alloc, runs_from(&all, first))?;
    Ok(placed_of(wanted, runs, cuts, groups))
}

/// The runs from a number on.
fn runs_from(all: &[Run], first: usize) -> &[Run]
    requires { first ≤ length all.now }
    ensures { result.now ≡ drop first all.now }
{
    &all[first..]
}

/// Places the trees and the free lists of all groups, beside these runs.
fn place_wanted(alloc: Global, wanted: &Wanted, all: &[Run]) -> Result<Vec<GroupPlaced>, PlaceFault>
    requires kept { CanBeKept (volume_of wanted.now.geometry) all.now }
    requires inodes { length wanted.now.inodes ≡ wanted.now.geometry.agcount }
    requires few { All (λ group. length group.records < 2 ^ 32) wanted.now.inodes }
    ensures placed { IfOk result (λ groups. ArePlaced (volume_of wanted.now.geometry) all.now wanted.now.reserved wanted.now.inodes wanted.now.geometry.agcount groups.items) }
    ensures pool { IfOk result (λ groups. AreOfPool (volume_of wanted.now.geometry) all.now wanted.now.reserved wanted.now.inodes wanted.now.geometry.agcount groups.items) }
    ensures cause { IfErr result (λ fault. (fault ≡ PlaceFault.NoMemory)
        ⊎ ((ag : ℕ) × (fault ≡ PlaceFault.NoRoom (Unplaced.Group ag)) × IsWithoutRoom (volume_of wanted.now.geometry) all.now wanted.now.reserved wanted.now.inodes ag)) }
{
    let reserved = wanted.reserved.as_slice();
    place_groups(
        alloc,
        &wanted.geometry,
        all,
        reserved,
        wanted.inodes.as_slice(),
    )
}

/// Where everything stands, with the counts.
fn placed_of(wanted: &Wanted, runs: Vec<Run>, cuts: Vec<u32>, groups: Vec<GroupPlaced>) -> Placed
    requires inodes { length wanted.now.inodes ≡ wanted.now.geometry.agcount }
    requires few { All (λ group. length group.records < 2 ^ 32) wanted.now.inodes }
    requires placed { (all : List Run) × ArePlaced (volume_of wanted.now.geometry) all wanted.now.reserved wanted.now.inodes wanted.now.geometry.agcount groups.items }
    ensures runs { result.runs ≡ runs.items }
    ensures cuts { result.cuts ≡ cuts.items }
    ensures groups { result.groups ≡ groups.items }
    ensures counts { result.counts ≡ placed_counts wanted.now.inodes groups.items }
{
    let counts = count_all(wanted.inodes.as_slice(), &groups);
    Placed {
        runs: Records::from_vec(runs),
        cuts: Records::from_vec(cuts),
        groups: Records::from_vec(groups),
        counts,
    }
}

/// The runs of what is kept, with those of new chunks behind them.
fn list_kept(alloc: Global, wanted: &Wanted) -> Result<Vec<Run>, NoMemory>
    ensures { IfOk result (λ kept. kept.items ≡ kept_runs wanted.now) }
{
    let mut kept = Vec::from_slice(alloc, wanted.taken.as_slice())?;
    kept.extend_from_slice(wanted.new.as_slice())?;
    Ok(kept)
}
