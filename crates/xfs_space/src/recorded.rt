//! The owners that reverse-mapping trees record, against those that there are (chapter "Reverse-Mapping
//! B+tree").

ghost use Rattle.std.specs.Prelude.{◌≡◌, ℕ, ◌<◌, ◌^◌, List, length, map, MatchOption};
ghost use Rattle.std.specs.List.{All};
ghost use Rattle.xfs_geom.specs.Volumes.{volume_of};
ghost use Rattle.xfs_volume.specs.Laws.{first_broken};
ghost use Rattle.xfs_space.specs.Parts.{AreGroups};
ghost use Rattle.xfs_space.specs.SpaceLaws.{owner_laws, recorded_run, recorded_runs};
ghost use Rattle.xfs_space.specs.Maps.{AreAlike, AreMapped, IsFirstUnlike};
ghost use Rattle.xfs_space.specs.Sorted.{Follow, IsOfOneGroup, IsOwned};

use crate::differing::first_difference;
use crate::holding::{held_number, recorded_number};
use crate::splitting::split_runs;
use xfs_geom::{Geometry, RmapRec, Run};
use xfs_volume::{GroupRec, Law};

/// The first law that the reverse-mapping trees of the groups break, given the owned runs in order.
pub fn owner_law(g: &Geometry, groups: &[GroupRec], runs: &[Run]) -> Option<Law>
    requires count { length groups.now ≡ g.now.agcount }
    requires lawful { AreGroups (volume_of g.now) 0 groups.now }
    requires follow { Follow 0 runs.now }
    requires owned { All (IsOwned (volume_of g.now)) runs.now }
    requires groups { All (IsOfOneGroup (volume_of g.now)) runs.now }
    ensures law { result ≡ first_broken (owner_laws (volume_of g.now) (recorded_runs g.now.agblocks 0 groups.now) runs.now) }
    ensures alike { MatchOption result (AreAlike (recorded_runs g.now.agblocks 0 groups.now) runs.now) (λ _. Unit {0}) }
{
    let mut rest = runs;
    for (index, group) in groups.iter().enumerate() {
        let base = g.start_of_group(index as u32);
        let (front, back) = split_runs(rest, base + g.agblocks as u64);
        match group_owner_law(base, group.rmap.as_slice(), front) {
            Some(law) => return Some(law),
            None => rest = back,
        }
    }
    None
}

/// The first law that the records of the group break that begins at block `base`, given its owned runs in
/// order.
fn group_owner_law(base: u64, records: &[RmapRec], runs: &[Run]) -> Option<Law>
    requires base { base < 2 ^ 26 }
    requires recorded { AreMapped (map (recorded_run base) records.now) }
    requires owned { AreMapped runs.now }
    ensures { MatchOption result (AreAlike (map (recorded_run base) records.now) runs.now) (IsFirstUnlike (map (recorded_run base) records.now) runs.now) }
{
    match first_difference(base, records, runs) {
        Some(block) => Some(Law {
            law: 3,
            place: block,
            held: recorded_number(base, records, block),
            due: held_number(runs, block),
        }),
        None => None,
    }
}
