//! The three laws of space, one after the other.

ghost use Rattle.std.specs.Prelude.{◌≡◌, ◌≢◌, ◌↔◌, ◌++◌, ℕ, List, None, length, IfOk, IfSome};
ghost use Rattle.std.specs.List.{All};
ghost use Rattle.xfs_geom.specs.Volumes.{volume_of};
ghost use Rattle.xfs_volume.specs.declared.findings.Law.{Law};
ghost use Rattle.xfs_volume.specs.Laws.{first_broken};
ghost use Rattle.xfs_space.specs.Maps.{AreAlike};
ghost use Rattle.xfs_space.specs.Parts.{AreGroups, HasLawfulForks};
ghost use Rattle.xfs_space.specs.Private.RunLaws.{AreLawful, run_laws};
ghost use Rattle.xfs_space.specs.SpaceLaws.{AllAreFree, IsSpaceLawful, free_laws, owner_laws, recorded_runs, space_laws};
ghost use Rattle.xfs_space.specs.Sorted.{Follow, IsOfOneGroup, IsOwned, StartsRise};

use crate::free_space::free_law;
use crate::owners::owned_runs;
use crate::recorded::owner_law;
use crate::sharing::sharing_law;
use crate::sorting::in_order;
use std::alloc::Global;
use std::thread::Threads;
use xfs_disk::NoMemory;
use xfs_geom::{Geometry, Run};
use xfs_volume::{FileRec, GroupRec, Law};

/// The first law of space that a volume with these groups and files breaks, at the least place at which it
/// does, or `None` where it keeps all three. First, no block has two owners; then, the trees of free runs are
/// the maximal runs of the blocks without an owner; then, the reverse-mapping trees record each block's owner
/// and offset word, and no other block.
///
/// The groups are those of the volume in their order; each has lawful records in its trees and lists, and each
/// file lawful extents. From two `workers` on the owned runs are sorted in as many threads as there are processors.
///
/// `NoMemory` where memory is wanting.
pub fn check_space<R: Threads + Sync>(
    rt: &R,
    alloc: Global,
    workers: u32,
    g: &Geometry,
    groups: &[GroupRec],
    files: &[FileRec],
) -> Result<Option<Law>, NoMemory>
    requires count { length groups.now ≡ g.now.agcount }
    requires groups { AreGroups (volume_of g.now) 0 groups.now }
    requires files { All (HasLawfulForks (volume_of g.now)) files.now }
    ensures law { IfOk result (λ law. law ≡ first_broken (space_laws (volume_of g.now) groups.now files.now)) }
    ensures differs { IfOk result (λ law. IfSome law (λ (broken : Law). broken.held ≢ broken.due)) }
    ensures lawful { IfOk result (λ law. law ≡ None ↔ IsSpaceLawful (volume_of g.now) groups.now files.now) }
{
    let runs = owned_runs(alloc, g, groups, files)?;
    let sorted = in_order(rt, alloc, workers, runs)?;
    let law = runs_law(alloc, g, groups, &sorted)?;
    Ok(law)
}

/// The same, given the owned runs in order.
fn runs_law(
    alloc: Global,
    g: &Geometry,
    groups: &[GroupRec],
    runs: &[Run],
) -> Result<Option<Law>, NoMemory>
    requires count { length groups.now ≡ g.now.agcount }
    requires lawful { AreGroups (volume_of g.now) 0 groups.now }
    requires rise { StartsRise 0 runs.now }
    requires owned { All (IsOwned (volume_of g.now)) runs.now }
    requires groups { All (IsOfOneGroup (volume_of g.now)) runs.now }
    ensures law { IfOk result (λ law. law ≡ first_broken (run_laws (volume_of g.now) groups.now runs.now)) }
    ensures lawful { IfOk result (λ law. law ≡ None → AreLawful (volume_of g.now) groups.now runs.now) }
{
    match sharing_law(runs) {
        Some(law) => Ok(Some(law)),
        None => {
            let law = trees_law(alloc, g, groups, runs)?;
            Ok(law)
        }
    }
}

/// The second law and the third, given the owned runs in order, of which no two have a block in common.
fn trees_law(
    alloc: Global,
    g: &Geometry,
    groups: &[GroupRec],
    runs: &[Run],
) -> Result<Option<Law>, NoMemory>
    requires count { length groups.now ≡ g.now.agcount }
    requires lawful { AreGroups (volume_of g.now) 0 groups.now }
    requires follow { Follow 0 runs.now }
    requires owned { All (IsOwned (volume_of g.now)) runs.now }
    requires groups { All (IsOfOneGroup (volume_of g.now)) runs.now }
    ensures law { IfOk result (λ law. law ≡ first_broken (free_laws (volume_of g.now) runs.now 0 groups.now ++ owner_laws (volume_of g.now) (recorded_runs g.now.agblocks 0 groups.now) runs.now)) }
    ensures lawful { IfOk result (λ law. law ≡ None → AllAreFree (volume_of g.now) runs.now 0 groups.now × AreAlike (recorded_runs g.now.agblocks 0 groups.now) runs.now) }
{
    match free_law(alloc, g, groups, runs)? {
        Some(law) => Ok(Some(law)),
        None => Ok(owner_law(g, groups, runs)),
    }
}
