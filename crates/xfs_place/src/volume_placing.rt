//! The trees and the free lists of all groups.

ghost use Rattle.std.specs.Prelude.{◌≡◌, ◌≤◌, ◌<◌, ◌*◌, ◌^◌, ◌⊎◌, ℕ, List, length, slice_index_or, All, IfOk, IfErr, MatchOption, None, Some};
ghost use Rattle.xfs_geom.specs.Volumes.{volume_of};
ghost use Rattle.xfs_place.specs.Choice.{IsChosenCount};
ghost use Rattle.xfs_place.specs.Placing.{IsPlacedGroup, inner_blocks};
ghost use Rattle.xfs_place.specs.Standing.{AreOfPool};
ghost use Rattle.xfs_place.specs.Wanted.{AreAllClaims, CanBeKept, ArePlaced, IsWithoutRoom, group_in, uses_in};

use crate::claims::{list_claims, list_group};
use crate::faults::{PlaceFault, Unplaced};
use crate::group_placing::place_group;
use crate::placed::GroupPlaced;
use crate::uses::Use;
use crate::wanted::GroupInodes;
use crate::windows::Window;
use std::alloc::Global;
use xfs_disk::NoMemory;
use xfs_geom::{Geometry, InoRec, Run};

/// Places the trees and the free lists of all groups. Of what is kept, no two runs have a block in common and none has
/// one with a fixed use.
///
/// `NoRoom` of the first group whose trees have none; `NoMemory` where memory is wanting.
pub fn place_groups(
    alloc: Global,
    g: &Geometry,
    kept: &[Run],
    reserved: &[u64],
    inodes: &[GroupInodes],
) -> Result<Vec<GroupPlaced>, PlaceFault>
    requires kept { CanBeKept (volume_of g.now) kept.now }
    requires inodes { length inodes.now ≡ g.now.agcount }
    requires few { All (λ group. length group.records < 2 ^ 32) inodes.now }
    ensures placed { IfOk result (λ groups. ArePlaced (volume_of g.now) kept.now reserved.now inodes.now g.now.agcount groups.items) }
    ensures pool { IfOk result (λ groups. AreOfPool (volume_of g.now) kept.now reserved.now inodes.now g.now.agcount groups.items) }
    ensures cause { IfErr result (λ fault. (fault ≡ PlaceFault.NoMemory)
        ⊎ ((ag : ℕ) × (fault ≡ PlaceFault.NoRoom (Unplaced.Group ag)) × IsWithoutRoom (volume_of g.now) kept.now reserved.now inodes.now ag)) }
{
    let claims = list_claims(alloc, g, kept)?;
    let work = Work {
        geometry: g,
        kept,
        reserved,
        claims: &claims,
    };
    let mut window = Window::new(alloc);
    let mut groups = Vec::new(alloc);
    for ag in 0..g.agcount {
        window.reach(alloc, g, kept, reserved, ag)?;
        let uses = window.group(g, ag);
        let records = inodes[ag as usize].records.as_slice();
        let Some(placed) = place_one(alloc, &work, uses, ag, records)? else {
            return Err(PlaceFault::NoRoom(Unplaced::Group(ag)));
        };
        groups.push(placed)?;
    }
    Ok(groups)
}

/// What is known of a volume before its trees are placed.
#[derive(Clone, Copy)]
struct Work<'a> {
    geometry: &'a Geometry,
    /// The runs of what is kept.
    kept: &'a [Run],
    reserved: &'a [u64],
    /// The claims of the volume in order.
    claims: &'a [Run],
}

/// Places the trees and the free list of one group, by the uses of its blocks.
fn place_one(
    alloc: Global,
    work: &Work<'_>,
    uses: &[Use],
    ag: u32,
    inodes: &[InoRec],
) -> Result<Option<GroupPlaced>, NoMemory>
    requires group { ag < work.now.geometry.now.agcount }
    requires few { length inodes.now < 2 ^ 32 }
    requires kept { CanBeKept (volume_of work.now.geometry.now) work.now.kept.now }
    requires uses { uses.now ≡ uses_in (volume_of work.now.geometry.now) work.now.kept.now work.now.reserved.now ag }
    requires claims { AreAllClaims (volume_of work.now.geometry.now) work.now.kept.now work.now.claims.now }
    ensures { IfOk result (λ placed. MatchOption placed
        (IsChosenCount (group_in (volume_of work.now.geometry.now) work.now.kept.now work.now.reserved.now ag (inner_blocks inodes.now)) None)
        (IsPlacedGroup (group_in (volume_of work.now.geometry.now) work.now.kept.now work.now.reserved.now ag (inner_blocks inodes.now)) (ag * work.now.geometry.now.agblocks) inodes.now)) }
{
    let base = work.geometry.start_of_group(ag);
    let blocks = work.geometry.group_length(ag) as u64;
    let claims = list_group(alloc, work.claims, base, blocks)?;
    Ok(place_group(alloc, uses, &claims, inodes, base)?)
}
