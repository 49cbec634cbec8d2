//! The owners of a group's blocks once its trees and its free list are placed.

ghost use Rattle.std.specs.Prelude.{◌≡◌, ◌≤◌, ◌<◌, ◌+◌, ◌++◌, ◌^◌, ◌&&◌, ℕ, Option, List, nat_le, nat_lt, length, IfOk};
ghost use Rattle.xfs_place.specs.Choice.{AreLowest, IsPlacingGroup, group_claimed, owner_of};
ghost use Rattle.xfs_place.specs.Claims.{AreClaims};
ghost use Rattle.xfs_place.specs.Placing.{AreOwned, tree_claims};
ghost use Rattle.xfs_place.specs.declared.uses.Use.{Use};

use crate::claims::sort_runs;
use crate::uses::{INODE_TREE_OWNER, SPACE_OWNER};
use std::alloc::Global;
use xfs_disk::NoMemory;
use xfs_geom::Run;

/// The claims of a group and these blocks of its pool, of which the first `space` go to the trees of free space, the
/// next `inner` to the inode trees and the others to the tree of owners and the free list, in order.
pub fn list_owned(
    alloc: Global,
    claims: &[Run],
    blocks: &[u32],
    space: u64,
    inner: u64,
) -> Result<Vec<Run>, NoMemory>
    requires space { (space < 2 ^ 40) × (inner < 2 ^ 40) }
    ensures { IfOk result (λ owned. (uses : List Use) → length uses < 2 ^ 63 → IsPlacingGroup (group_claimed uses claims.now inner) → AreClaims (length uses) claims.now
        → AreLowest uses blocks.now → AreOwned (group_claimed uses claims.now inner) space (length blocks.now) owned.items) }
{
    let runs = add_blocks(alloc, claims, blocks, space, inner)?;
    Ok(sort_runs(runs)?)
}

/// The claims, and a run for each of the blocks.
fn add_blocks(
    alloc: Global,
    claims: &[Run],
    blocks: &[u32],
    space: u64,
    inner: u64,
) -> Result<Vec<Run>, NoMemory>
    requires space { (space < 2 ^ 40) × (inner < 2 ^ 40) }
    ensures { IfOk result (λ runs. (uses : List Use) → runs.items ≡ claims.now ++ tree_claims (group_claimed uses claims.now inner) space blocks.now (length blocks.now)) }
{
    let mut runs = Vec::new(alloc);
    runs.extend_from_slice(claims)?;
    for (k, block) in blocks.iter().enumerate() {
        runs.push(Run {
            start: *block as u64,
            count: 1,
            owner: owner_by(space, inner, k as u64),
            offset_word: 0,
        })?;
    }
    Ok(runs)
}

/// The owner of the block of a rank.
fn owner_by(space: u64, inner: u64, k: u64) -> u64
    requires { (space < 2 ^ 40) × (inner < 2 ^ 40) }
    ensures { result ≡ owner_of (nat_le space k && nat_lt k (space + inner)) }
{
    if space <= k && k < space + inner {
        INODE_TREE_OWNER
    } else {
        SPACE_OWNER
    }
}
