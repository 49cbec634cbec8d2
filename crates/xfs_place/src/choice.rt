//! How many blocks of its pool a group gives to its trees and its free list.

ghost use Rattle.std.specs.Prelude.{◌≡◌, ◌≤◌, ◌<◌, ◌+◌, ◌^◌, ◌&&◌, ℕ, Option, nat_le, if◌then◌else◌, length, IfOk, MatchOption};
ghost use Rattle.xfs_place.specs.Choice.{IsChosenCount, IsPlacingGroup, Stands, claim_count, group};
ghost use Rattle.xfs_place.specs.Pool.{use_at};

use crate::lowest::Lowest;
use crate::uses::Use;
use xfs_disk::NoMemory;

/// The fewest blocks that the free list of a group should have.
const FEWEST: u64 = 6;

/// The most blocks that it may have.
const MOST: u64 = 118;

/// Finds how many of the lowest blocks of the pool go to the trees and the free list, and those blocks. The two inode
/// trees take `inner` blocks, and there are so many records of owners before anything is placed. `None` where the trees
/// have no room.
pub fn choose_count(
    lowest: &mut Lowest,
    uses: &[Use],
    inner: u64,
    records: u64,
) -> Result<Option<usize>, NoMemory>
    requires few { length uses.now ≤ 2 ^ 32 }
    requires header { use_at uses.now 0 ≡ Use.Claimed }
    requires inner { (0 < inner) × (inner < 2 ^ 40) }
    requires records { records < 2 ^ 40 }
    requires stands { Stands uses.now lowest.old }
    requires none { length lowest.old.blocks.items ≡ 0 }
    ensures stands { IfOk result (λ chosen. Stands uses.now lowest.new) }
    ensures there { IfOk result (λ chosen. MatchOption chosen (Unit {0}) (λ n. n ≤ length lowest.new.blocks.items)) }
    ensures chosen { IfOk result (λ chosen. (claim : ℕ → Option (ℕ × ℕ)) → IsPlacingGroup (group uses.now claim inner)
        → claim_count (group uses.now claim inner) ≡ records → IsChosenCount (group uses.now claim inner) chosen) }
{
    let mut poor = None;
    for n in 0..uses.len() + 1 {
        let need = lowest.need(uses, inner, records);
        if is_left(n as u64, need, FEWEST, MOST) {
            return Ok(Some(n));
        }
        poor = later(poor, n, is_left(n as u64, need, 0, FEWEST - 1));
        if !lowest.take_next(uses)? {
            return Ok(poor);
        }
    }
    Ok(poor)
}

/// Whether some blocks leave from `low` to `high` of them behind those that are needed.
fn is_left(blocks: u64, need: u64, low: u64, high: u64) -> bool
    requires need { need < 2 ^ 50 }
    requires bounds { (low < 256) × (high < 256) }
    ensures { result ≡ (nat_le (need + low) blocks && nat_le blocks (need + high)) }
{
    need + low <= blocks && blocks <= need + high
}

/// A number where it passes, else the one before it.
fn later(before: Option<usize>, n: usize, passes: bool) -> Option<usize>
    ensures { result ≡ (if passes then Some n else before) }
{
    if passes { Some(n) } else { before }
}
