//! The log, and what has to lie behind its head: unlinked inodes and log sequence numbers.

ghost use Rattle.std.specs.Prelude.{◌≡◌, ◌+◌, ◌*◌, ◌^◌, ◌<◌, ◌≤◌, ◌++◌, length, map, [], ◌∷◌};
ghost use Rattle.std.specs.List.{All};
ghost use Rattle.xfs_volume.specs.Laws.{first_broken};
ghost use Rattle.xfs_laws.specs.Counting.{by_group, chains_at, group_chains, head_of, is_behind, log_at, log_laws, lsn_law};

use crate::broken::broken;
use xfs_log::LogState;
use xfs_volume::{BlockLsn, GroupRec, Law};

/// What stands for no inode at the head of a chain.
const NO_INODE: u32 = u32::MAX;

/// The places of chains come behind that of the log.
const CHAINS: u64 = 1;

/// The chains of a group.
const CHAINS_OF_GROUP: u64 = 64;

/// The places of blocks come behind those of chains.
const BLOCKS: u64 = 1 << 40;

/// The first number that says that the log has something to do: it is not clean, an inode waits to be removed, or a
/// block was written behind the head of the log.
#[tactic(auto, unfolding(xfs_volume::specs::Laws::first_broken))]
pub fn check_log(groups: &[GroupRec], log: &LogState, lsns: &[BlockLsn]) -> Option<Law>
    requires few { length groups.now ≤ 512 }
    requires inside { All (λ l. l.block < 2 ^ 26) lsns.now }
    ensures { result ≡ first_broken (log_laws groups.now log.now lsns.now) }
{
    match log {
        LogState::Clean { head } => check_behind(*head, groups, lsns),
        LogState::Dirty => broken(10, 0, 1, 0),
    }
}

/// The first number that says that a clean log has something to do.
#[tactic(auto, using(crate::proofs::Firsts::joined))]
fn check_behind(head: u64, groups: &[GroupRec], lsns: &[BlockLsn]) -> Option<Law>
    requires few { length groups.now ≤ 512 }
    requires inside { All (λ l. l.block < 2 ^ 26) lsns.now }
    ensures { result ≡ first_broken (by_group group_chains 0 groups.now ++ map (lsn_law head) lsns.now) }
{
    match check_chains(groups) {
        Some(law) => Some(law),
        None => check_lsns(head, lsns),
    }
}

/// The first chain of unlinked inodes that has one.
fn check_chains(groups: &[GroupRec]) -> Option<Law>
    requires { length groups.now ≤ 512 }
    ensures { result ≡ first_broken (by_group group_chains 0 groups.now) }
{
    let mut ag = 0;
    for group in groups {
        if let Some(law) = check_group(ag, &group.agi.unlinked) {
            return Some(law);
        }
        ag += 1;
    }
    None
}

/// The first chain of unlinked inodes of a group that has one.
#[tactic(auto, unfolding(xfs_volume::specs::Laws::first_broken))]
fn check_group(ag: u32, heads: &[u32; 64]) -> Option<Law>
    requires { ag < 512 }
    ensures { result ≡ first_broken (chains_at (1 + 64 * ag) heads.now) }
{
    let mut place = CHAINS + CHAINS_OF_GROUP * ag as u64;
    for head in heads {
        if *head != NO_INODE {
            return broken(10, place, *head as u128, NO_INODE as u128);
        }
        place += 1;
    }
    None
}

/// The first log sequence number above the head of the log.
#[tactic(auto, unfolding(xfs_volume::specs::Laws::first_broken))]
fn check_lsns(head: u64, lsns: &[BlockLsn]) -> Option<Law>
    requires { All (λ l. l.block < 2 ^ 26) lsns.now }
    ensures { result ≡ first_broken (map (lsn_law head) lsns.now) }
{
    for lsn in lsns {
        if !is_behind(head, lsn.lsn) {
            return broken(10, BLOCKS + lsn.block, lsn.lsn as u128, head as u128);
        }
    }
    None
}

/// Whether a log sequence number is none, or not above the head of the log.
fn is_behind(head: u64, lsn: u64) -> bool
    ensures { result ≡ is_behind head lsn }
{
    lsn == u64::MAX || lsn <= head
}
