//! The pairs of an index.

ghost use Rattle.std.specs.Prelude.{◌≡◌, ◌+◌, ◌*◌, ◌≤◌, ◌<◌, ◌^◌, length, filter, count_by, IfOk};
ghost use Rattle.xfs_dirindex.specs.Pairs.{pair_at, pairs_at, is_stale, is_live, rises, same_pairs, is_index};

use crate::same::same_pairs;
use std::alloc::{AllocError, Global};
use xfs_word::get32;

/// How many bytes a pair has.
pub const PAIR_SIZE: usize = 8;

/// A pair of an index: where the entry stands whose name has a hash (chapter "Directories").
#[derive(Clone, Copy, PartialEq, Eq, PartialOrd, Ord)]
pub struct Pair {
    /// The hash of the name.
    pub hash: u32,
    /// Where the entry stands in the file, in units of 8 bytes; 0 where the pair is stale.
    pub address: u64,
}

/// Whether the pairs of an index are sound: hashes do not descend, so many are stale, and the others are
/// exactly those that are due, in any order.
#[tactic(auto, unfolding(crate::specs::Pairs::is_index))]
pub fn is_index(
    alloc: Global,
    pairs: &[Pair],
    stale: usize,
    due: &[Pair],
) -> Result<bool, AllocError>
    ensures { IfOk result (λ sound. sound ≡ is_index pairs.now stale due.now) }
{
    if !rise(pairs) {
        return Ok(false);
    }
    if count_stale(pairs) != stale {
        return Ok(false);
    }
    same_pairs(alloc, &live(alloc, pairs)?, due)
}

/// So many pairs that stand from a byte offset on.
#[tactic(auto, unfolding(crate::specs::Pairs::pairs_at))]
pub fn read_pairs(
    alloc: Global,
    bytes: &[u8],
    at: usize,
    count: usize,
) -> Result<Vec<Pair>, AllocError>
    requires inside { at + 8 * count ≤ length bytes.now }
    ensures pairs { IfOk result (λ pairs. pairs.items ≡ pairs_at bytes.now at count) }
{
    let mut pairs = Vec::with_capacity(alloc, count)?;
    for k in 0..count {
        pairs.push(pair_at(bytes, at + PAIR_SIZE * k))?;
    }
    Ok(pairs)
}

/// The pair at a byte offset.
pub fn pair_at(bytes: &[u8], at: usize) -> Pair
    requires { at + 8 ≤ length bytes.now }
    ensures { result ≡ pair_at bytes.now at }
{
    Pair {
        hash: get32(bytes, at),
        address: get32(bytes, at + 4) as u64,
    }
}

/// Whether no hash is below the one before it.
fn rise(pairs: &[Pair]) -> bool
    ensures { result ≡ rises 0 pairs.now }
{
    let mut least = 0;
    for pair in pairs {
        if pair.hash < least {
            return false;
        }
        least = pair.hash;
    }
    true
}

/// How many pairs are stale.
pub fn count_stale(pairs: &[Pair]) -> usize
    ensures { result ≡ count_by is_stale pairs.now }
{
    let mut count = 0;
    for pair in pairs {
        if is_stale(*pair) {
            count += 1;
        }
    }
    count
}

/// The pairs that are not stale.
fn live(alloc: Global, pairs: &[Pair]) -> Result<Vec<Pair>, AllocError>
    ensures { IfOk result (λ live. live.items ≡ filter is_live pairs.now) }
{
    let mut live = Vec::with_capacity(alloc, pairs.len())?;
    for pair in pairs {
        if !is_stale(*pair) {
            live.push(*pair)?;
        }
    }
    Ok(live)
}

/// Whether a pair is stale.
fn is_stale(pair: Pair) -> bool
    ensures { result ≡ is_stale pair }
{
    pair.address == 0
}
