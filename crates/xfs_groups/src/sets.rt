//! Sets of blocks.

ghost use Rattle.std.specs.Prelude.{◌≡◌, ◌+◌, ◌*◌, ◌^◌, ◌<◌, ◌==◌, ◌&&◌, ◌||◌, ◌++◌, ◌∷◌, ◌≤◌, drop, length, if◌then◌else◌, nat_le, nat_lt, ℕ, [], OnOk, IfOk};
ghost use Rattle.std.specs.List.{All, filter, list_any, range_with_len};
ghost use Rattle.std.specs.List.Sorted.{IsStrictlySortedBy};
ghost use Rattle.std.specs.Ordering.{nat_cmp};
ghost use Rattle.xfs_disk.specs.Lists.{is_among};
ghost use Rattle.xfs_image.specs.Claims.{is_of_cluster};
ghost use Rattle.xfs_groups.specs.Sets.{Rising, SameFrom, StartsFrom};

use std::alloc::Global;
use std::collections::BTreeSet;
use std::marker::Model;
use xfs_disk::NoMemory;

/// Some blocks, by number, of which a set is made at once: one that grows block by block takes several times as long.
#[derive(Drop)]
pub(crate) struct BlockList {
    blocks: Vec<u64>,
}

impl Model for BlockList {
    ghost use Rattle.std.specs.Prelude.{List, ℕ};

    ghost Value = { List ℕ };

    ghost view = { λ list. list.blocks.items };
}

impl BlockList {
    /// No block.
    pub fn new(alloc: Global) -> BlockList
        ensures { result ≡ [] }
    {
        BlockList {
            blocks: Vec::new(alloc),
        }
    }

    /// Adds a block.
    pub fn add(&mut self, block: u64) -> Result<(), NoMemory>
        ensures { OnOk result ((q : ℕ) → is_among self.new q ≡ (is_among self.old q || block == q)) }
    {
        self.blocks.push(block)?;
        Ok(())
    }

    /// Adds some blocks.
    pub fn add_all(&mut self, blocks: &[u64]) -> Result<(), NoMemory>
        ensures { OnOk result ((q : ℕ) → is_among self.new q ≡ (is_among self.old q || is_among blocks.now q)) }
    {
        for block in blocks {
            self.add(*block)?;
        }
        Ok(())
    }

    /// Adds the blocks of two lists, which are often the same.
    pub fn add_both(&mut self, xs: &[u64], ys: &[u64]) -> Result<(), NoMemory>
        ensures { OnOk result ((q : ℕ) → is_among self.new q ≡ (is_among self.old q || (is_among xs.now q || is_among ys.now q))) }
    {
        self.add_all(xs)?;
        if xs == ys {
            return Ok(());
        }
        self.add_all(ys)
    }

    /// Adds the four blocks of each of the clusters of two lists, which are often the same.
    pub fn add_both_clusters(&mut self, xs: &[u64], ys: &[u64]) -> Result<(), NoMemory>
        requires xs { All (λ cluster. cluster < 2 ^ 32) xs.now }
        requires ys { All (λ cluster. cluster < 2 ^ 32) ys.now }
        ensures { OnOk result ((q : ℕ) → is_among self.new q
            ≡ (is_among self.old q || (list_any (λ cluster. is_of_cluster cluster q) xs.now || list_any (λ cluster. is_of_cluster cluster q) ys.now))) }
    {
        self.add_clusters(xs)?;
        if xs == ys {
            return Ok(());
        }
        self.add_clusters(ys)
    }

    /// Adds the four blocks of each of some clusters.
    pub fn add_clusters(&mut self, clusters: &[u64]) -> Result<(), NoMemory>
        requires { All (λ cluster. cluster < 2 ^ 32) clusters.now }
        ensures { OnOk result ((q : ℕ) → is_among self.new q ≡ (is_among self.old q || list_any (λ cluster. is_of_cluster cluster q) clusters.now)) }
    {
        for cluster in clusters {
            self.add_cluster(*cluster)?;
        }
        Ok(())
    }

    /// Adds the four blocks of a cluster.
    #[tactic(auto, using(crate::proofs::BlockSets::four_blocks))]
    fn add_cluster(&mut self, cluster: u64) -> Result<(), NoMemory>
        requires { cluster < 2 ^ 32 }
        ensures { OnOk result ((q : ℕ) → is_among self.new q ≡ (is_among self.old q || is_of_cluster cluster q)) }
    {
        self.add(cluster)?;
        self.add(cluster + 1)?;
        self.add(cluster + 2)?;
        self.add(cluster + 3)
    }

    /// The set of these blocks.
    pub fn into_set(self, alloc: Global) -> Result<BlockSet, NoMemory>
        ensures { IfOk result (λ set. (q : ℕ) → is_among set q ≡ is_among self q) }
    {
        let BlockList { blocks } = self;
        let set = blocks.into_iter().collect(alloc)?;
        Ok(BlockSet { set })
    }
}

/// A set of blocks, by number. Contracts see them as an ascending list.
#[derive(Drop)]
pub(crate) struct BlockSet {
    set: BTreeSet<u64>,
}

impl Model for BlockSet {
    ghost use Rattle.std.specs.Prelude.{List, ℕ};

    ghost Value = { List ℕ };

    ghost view = { λ blocks. blocks.set.keys };
}

impl BlockSet {
    /// Whether the block is one of the set.
    pub fn has(&self, block: u64) -> bool
        ensures { result ≡ is_among self.now block }
    {
        self.set.contains(&block)
    }

    /// Those of the set that are one of so many blocks from a first one on, ascending.
    pub fn within(&self, alloc: Global, first: u64, count: u32) -> Result<Vec<u64>, NoMemory>
        requires { first < 2 ^ 32 }
        ensures { IfOk result (λ blocks. blocks.items ≡ filter (is_among self.now) (range_with_len first count)) }
    {
        self.between(alloc, first, first + count as u64)
    }

    /// Those of the set from a first one on that are below an end, ascending.
    fn between(&self, alloc: Global, first: u64, end: u64) -> Result<Vec<u64>, NoMemory>
        ensures between { IfOk result (λ blocks. blocks.items ≡ filter (λ q. nat_le first q && nat_lt q end) self.now) }
        ensures sorted { IsStrictlySortedBy nat_cmp self.now }
    {
        let blocks = self
            .set
            .iter()
            .copied()
            .filter(|block| first <= *block && *block < end)
            .collect(alloc)?;
        Ok(blocks)
    }
}

/// The index of the first block at a place or behind it, of blocks from an index on.
#[tactic(auto, using(crate::proofs::Along::passed, crate::proofs::Along::starts_at))]
pub(crate) fn first_from(blocks: &[u64], from: usize, place: u64) -> usize
    requires { from ≤ length blocks.now }
    ensures high { result ≤ length blocks.now }
    ensures behind { StartsFrom place (drop result blocks.now) }
    ensures alike { SameFrom place (drop from blocks.now) (drop result blocks.now) }
{
    let mut next = from;
    while next < blocks.len() && blocks[next] < place {
        next += 1;
    }
    next
}

/// Whether a place is one of some blocks that ascend, where that at an index is the first at the place or behind it.
pub(crate) fn stands_at(blocks: &[u64], at: usize, place: u64) -> bool
    requires { at ≤ length blocks.now }
    ensures { Rising 0 (drop at blocks.now) → StartsFrom place (drop at blocks.now) → result ≡ is_among (drop at blocks.now) place }
{
    if at == blocks.len() {
        return false;
    }
    blocks[at] == place
}

/// Adds a block to a list, where it is wanted.
pub(crate) fn push_if(list: &mut Vec<u64>, is_wanted: bool, block: u64) -> Result<(), NoMemory>
    ensures { OnOk result (list.new.items ≡ list.old.items ++ (if is_wanted then (block ∷ []) else [])) }
{
    if is_wanted {
        list.push(block)?;
    }
    Ok(())
}
