//! The lowest blocks of a group's pool, one after another, and what is left when they are taken.

ghost use Rattle.std.specs.Prelude.{◌≡◌, ◌≤◌, ◌<◌, ◌+◌, ◌^◌, ◌++◌, [], ◌∷◌, length, true, IfOk, MatchOption, false, ◌||◌, ◌&&◌, ◌-◌, ◌*◌, nat_lt, slice_index, Option, ℕ};
ghost use Rattle.xfs_place.specs.Choice.{IsPlacingGroup, NoneOpen, Stands, begins_free, claim_count, group, need, owner_count, blocks_of_size, free_run_count, in_pool, is_for_inodes, is_for_space, is_spare, met_neighbours, one_if, rank, total};
ghost use Rattle.xfs_place.specs.Pool.{is_open, use_at};

use crate::uses::{Use, is_open};
use std::alloc::Global;
use xfs_disk::NoMemory;
use xfs_treebuild::tree_size;

/// The lowest blocks of a group's pool.
#[derive(Drop)]
pub struct Lowest {
    /// Their AG blocks, ascending.
    pub blocks: Vec<u32>,
    /// For none to all of them, how many blocks beside them each would be one record with, as a block of the
    /// trees of free space or of owners, summed up.
    pub space: Vec<u64>,
    /// The same as a block of the inode trees.
    pub inodes: Vec<u64>,
    /// The first AG block that is not looked at yet.
    pub next: usize,
    /// The runs of free blocks that are left when these are taken.
    pub free: u64,
}

impl Lowest {
    /// No block.
    pub fn new(alloc: Global, uses: &[Use]) -> Result<Lowest, NoMemory>
        requires { length uses.now ≤ 2 ^ 32 }
        ensures stands { IfOk result (λ lowest. Stands uses.now lowest) }
        ensures none { IfOk result (λ lowest. lowest.blocks.items ≡ []) }
    {
        Ok(Lowest {
            blocks: Vec::new(alloc),
            space: vec![in alloc; 0]?,
            inodes: vec![in alloc; 0]?,
            next: 0,
            free: count_free(uses),
        })
    }

    /// The first blocks of the pool, so many.
    pub fn first(alloc: Global, uses: &[Use], blocks: usize) -> Result<Lowest, NoMemory>
        requires few { length uses.now ≤ 2 ^ 32 }
        requires header { use_at uses.now 0 ≡ Use.Claimed }
        requires there { blocks ≤ rank uses.now (length uses.now) }
        ensures stands { IfOk result (λ lowest. Stands uses.now lowest) }
        ensures all { IfOk result (λ lowest. length lowest.blocks.items ≡ blocks) }
    {
        let mut lowest = Lowest::new(alloc, uses)?;
        for _block in 0..blocks {
            let _taken = lowest.take_next(uses)?;
        }
        Ok(lowest)
    }

    /// Takes the next block of the pool; false where there is none.
    pub fn take_next(&mut self, uses: &[Use]) -> Result<bool, NoMemory>
        requires few { length uses.now ≤ 2 ^ 32 }
        requires header { use_at uses.now 0 ≡ Use.Claimed }
        requires stands { Stands uses.now self.old }
        ensures stands { IfOk result (λ more. Stands uses.now self.new) }
        ensures taken { IfOk result (λ more. length self.new.blocks.items ≡ length self.old.blocks.items + one_if more) }
        ensures all { IfOk result (λ more. more ≡ false → rank uses.now (length uses.now) ≡ length self.old.blocks.items) }
    {
        let Some(block) = next_open(uses, self.next) else {
            return Ok(false);
        };
        let last = self.blocks.len();
        let space = self.space[last] + meets_space(uses, block);
        let inodes = self.inodes[last] + meets_inodes(uses, block);
        let free = self.free + free_beside(uses, block) - 1;
        self.blocks.push(block as u32)?;
        self.space.push(space)?;
        self.inodes.push(inodes)?;
        self.next = block + 1;
        self.free = free;
        Ok(true)
    }

    /// The blocks of the five trees of the group where these blocks are taken: `inner` of the two inode trees, and
    /// of the others, where there are so many records of owners before anything is placed.
    pub fn need(&self, uses: &[Use], inner: u64, records: u64) -> u64
        requires few { length uses.now ≤ 2 ^ 32 }
        requires inner { (0 < inner) × (inner < 2 ^ 40) }
        requires records { records < 2 ^ 40 }
        requires stands { Stands uses.now self.now }
        ensures value { (claim : ℕ → Option (ℕ × ℕ)) → IsPlacingGroup (group uses.now claim inner) → claim_count (group uses.now claim inner) ≡ records
            → result ≡ need (group uses.now claim inner) (length self.now.blocks.items) }
        ensures small { result < 2 ^ 50 }
    {
        let space = self.space_blocks(uses);
        let owners = self.owners(uses, space, inner, records);
        space + inner + tree_blocks(168, 91, owners)
    }

    /// The blocks of the two trees of free space where these blocks are taken.
    pub fn space_blocks(&self, uses: &[Use]) -> u64
        requires few { length uses.now ≤ 2 ^ 32 }
        requires stands { Stands uses.now self.now }
        ensures value { result ≡ 2 * blocks_of_size 505 336 (free_run_count uses.now (length self.now.blocks.items)) }
        ensures some { 0 < result }
        ensures small { result < 2 ^ 36 }
    {
        2 * tree_blocks(505, 336, self.free)
    }

    /// The records of owners where these blocks are taken, of which the first `space` go to the trees of free space
    /// and the next `inner` to the inode trees.
    fn owners(&self, uses: &[Use], space: u64, inner: u64, records: u64) -> u64
        requires few { length uses.now ≤ 2 ^ 32 }
        requires space { (0 < space) × (space < 2 ^ 40) }
        requires inner { (0 < inner) × (inner < 2 ^ 40) }
        requires records { records < 2 ^ 40 }
        requires stands { Stands uses.now self.now }
        ensures value { (claim : ℕ → Option (ℕ × ℕ)) → IsPlacingGroup (group uses.now claim inner) → claim_count (group uses.now claim inner) ≡ records
            → result ≡ owner_count (group uses.now claim inner) space (length self.now.blocks.items) }
        ensures small { result < 2 ^ 42 }
    {
        let all = self.blocks.len();
        let from = space.min(all as u64) as usize;
        let to = (space + inner).min(all as u64) as usize;
        let parts = records
            + all as u64
            + self.touches(uses, space)
            + self.touches(uses, space + inner);
        let more = parts + self.sum_of_inodes(uses, from) + self.sum_of_space(uses, to);
        let less = self.sum_of_space(uses, from)
            + self.sum_of_inodes(uses, to)
            + self.sum_of_space(uses, all);
        more.saturating_sub(less)
    }

    /// The sum for the first blocks as those of the trees of free space or of owners.
    fn sum_of_space(&self, uses: &[Use], blocks: usize) -> u64
        requires few { blocks ≤ length self.now.blocks.items }
        requires all { length uses.now ≤ 2 ^ 32 }
        requires stands { Stands uses.now self.now }
        ensures value { result ≡ total (λ k. met_neighbours uses.now false (slice_index self.now.blocks.items k)) blocks }
        ensures small { result ≤ 2 ^ 34 }
    {
        self.space[blocks]
    }

    /// The sum for the first blocks as those of the inode trees.
    fn sum_of_inodes(&self, uses: &[Use], blocks: usize) -> u64
        requires few { blocks ≤ length self.now.blocks.items }
        requires all { length uses.now ≤ 2 ^ 32 }
        requires stands { Stands uses.now self.now }
        ensures value { result ≡ total (λ k. met_neighbours uses.now true (slice_index self.now.blocks.items k)) blocks }
        ensures small { result ≤ 2 ^ 34 }
    {
        self.inodes[blocks]
    }

    /// 1 where the block of this number follows the one before it, else 0.
    fn touches(&self, uses: &[Use], number: u64) -> u64
        requires { Stands uses.now self.now }
        ensures value { result ≡ one_if (nat_lt number (length self.now.blocks.items) && in_pool uses.now (slice_index self.now.blocks.items number - 1)) }
        ensures small { result ≤ 1 }
    {
        match self.blocks.get(number as usize) {
            Some(block) => one_if(is_open(use_at(uses, (*block as usize).saturating_sub(1)))),
            None => 0,
        }
    }
}

/// The next block of the pool, from an AG block on.
fn next_open(uses: &[Use], from: usize) -> Option<usize>
    ensures { MatchOption result (NoneOpen uses.now from (length uses.now)) (λ block. (from ≤ block) × (block < length uses.now)
        × (in_pool uses.now block ≡ true) × NoneOpen uses.now from block) }
{
    for block in from..uses.len() {
        if is_open(uses[block]) {
            return Some(block);
        }
    }
    None
}

/// With how many of the blocks beside it a block would be one record, as one of the trees of free space or of owners.
fn meets_space(uses: &[Use], block: usize) -> u64
    requires { (0 < block) × (block < length uses.now) }
    ensures value { result ≡ met_neighbours uses.now false block }
    ensures small { result ≤ 2 }
{
    let before = uses[block - 1];
    let behind = use_at(uses, block + 1);
    one_if(is_open(before) || is_for_space(before)) + one_if(is_for_space(behind))
}

/// The same as one of the inode trees.
fn meets_inodes(uses: &[Use], block: usize) -> u64
    requires { (0 < block) × (block < length uses.now) }
    ensures value { result ≡ met_neighbours uses.now true block }
    ensures small { result ≤ 2 }
{
    let before = uses[block - 1];
    let behind = use_at(uses, block + 1);
    one_if(is_open(before) || is_for_inodes(before)) + one_if(is_for_inodes(behind))
}

/// How many of the blocks beside the lowest block that is left of the pool are free.
fn free_beside(uses: &[Use], block: usize) -> u64
    requires { (0 < block) × (block < length uses.now) }
    ensures value { result ≡ one_if (is_spare (use_at uses.now (block - 1))) + one_if (is_spare (use_at uses.now (block + 1)) || in_pool uses.now (block + 1)) }
    ensures small { result ≤ 2 }
{
    let behind = use_at(uses, block + 1);
    one_if(is_spare(uses[block - 1])) + one_if(is_free(behind))
}

/// How many runs of free blocks a group has where nothing is taken of its pool.
fn count_free(uses: &[Use]) -> u64
    requires { length uses.now ≤ 2 ^ 32 }
    ensures { result ≡ free_run_count uses.now 0 }
{
    let mut runs = 0;
    for block in 0..uses.len() {
        runs += one_if(begins_free(uses, block));
    }
    runs
}

/// 1 where a test passes, else 0.
fn one_if(test: bool) -> u64
    ensures value { result ≡ one_if test }
    ensures small { result ≤ 1 }
{
    if test { 1 } else { 0 }
}

/// Whether a run of free blocks begins at a block.
fn begins_free(uses: &[Use], block: usize) -> bool
    requires { block < length uses.now }
    ensures { result ≡ begins_free uses.now 0 block }
{
    is_free(uses[block]) && !(0 < block && is_free(uses[block - 1]))
}

/// Whether a block is free where nothing is taken of the pool.
fn is_free(now: Use) -> bool
    ensures { result ≡ (is_spare now || is_open now) }
{
    is_spare(now) || is_open(now)
}

/// Whether nothing may stand on a block although it becomes free.
pub fn is_spare(now: Use) -> bool
    ensures { result ≡ is_spare now }
{
    match now {
        Use::Reserved => true,
        Use::Pool | Use::Claimed | Use::ForSpace | Use::ForInodes => false,
    }
}

/// Whether a block is claimed as one of the trees of free space or of owners would be.
fn is_for_space(now: Use) -> bool
    ensures { result ≡ is_for_space now }
{
    match now {
        Use::ForSpace => true,
        Use::Pool | Use::Reserved | Use::Claimed | Use::ForInodes => false,
    }
}

/// Whether a block is claimed as one of the inode trees would be.
fn is_for_inodes(now: Use) -> bool
    ensures { result ≡ is_for_inodes now }
{
    match now {
        Use::ForInodes => true,
        Use::Pool | Use::Reserved | Use::Claimed | Use::ForSpace => false,
    }
}

/// The use of a block; none behind the group may be given away.
fn use_at(uses: &[Use], block: usize) -> Use
    ensures { result ≡ use_at uses.now block }
{
    match uses.get(block) {
        Some(now) => *now,
        None => Use::Claimed,
    }
}

/// The blocks of a packed tree.
pub fn tree_blocks(leaf_cap: u64, node_cap: u64, records: u64) -> u64
    requires leaves { 1 ≤ leaf_cap }
    requires nodes { 2 ≤ node_cap }
    requires records { records < 2 ^ 44 }
    ensures value { result ≡ blocks_of_size leaf_cap node_cap records }
    ensures some { 0 < result }
    ensures small { result ≤ 3 * records + 3 }
{
    tree_size(leaf_cap, node_cap, records)
}
