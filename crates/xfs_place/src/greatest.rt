//! Numbers of which the first that is large enough, and the greatest, are found without looking at all.

ghost use Rattle.std.specs.Prelude.{◌≡◌, ◌≢◌, ◌≤◌, ◌<◌, ◌+◌, ◌*◌, ◌^◌, ℕ, nat_le, length, slice_index, slice_set, max, if◌then◌else◌, IfOk, MatchOption};
ghost use Rattle.xfs_place.specs.Greatest.{AreGreatest, Holds, SetsNumber, leaf_at, leaves_of};

use std::alloc::Global;
use xfs_disk::NoMemory;

/// Numbers, each with the greatest of the two, four, eight and so on that it stands among.
#[derive(Drop)]
pub struct Greatest {
    /// Number 1 is the greatest of all; the halves of what number i is the greatest of have theirs at 2 i and 2 i + 1. The second half are the
    /// numbers themselves, with zeros behind them.
    pub nodes: Vec<u32>,
    /// How many numbers there are, with the zeros: 2 to the power of `depth`.
    pub leaves: usize,
    pub depth: usize,
}

impl Greatest {
    /// These numbers.
    pub fn new(alloc: Global, numbers: &[u32]) -> Result<Greatest, NoMemory>
        requires { length numbers.now ≤ 2 ^ 32 }
        ensures { IfOk result (λ all. Holds numbers.now all) }
    {
        let size = size_for(numbers.len());
        let mut all = Greatest {
            nodes: zeros(alloc, 2 * size.leaves)?,
            leaves: size.leaves,
            depth: size.depth,
        };
        for k in 0..numbers.len() {
            all.set(k, numbers[k]);
        }
        Ok(all)
    }

    /// The greatest number.
    pub fn greatest(&self) -> u32
        requires stands { AreGreatest self.now.nodes.items self.now.leaves self.now.depth }
        ensures { result ≡ slice_index self.now.nodes.items 1 }
    {
        self.nodes[1]
    }

    /// One of the numbers.
    pub fn number(&self, k: usize) -> u32
        requires stands { AreGreatest self.now.nodes.items self.now.leaves self.now.depth }
        requires inside { k < self.now.leaves }
        ensures { result ≡ leaves_of self.now k }
    {
        self.nodes[self.leaves + k]
    }

    /// The place of the first number that is at least so large.
    pub fn first(&self, least: u32) -> Option<usize>
        requires stands { AreGreatest self.now.nodes.items self.now.leaves self.now.depth }
        ensures first { MatchOption result
            ((slice_index self.now.nodes.items 1 < least) × ((k : ℕ) → k < self.now.leaves → leaf_at self.now.nodes.items self.now.leaves k < least))
            (λ k. (k < self.now.leaves) × (least ≤ leaf_at self.now.nodes.items self.now.leaves k)
            × ((j : ℕ) → j < k → leaf_at self.now.nodes.items self.now.leaves j < least)) }
    {
        if self.greatest() < least {
            return None;
        }
        Some(descend(&self.nodes, self.leaves, self.depth, least))
    }

    /// Sets one of the numbers.
    pub fn set(&mut self, k: usize, number: u32)
        requires stands { AreGreatest self.old.nodes.items self.old.leaves self.old.depth }
        requires inside { k < self.old.leaves }
        ensures { SetsNumber self.old self.new k number }
    {
        put(&mut self.nodes, self.leaves, self.depth, k, number);
    }
}

/// A power of two.
#[derive(Clone, Copy)]
struct Size {
    leaves: usize,
    depth: usize,
}

/// A power of two that is at least so large.
fn size_for(count: usize) -> Size
    requires few { count ≤ 2 ^ 32 }
    ensures enough { count ≤ result.leaves }
    ensures power { result.leaves ≡ 2 ^ result.depth }
    ensures small { result.depth ≤ 32 }
    ensures bound { result.leaves ≤ 2 ^ 32 }
{
    let mut leaves = 1;
    for depth in 0..32 {
        if count <= leaves {
            return Size { leaves, depth };
        }
        leaves *= 2;
    }
    Size { leaves, depth: 32 }
}

/// So many zeros.
fn zeros(alloc: Global, count: usize) -> Result<Vec<u32>, NoMemory>
    ensures all { IfOk result (λ zeros. length zeros.items ≡ count) }
    ensures none { IfOk result (λ zeros. (n : ℕ) → n < count → slice_index zeros.items n ≡ 0) }
{
    Ok(vec![in alloc; 0; count]?)
}

/// Sets one of the numbers, and all nodes that it stands under.
fn put(nodes: &mut [u32], leaves: usize, depth: usize, k: usize, number: u32)
    requires stands { AreGreatest nodes.old leaves depth }
    requires inside { k < leaves }
    ensures stands { AreGreatest nodes.new leaves depth }
    ensures set { leaf_at nodes.new leaves k ≡ number }
    ensures others { (j : ℕ) → j < leaves → j ≢ k → leaf_at nodes.new leaves j ≡ leaf_at nodes.old leaves j }
{
    let mut node = leaves + k;
    nodes[node] = number;
    for _level in 0..depth {
        node /= 2;
        join(nodes, node);
    }
}

/// The place of the first number that is at least so large, where one is.
fn descend(nodes: &[u32], leaves: usize, depth: usize, least: u32) -> usize
    requires stands { AreGreatest nodes.now leaves depth }
    requires enough { least ≤ slice_index nodes.now 1 }
    ensures { (result < leaves) × (least ≤ leaf_at nodes.now leaves result) × ((j : ℕ) → j < result → leaf_at nodes.now leaves j < least) }
{
    let mut node = 1;
    for _level in 0..depth {
        node = lower(nodes, node, least);
    }
    node - leaves
}

/// Makes a node the greater one of the two below it.
fn join(nodes: &mut [u32], node: usize)
    requires { 2 * node + 1 < length nodes.old }
    ensures { nodes.new ≡ slice_set nodes.old node (max (slice_index nodes.old (2 * node)) (slice_index nodes.old (2 * node + 1))) }
{
    nodes[node] = nodes[2 * node].max(nodes[2 * node + 1]);
}

/// The first of the two nodes below one that is at least so large.
fn lower(nodes: &[u32], node: usize, least: u32) -> usize
    requires { 2 * node + 1 < length nodes.now }
    ensures { result ≡ (if nat_le least (slice_index nodes.now (2 * node)) then 2 * node else 2 * node + 1) }
{
    if nodes[2 * node] >= least {
        2 * node
    } else {
        2 * node + 1
    }
}
