//! The blocks that a walk over a tree has met.

ghost use Rattle.std.specs.Prelude.{◌≡◌, ℕ, ◌==◌, ◌++◌, [], ◌∷◌, not, IfOk};
ghost use Rattle.std.specs.Bool.{OnTrue};
ghost use Rattle.std.specs.List.{list_any};
ghost use Rattle.xfs_tree.specs.Answers.{IsMet};

use std::alloc::Global;
use std::collections::BTreeSet;
use xfs_disk::NoMemory;

/// Blocks by number: a list of them in the order in which they were met, and their set.
#[derive(Drop)]
pub struct MetBlocks {
    pub blocks: Vec<u64>,
    pub set: BTreeSet<u64>,
}

impl MetBlocks {
    /// No block.
    pub fn new(alloc: Global) -> MetBlocks
        ensures none { result.blocks.items ≡ [] }
        ensures met { IsMet result }
    {
        MetBlocks {
            blocks: Vec::new(alloc),
            set: BTreeSet::new(alloc),
        }
    }

    /// Whether a block is one of them.
    pub fn holds(&self, block: u64) -> bool
        requires { IsMet self.now }
        ensures { result ≡ list_any (λ other. other == block) self.now.blocks.items }
    {
        self.set.contains(&block)
    }

    /// Adds a block, and says whether it was not there.
    pub fn add(&mut self, block: u64) -> Result<bool, NoMemory>
        requires { IsMet self.old }
        ensures fresh { IfOk result (λ fresh. fresh ≡ not (list_any (λ other. other == block) self.old.blocks.items)) }
        ensures met { IfOk result (λ fresh. OnTrue fresh (IsMet self.new)) }
        ensures blocks { IfOk result (λ fresh. OnTrue fresh (self.new.blocks.items ≡ self.old.blocks.items ++ block ∷ [])) }
    {
        if !self.set.insert(block)? {
            return Ok(false);
        }
        self.blocks.push(block)?;
        Ok(true)
    }
}
