//! What a data fork holds: extents, and the blocks of their tree.

ghost use Rattle.std.specs.Prelude.{◌≡◌, ℕ, ◌+◌, ◌*◌, ◌≤◌, List, [], Some, None, IfOk, IfSome, length, true, option_map, IsTrue, ◌<◌};
ghost use Rattle.std.specs.List.{All};
ghost use Rattle.std.specs.Option.{option_copied};
ghost use Rattle.xfs_tree.specs.Blocks.{each_of};
ghost use Rattle.xfs_tree.specs.Reading.{Contents};
ghost use Rattle.xfs_inode.specs.Forks.{fork_extent};
ghost use Rattle.xfs_inode.specs.Files.{contents_of, data_fork, extents_held, none_held, tree_held};

use crate::extents::fork_extent;
use crate::forks::fork_bytes;
use crate::layouts::inode::EXTENT_SIZE;
use std::alloc::{AllocError, Global};
use std::marker::Model;
use xfs_kinds::Bmbt;
use xfs_tree::Tree;
use xfs_volume::{Core, Extents};
use xfs_word::Extent;

/// The extents of a data fork, and the blocks of their tree.
#[derive(Drop)]
pub struct DataHeld {
    extents: Extents,
    blocks: Vec<u64>,
}

impl Model for DataHeld {
    ghost use Rattle.xfs_tree.specs.Reading.{Contents};
    ghost use Rattle.xfs_word.specs.declared.extents.Extent.{Extent};

    ghost Value = { Contents Extent };

    ghost view = { λ held. record { records = held.extents; blocks = held.blocks.items } };
}

impl DataHeld {
    /// The extents, in file order.
    pub fn extents(&self) -> &[Extent]
        ensures { result.now ≡ self.now.records }
    {
        self.extents.as_slice()
    }

    /// The blocks of the tree.
    pub fn blocks(&self) -> &[u64]
        ensures { result.now ≡ self.now.blocks }
    {
        self.blocks.as_slice()
    }

    /// Both lists.
    pub fn into_lists(self) -> (Extents, Vec<u64>)
        ensures extents { result.0 ≡ self.records }
        ensures blocks { result.1.items ≡ self.blocks }
    {
        let DataHeld { extents, blocks } = self;
        (extents, blocks)
    }
}

/// What the data fork of a slot holds, where it reads; a tree is handed in as it reads.
pub fn data_fork(
    alloc: Global,
    core: &Core,
    slot: &[u8],
    tree: Option<&Tree<Bmbt>>,
) -> Result<Option<DataHeld>, AllocError>
    requires slot { length slot.now ≡ 512 }
    requires forkoff { core.now.forkoff ≤ 41 }
    ensures { IfOk result (λ held. held ≡ data_fork core.now slot.now (option_map contents_of (option_copied tree.entry))) }
{
    match core.format {
        2 => extents_held(alloc, core, slot),
        3 => tree_held(alloc, core, tree),
        _ => Ok(none_held(alloc, core)),
    }
}

/// What a fork of extents holds.
fn extents_held(alloc: Global, core: &Core, slot: &[u8]) -> Result<Option<DataHeld>, AllocError>
    requires slot { length slot.now ≡ 512 }
    requires forkoff { core.now.forkoff ≤ 41 }
    ensures { IfOk result (λ held. held ≡ extents_held core.now slot.now) }
{
    let count = core.nextents as usize;
    if EXTENT_SIZE * count > fork_bytes(core.forkoff) {
        return Ok(None);
    }
    let extents = list_extents(alloc, slot, count)?;
    Ok(Some(DataHeld {
        extents,
        blocks: Vec::new(alloc),
    }))
}

/// So many extents of the data fork.
fn list_extents(alloc: Global, slot: &[u8], count: usize) -> Result<Extents, AllocError>
    requires { 176 + 16 * count ≤ length slot.now }
    ensures { IfOk result (λ extents. extents ≡ each_of count (fork_extent slot.now)) }
{
    let mut extents = Extents::with_capacity(alloc, count)?;
    for i in 0..count {
        extents.push(alloc, fork_extent(slot, i))?;
    }
    Ok(extents)
}

/// What a fork in tree format holds.
fn tree_held(
    alloc: Global,
    core: &Core,
    tree: Option<&Tree<Bmbt>>,
) -> Result<Option<DataHeld>, AllocError>
    ensures { IfOk result (λ held. held ≡ tree_held core.now (option_map contents_of (option_copied tree.entry))) }
{
    match tree {
        None => Ok(None),
        Some(tree) => whole_tree(alloc, core, tree),
    }
}

/// What a tree holds, where it has as many extents as the core states.
fn whole_tree(alloc: Global, core: &Core, tree: &Tree<Bmbt>) -> Result<Option<DataHeld>, AllocError>
    ensures { IfOk result (λ held. held ≡ tree_held core.now (Some (contents_of tree.now))) }
{
    if tree.records.len() != core.nextents as usize {
        return Ok(None);
    }
    let extents = Extents::from_slice(alloc, tree.records.as_slice())?;
    let blocks = Vec::from_slice(alloc, tree.blocks.as_slice())?;
    Ok(Some(DataHeld { extents, blocks }))
}

/// What a fork without extents holds.
fn none_held(alloc: Global, core: &Core) -> Option<DataHeld>
    ensures { result ≡ none_held core.now }
{
    if core.nextents != 0 {
        return None;
    }
    Some(DataHeld {
        extents: Extents::new(),
        blocks: Vec::new(alloc),
    })
}
