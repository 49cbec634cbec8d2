//! What the blocks of a directory that were read so far give.

ghost use Rattle.std.specs.Prelude.{◌≡◌, ◌+◌, ◌++◌, [], ◌∷◌, length, filter, OnOk};
ghost use Rattle.std.specs.Option.{option_or};
ghost use Rattle.xfs_dirindex.specs.Mapped.{mapped_block};
ghost use Rattle.xfs_image.specs.Directories.{is_beside_dots};
ghost use Rattle.xfs_dirs.specs.Gathered.{AreBelow, OffsetsRise, found_of, mapped_of_kept, kept_with, found_nothing, parent_in};

use crate::entries::{parent_in, push_named};
use std::alloc::Global;
use xfs_dirdata::EntryRec;
use xfs_disk::{NoMemory, Word};

/// A block that is kept for the check.
#[derive(Drop)]
pub struct KeptBlock {
    /// Its number in the file, in blocks.
    pub offset: u64,
    /// Its 4096 bytes.
    pub bytes: Word,
}

/// The blocks that are kept for the check, in file order.
#[derive(Drop)]
pub struct KeptBlocks {
    pub blocks: Vec<KeptBlock>,
}

/// What blocks give.
#[derive(Drop)]
pub struct Gathered {
    /// The entries of the data blocks, without those of the directory itself and its parent.
    pub entries: Vec<EntryRec>,
    /// The target of the first entry of the parent.
    pub parent: Option<u64>,
    /// All blocks, as long as each is sealed for the directory as what it has to be.
    pub kept: Option<KeptBlocks>,
}

impl Gathered {
    /// What no block gives.
    pub fn new(alloc: Global) -> Gathered
        ensures found { found_of result ≡ found_nothing }
        ensures below { AreBelow result.kept 0 }
    {
        Gathered {
            entries: Vec::new(alloc),
            parent: None,
            kept: Some(KeptBlocks {
                blocks: Vec::new(alloc),
            }),
        }
    }

    /// Adds the entries of one more block.
    pub fn take(&mut self, entries: Vec<EntryRec>) -> Result<(), NoMemory>
        ensures entries { OnOk result (self.new.entries.items ≡ self.old.entries.items ++ filter is_beside_dots entries.items) }
        ensures parent { OnOk result (self.new.parent ≡ option_or self.old.parent (parent_in entries.items)) }
        ensures kept { self.new.kept ≡ self.old.kept }
    {
        if self.parent.is_none() {
            self.parent = parent_in(&entries);
        }
        self.entries.reserve(entries.len())?;
        push_named(entries, &mut self.entries)
    }
}

/// Keeps one more block, of 4096 bytes, where it is its directory's; else none is kept from now on.
pub fn keep_block(
    alloc: Global,
    own: bool,
    offset: u64,
    block: &[u8],
    kept: &mut Option<KeptBlocks>,
) -> Result<(), NoMemory>
    requires size { length block.now ≡ 4096 }
    requires below { AreBelow kept.old offset }
    ensures kept { OnOk result (mapped_of_kept kept.new ≡ kept_with own (mapped_block offset block.now) (mapped_of_kept kept.old)) }
    ensures below { OnOk result (AreBelow kept.new (offset + 1)) }
{
    if !own {
        *kept = None;
        return Ok(());
    }
    match kept {
        None => Ok(()),
        Some(kept) => push_block(alloc, offset, block, &mut kept.blocks),
    }
}

/// Adds a block to those that are kept.
fn push_block(
    alloc: Global,
    offset: u64,
    block: &[u8],
    blocks: &mut Vec<KeptBlock>,
) -> Result<(), NoMemory>
    requires size { length block.now ≡ 4096 }
    requires below { OffsetsRise 0 blocks.old.items offset }
    ensures added { OnOk result (blocks.new.items ≡ blocks.old.items ++ record { offset = offset; bytes = block.now } ∷ []) }
    ensures below { OnOk result (OffsetsRise 0 blocks.new.items (offset + 1)) }
{
    let bytes = Word::from_slice(alloc, block)?;
    blocks.push(KeptBlock { offset, bytes })?;
    Ok(())
}
