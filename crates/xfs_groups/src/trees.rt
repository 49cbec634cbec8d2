//! The five trees of a group.

ghost use Rattle.std.specs.Prelude.{◌≡◌};
ghost use Rattle.xfs_image.specs.Groups.{blocks_in_tree};

use std::marker::Model;
use xfs_geom::{InoRec, RmapRec, Span};
use xfs_tree::{Kind, Tree};
use xfs_volume::{Blocks, Records, TreeBlocks};

/// A tree that reads: its records in order, and its blocks by number.
#[derive(Drop)]
pub(crate) struct TreeSeen<R: Drop> {
    records: Vec<R>,
    blocks: Vec<u64>,
}

impl<R: Drop> Model for TreeSeen<R> {
    ghost use Rattle.xfs_tree.specs.Reading.{Contents};

    ghost Value = { Contents R };

    ghost view = { λ tree. record { records = tree.records.items; blocks = tree.blocks.items } };
}

impl<R: Drop> TreeSeen<R> {
    /// The records.
    pub fn records(&self) -> &[R]
        ensures { result.now ≡ self.now.records }
    {
        self.records.as_slice()
    }

    /// The numbers of the blocks.
    pub fn blocks(&self) -> &[u64]
        ensures { result.now ≡ self.now.blocks }
    {
        self.blocks.as_slice()
    }

    /// Both.
    pub fn into_parts(self) -> (Records<R>, TreeBlocks)
        ensures records { result.0 ≡ self.records }
        ensures blocks { result.1 ≡ blocks_in_tree self }
    {
        let TreeSeen { records, blocks } = self;
        let blocks = Blocks::from_vec(blocks);
        (Records::from_vec(records), TreeBlocks { blocks })
    }
}

/// The trees of a group, where they read.
#[derive(Drop)]
pub(crate) struct Trees {
    pub bno: Option<TreeSeen<Span>>,
    pub cnt: Option<TreeSeen<Span>>,
    pub ino: Option<TreeSeen<InoRec>>,
    pub fino: Option<TreeSeen<InoRec>>,
    pub rmap: Option<TreeSeen<RmapRec>>,
}

/// The lists of a tree.
pub(crate) fn seen<K: Kind>(tree: Tree<K>) -> TreeSeen<K::Record>
    ensures records { result.records ≡ tree.records.items }
    ensures blocks { result.blocks ≡ tree.blocks.items }
{
    let Tree { records, blocks } = tree;
    TreeSeen { records, blocks }
}
