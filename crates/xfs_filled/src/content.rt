//! The bytes of a file, held once.

ghost use Rattle.std.specs.Prelude.{◌≡◌, ◌<◌, ◌^◌, ◌++◌, length, IfOk, OnOk};
ghost use Rattle.xfs_filled.specs.Contents.{content_blocks};

use crate::objects::blocks_for;
use std::alloc::Global;
use std::marker::Model;
use xfs_collections::{BlockList, SharedBytes};
use xfs_disk::{BLOCK_SIZE, NoMemory};

/// The bytes of a file, which several files and the plan of a volume may hold together. Contracts see the list of the bytes.
#[derive(Drop)]
pub struct Content {
    /// The bytes, and behind them zeros up to the end of a block.
    whole: SharedBytes,
    /// How many of these are bytes of the file.
    size: usize,
}

impl Model for Content {
    ghost use Rattle.std.specs.Prelude.{List, ℕ, take};
    ghost use Rattle.xfs_filled.specs.Padding.{IsPadded};

    ghost Value = { List ℕ };

    ghost view = { λ content. take content.size content.whole };

    ghost invariant = { λ content. IsPadded content.size content.whole };
}

impl Content {
    /// These bytes, of at most 2^32 - 1 blocks: `NoMemory` where they are more, or memory is wanting.
    pub fn make(alloc: Global, mut bytes: Vec<u8>) -> Result<Content, NoMemory>
        ensures { IfOk result (λ content. content ≡ bytes.items) }
    {
        let size = bytes.as_slice().len();
        let blocks = blocks_for(size) as usize;
        if blocks * BLOCK_SIZE < size {
            return Err(NoMemory);
        }
        bytes.resize(blocks * BLOCK_SIZE, 0)?;
        bytes.shrink_to_fit();
        let whole = SharedBytes::make(alloc, bytes)?;
        Ok(Content { whole, size })
    }

    /// The same bytes, for one more holder.
    pub fn share(&self) -> Result<Content, NoMemory>
        ensures { IfOk result (λ content. content ≡ self.now) }
    {
        let whole = self.whole.share()?;
        Ok(Content {
            whole,
            size: self.size,
        })
    }

    /// How many bytes there are.
    pub fn len(&self) -> usize
        ensures count { result ≡ length self.now }
        ensures few { result < 2 ^ 63 }
    {
        self.size
    }

    /// Puts the blocks of the file behind others, which takes no bytes.
    pub fn push_blocks(&self, list: &mut BlockList) -> Result<(), NoMemory>
        ensures { OnOk result (list.new ≡ list.old ++ content_blocks self.now) }
    {
        list.push_blocks(&self.whole)
    }
}
