//! Blocks in a list.

ghost use Rattle.std.specs.Prelude.{◌≡◌, ◌≤◌, ◌<◌, ◌/◌, ◌++◌, ◌+◌, [], ◌∷◌, length, take, drop, replicate, Some, IfOk, OnOk, slice_get, slice_index_or};
ghost use Rattle.xfs_disk.specs.Memory.{blocks_of_bytes};

use crate::bank::BlockBank;
use crate::piece::{Piece, block_of, share_piece};
use crate::shared_bytes::SharedBytes;
use std::alloc::Global;
use std::marker::Model;
use xfs_disk::{BLOCK_SIZE, NoMemory};

/// Blocks of 4096 bytes, of which several may share their bytes. Contracts see the list of the blocks.
#[derive(Drop)]
pub struct BlockList {
    pieces: Vec<Piece>,
}

impl Model for BlockList {
    ghost use Rattle.std.specs.Prelude.{List, ℕ, map};
    ghost use Rattle.std.specs.List.{All};
    ghost use Rattle.xfs_collections.specs.Pieces.{HasBlock, block_of};

    ghost Value = { List (List ℕ) };

    ghost view = { λ list. map block_of list.pieces.items };

    ghost invariant = { λ list. All HasBlock list.pieces.items };
}

impl BlockList {
    /// No blocks.
    pub fn make(alloc: Global) -> BlockList
        ensures { result ≡ [] }
    {
        BlockList {
            pieces: Vec::new(alloc),
        }
    }

    /// So many blocks of zeros, which have the same bytes.
    pub fn zeros(alloc: Global, n: usize) -> Result<BlockList, NoMemory>
        ensures { IfOk result (λ list. list ≡ replicate n (replicate 4096 0)) }
    {
        let zeros = vec![in alloc; 0; BLOCK_SIZE]?;
        let bytes = SharedBytes::make(alloc, zeros)?;
        let mut list = BlockList::make(alloc);
        for _i in 0..n {
            list.push_block(&bytes, 0)?;
        }
        Ok(list)
    }

    /// How many blocks there are.
    pub fn len(&self) -> usize
        ensures count { result ≡ length self.now }
    {
        self.pieces.len()
    }

    /// The bytes of block `i`.
    pub fn view(&self, i: usize) -> &[u8]
        requires inside { i < length self.now }
        ensures block { slice_get self.now i ≡ Some result.now }
        ensures size { length result.now ≡ 4096 }
    {
        block_of(&self.pieces[i])
    }

    /// Puts a block behind the others, with bytes of its own.
    pub fn push(&mut self, block: &[u8]) -> Result<(), NoMemory>
        requires whole { length block.now ≡ 4096 }
        ensures { OnOk result (self.new ≡ self.old ++ block.now ∷ []) }
    {
        let alloc = *self.pieces.allocator();
        let bytes = SharedBytes::make(alloc, Vec::from_slice(alloc, block)?)?;
        self.pieces.push(Piece { bytes, at: 0 })?;
        Ok(())
    }

    /// Puts block `i` of a list behind the others, which takes no bytes.
    pub fn push_shared(&mut self, list: &BlockList, i: usize) -> Result<(), NoMemory>
        requires inside { i < length list.now }
        ensures { OnOk result (self.new ≡ self.old ++ slice_index_or list.now i [] ∷ []) }
    {
        let piece = share_piece(&list.pieces[i])?;
        self.pieces.push(piece)?;
        Ok(())
    }

    /// Puts the blocks of a bank behind the others, with bytes of their own.
    pub fn push_bank(&mut self, bank: &BlockBank) -> Result<(), NoMemory>
        ensures { OnOk result (self.new ≡ self.old ++ bank.now) }
    {
        for i in 0..bank.len() {
            self.push(bank.view(i))?;
        }
        Ok(())
    }

    /// Puts all whole blocks of some bytes behind the others, which takes none.
    pub fn push_blocks(&mut self, bytes: &SharedBytes) -> Result<(), NoMemory>
        ensures { OnOk result (self.new ≡ self.old ++ blocks_of_bytes (length bytes.now / 4096) bytes.now) }
    {
        for i in 0..bytes.bytes().len() / BLOCK_SIZE {
            self.push_block(bytes, BLOCK_SIZE * i)?;
        }
        Ok(())
    }

    /// Puts the block from a place of some bytes on behind the others.
    fn push_block(&mut self, bytes: &SharedBytes, at: usize) -> Result<(), NoMemory>
        requires inside { at + 4096 ≤ length bytes.now }
        ensures { OnOk result (self.new ≡ self.old ++ take 4096 (drop at bytes.now) ∷ []) }
    {
        let bytes = bytes.share()?;
        self.pieces.push(Piece { bytes, at })?;
        Ok(())
    }
}
