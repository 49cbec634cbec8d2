//! Blocks that are put down one after the other, each with its place, before they are put in order.

ghost use Rattle.std.specs.Prelude.{◌≡◌, ◌≤◌, ◌<◌, ◌*◌, [], length, slice_index_or, IfOk, OnOk};
ghost use Rattle.xfs_render.specs.Drafts.{AddsAgain, AddsBlock, AddsPart, IsDraft};

use std::alloc::Global;
use xfs_collections::BlockList;
use xfs_disk::{BLOCK_SIZE, NoMemory};
use xfs_word::part;
use xfs_writing::Row;

/// Blocks of 4096 bytes with their places, which are block numbers. Several places may have the same bytes.
#[derive(Drop)]
pub struct Draft {
    /// Each place, with the index of its bytes.
    pub rows: Vec<Row>,
    pub bank: BlockList,
}

impl Draft {
    /// No block.
    pub fn make(alloc: Global) -> Result<Draft, NoMemory>
        ensures whole { IfOk result (λ draft. IsDraft draft) }
        ensures none { IfOk result (λ draft. draft.rows.items ≡ []) }
        ensures empty { IfOk result (λ draft. draft.bank ≡ []) }
    {
        Ok(Draft {
            rows: Vec::new(alloc),
            bank: BlockList::make(alloc),
        })
    }

    /// Puts blocks behind the others.
    pub fn add(&mut self, places: &[u64], blocks: &[u8]) -> Result<(), NoMemory>
        requires draft { IsDraft self.old }
        requires blocks { length blocks.now ≡ 4096 * length places.now }
        ensures { OnOk result (AddsPart self.old self.new places.now blocks.now) }
    {
        for (i, place) in places.iter().enumerate() {
            self.add_block(*place, part(blocks, BLOCK_SIZE * i, BLOCK_SIZE))?;
        }
        Ok(())
    }

    /// Puts one block behind the others.
    pub fn add_block(&mut self, place: u64, block: &[u8]) -> Result<(), NoMemory>
        requires draft { IsDraft self.old }
        requires block { length block.now ≡ 4096 }
        ensures { OnOk result (AddsBlock self.old self.new place block.now) }
    {
        let index = self.bank.len();
        self.bank.push(block)?;
        self.rows.push(Row { at: place, index })?;
        Ok(())
    }

    /// Puts block `i` of a list behind the others, which takes no bytes.
    pub fn add_shared(&mut self, place: u64, list: &BlockList, i: usize) -> Result<(), NoMemory>
        requires draft { IsDraft self.old }
        requires inside { i < length list.now }
        ensures { OnOk result (AddsBlock self.old self.new place (slice_index_or list.now i [])) }
    {
        let index = self.bank.len();
        self.bank.push_shared(list, i)?;
        self.rows.push(Row { at: place, index })?;
        Ok(())
    }

    /// Puts a place behind the others that has the same bytes as the last one.
    pub fn add_again(&mut self, place: u64) -> Result<(), NoMemory>
        requires draft { IsDraft self.old }
        requires some { 1 ≤ length self.old.bank }
        ensures { OnOk result (AddsAgain self.old self.new place) }
    {
        let index = self.bank.len() - 1;
        self.rows.push(Row { at: place, index })?;
        Ok(())
    }
}
