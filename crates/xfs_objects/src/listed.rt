//! All items of an object, by its type.

ghost use Rattle.std.specs.Prelude.{◌≡◌, ℕ, length, map, IfOk};
ghost use Rattle.xfs_tree.specs.Layout.{IsLayout, keys_len};
ghost use Rattle.xfs_objects.specs.Items.{block_items, item_of, items_of, row_len, AllInside};
ghost use Rattle.xfs_objects.specs.Objects.{object_size};
ghost use Rattle.xfs_objects.specs.Tables.{agf_fields, inode_fields, short_fields, super_fields};
ghost use Rattle.xfs_objects.specs.declared.objects.ObjectType.TheVariants as ObjectType;

use crate::items::{
    Item, PrintedRow, block_items, free_list_items, inode_head_items, sector_items,
};
use crate::objects::ObjectType;
use std::alloc::Global;
use xfs_disk::NoMemory;
use xfs_geom::superblock::SUPERBLOCK;
use xfs_heads::layouts::agf::AGF;
use xfs_inode::layouts::inode::INODE;
use xfs_kinds::{Bmbt, Bno, Cnt, Fino, Ino, Rmap};
use xfs_tree::{LONG, Layout, SHORT, tree_layout};

/// Everything in an object that has a name, in the order of printing.
#[tactic(auto, unfolding(crate::specs::Items::items_of))]
pub(crate) fn items(alloc: Global, kind: ObjectType, object: &[u8]) -> Result<Vec<Item>, NoMemory>
    requires { length object.now ≡ object_size kind }
    ensures items { IfOk result (λ items. map item_of items.items ≡ items_of kind object.now) }
    ensures inside { IfOk result (λ items. AllInside (object_size kind) items.items) }
{
    match kind {
        ObjectType::Sb => super_items(alloc),
        ObjectType::Agf => free_head_items(alloc),
        ObjectType::Agi => inode_head_items(alloc),
        ObjectType::Agfl => free_list_items(alloc),
        ObjectType::Bnobt => start_items(alloc, object),
        ObjectType::Cntbt => length_items(alloc, object),
        ObjectType::Inobt => chunk_items(alloc, object),
        ObjectType::Finobt => free_chunk_items(alloc, object),
        ObjectType::Rmapbt => owner_items(alloc, object),
        ObjectType::Bmapbt => extent_items(alloc, object),
        ObjectType::Inode => inode_items(alloc),
        ObjectType::Data => Ok(Vec::new(alloc)),
    }
}

/// The items of a superblock.
fn super_items(alloc: Global) -> Result<Vec<Item>, NoMemory>
    ensures items { IfOk result (λ items. map item_of items.items ≡ super_fields) }
    ensures inside { IfOk result (λ items. AllInside 512 items.items) }
{
    sector_items(alloc, &SUPERBLOCK)
}

/// The items of a header of free blocks.
fn free_head_items(alloc: Global) -> Result<Vec<Item>, NoMemory>
    ensures items { IfOk result (λ items. map item_of items.items ≡ agf_fields) }
    ensures inside { IfOk result (λ items. AllInside 512 items.items) }
{
    sector_items(alloc, &AGF)
}

/// The items of an inode.
fn inode_items(alloc: Global) -> Result<Vec<Item>, NoMemory>
    ensures items { IfOk result (λ items. map item_of items.items ≡ inode_fields) }
    ensures inside { IfOk result (λ items. AllInside 512 items.items) }
{
    sector_items(alloc, &INODE)
}

/// The items of a block of the tree of free runs by their begin.
#[tactic(auto, unfolding(crate::specs::Items::items_of))]
fn start_items(alloc: Global, block: &[u8]) -> Result<Vec<Item>, NoMemory>
    requires { length block.now ≡ 4096 }
    ensures items { IfOk result (λ items. map item_of items.items ≡ items_of ObjectType.Bnobt block.now) }
    ensures inside { IfOk result (λ items. AllInside 4096 items.items) }
{
    let layout = tree_layout(&Bno { ag: 0 });
    short_items(alloc, &layout, PrintedRow::Span, PrintedRow::Span, block)
}

/// The items of a block of the tree of free runs by their length.
#[tactic(auto, unfolding(crate::specs::Items::items_of))]
fn length_items(alloc: Global, block: &[u8]) -> Result<Vec<Item>, NoMemory>
    requires { length block.now ≡ 4096 }
    ensures items { IfOk result (λ items. map item_of items.items ≡ items_of ObjectType.Cntbt block.now) }
    ensures inside { IfOk result (λ items. AllInside 4096 items.items) }
{
    let layout = tree_layout(&Cnt { ag: 0 });
    short_items(alloc, &layout, PrintedRow::Span, PrintedRow::Span, block)
}

/// The items of a block of the tree of chunks of inodes.
#[tactic(auto, unfolding(crate::specs::Items::items_of))]
fn chunk_items(alloc: Global, block: &[u8]) -> Result<Vec<Item>, NoMemory>
    requires { length block.now ≡ 4096 }
    ensures items { IfOk result (λ items. map item_of items.items ≡ items_of ObjectType.Inobt block.now) }
    ensures inside { IfOk result (λ items. AllInside 4096 items.items) }
{
    let layout = tree_layout(&Ino { ag: 0 });
    short_items(
        alloc,
        &layout,
        PrintedRow::Chunk,
        PrintedRow::ChunkStart,
        block,
    )
}

/// The items of a block of the tree of chunks with free inodes.
#[tactic(auto, unfolding(crate::specs::Items::items_of))]
fn free_chunk_items(alloc: Global, block: &[u8]) -> Result<Vec<Item>, NoMemory>
    requires { length block.now ≡ 4096 }
    ensures items { IfOk result (λ items. map item_of items.items ≡ items_of ObjectType.Finobt block.now) }
    ensures inside { IfOk result (λ items. AllInside 4096 items.items) }
{
    let layout = tree_layout(&Fino { ag: 0 });
    short_items(
        alloc,
        &layout,
        PrintedRow::Chunk,
        PrintedRow::ChunkStart,
        block,
    )
}

/// The items of a block of the tree of owners.
#[tactic(auto, unfolding(crate::specs::Items::items_of))]
fn owner_items(alloc: Global, block: &[u8]) -> Result<Vec<Item>, NoMemory>
    requires { length block.now ≡ 4096 }
    ensures items { IfOk result (λ items. map item_of items.items ≡ items_of ObjectType.Rmapbt block.now) }
    ensures inside { IfOk result (λ items. AllInside 4096 items.items) }
{
    let layout = tree_layout(&Rmap { ag: 0 });
    short_items(
        alloc,
        &layout,
        PrintedRow::Owner,
        PrintedRow::OwnerKeys,
        block,
    )
}

/// The items of a block of the tree of a file's extents.
#[tactic(auto, unfolding(crate::specs::Items::items_of))]
fn extent_items(alloc: Global, block: &[u8]) -> Result<Vec<Item>, NoMemory>
    requires { length block.now ≡ 4096 }
    ensures items { IfOk result (λ items. map item_of items.items ≡ items_of ObjectType.Bmapbt block.now) }
    ensures inside { IfOk result (λ items. AllInside 4096 items.items) }
{
    let layout = tree_layout(&Bmbt { ino: 0 });
    block_items(
        alloc,
        &LONG,
        &layout,
        PrintedRow::FileExtent,
        PrintedRow::FileOffset,
        block,
    )
}

/// The items of a block of a tree of a group.
fn short_items(
    alloc: Global,
    layout: &Layout,
    leaf_row: PrintedRow,
    node_row: PrintedRow,
    block: &[u8],
) -> Result<Vec<Item>, NoMemory>
    requires layout { IsLayout layout.now }
    requires leaf { row_len leaf_row ≡ layout.now.record_len }
    requires node { row_len node_row ≡ keys_len layout.now }
    requires block { length block.now ≡ 4096 }
    ensures items { IfOk result (λ items. map item_of items.items ≡ block_items short_fields layout.now leaf_row node_row block.now) }
    ensures inside { IfOk result (λ items. AllInside 4096 items.items) }
{
    block_items(alloc, &SHORT, layout, leaf_row, node_row, block)
}
