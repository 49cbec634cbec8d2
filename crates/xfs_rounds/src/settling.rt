//! What slots read as with the blocks that they name, decided in pieces by several workers.

ghost use Rattle.std.specs.Prelude.{◌≡◌, ℕ, ◌<◌, ◌≤◌, [], IfOk, IfSome, OnOk, length, option_map, slice_get, slice_index_or};
ghost use Rattle.std.specs.Option.{option_copied};
ghost use Rattle.xfs_rounds.specs.Named.{AreFound, AreFoundIn, AreNamedParts, IsDone, IsInPlace, IsNamedPart, IsNaming, IsNumbered, tree_found};
ghost use Rattle.xfs_rounds.specs.Settled.{ArePartsIn, IsPartIn, IsReadFile, IsSettled};
ghost use Rattle.xfs_geom.specs.Volumes.{volume_of};
ghost use Rattle.xfs_inode.specs.Files.{contents_of as tree_contents};

use crate::judging::{SlotFile, SlotPart};
use crate::named::{NamedSlots, NamingSlot};
use crate::naming::SLOT_SIZE;
use crate::pieces::BlockParts;
use std::alloc::Global;
use std::thread;
use std::thread::Threads;
use xfs_collections::BlockBank;
use xfs_disk::{Gate, NoMemory};
use xfs_forest::piece_size;
use xfs_geom::Geometry;
use xfs_inode::{FileRead, decide_read};
use xfs_kinds::Bmbt;
use xfs_tree::{Tree, Unread};
use xfs_word::part;

/// The blocks that slots name, as they were read.
#[derive(Drop)]
pub(crate) struct FoundBlocks {
    /// The tree of each slot.
    pub trees: Vec<Result<Tree<Bmbt>, Unread>>,
    pub leaves: BlockBank,
    pub links: BlockBank,
}

/// Decides what the slots of a round read as, each piece by a worker.
pub(crate) fn settle_pieces<R: Threads + Sync, G: Gate>(
    rt: &R,
    alloc: Global,
    g: &Geometry,
    bank: &BlockBank,
    named: &NamedSlots,
    found: &FoundBlocks,
    workers: u32,
    gate: &G,
    judged: &mut [BlockParts],
)
    requires found { AreFound named.now found.now }
    requires judged { (i : ℕ) (d : BlockParts) → i < length judged.old → IsNumbered (volume_of g.now) g.now.dblocks named.now bank.now (slice_index_or judged.old i d) }
    ensures settled { (i : ℕ) (d : BlockParts) → i < length judged.old → IsSettled (volume_of g.now) (AreFoundIn (volume_of g.now) named.now found.now) bank.now (slice_index_or judged.new i d) }
    ensures placed { (i : ℕ) (d : BlockParts) → i < length judged.old → IsInPlace (slice_index_or judged.old i d) (slice_index_or judged.new i d) }
{
    let size = piece_size(judged.len(), workers);
    let settle = move |start: usize, piece: &mut [BlockParts]|
        requires { (1 ≤ size) × AreFound named.now found.now × ((i : ℕ) (d : BlockParts) → i < length piece.now → IsNumbered (volume_of g.now) g.now.dblocks named.now bank.now (slice_index_or piece.now i d)) }
        ensures { (i : ℕ) (d : BlockParts) → i < length piece.entry.now → IsDone (volume_of g.entry.now) (AreFoundIn (volume_of g.entry.now) named.entry.now found.entry.now) bank.entry.now (slice_index_or piece.entry.now i d) (slice_index_or piece.exit.now i d) }
    { settle_piece(alloc, g, bank, named, found, start / size, gate, piece) };
    thread::for_each_chunk_mut(rt, judged, size, &settle);
}

/// Decides what the slots of the blocks of a piece read as, once it is through the gate.
fn settle_piece<G: Gate>(
    alloc: Global,
    g: &Geometry,
    bank: &BlockBank,
    named: &NamedSlots,
    found: &FoundBlocks,
    number: usize,
    gate: &G,
    piece: &mut [BlockParts],
)
    requires found { AreFound named.now found.now }
    requires blocks { (i : ℕ) (d : BlockParts) → i < length piece.old → IsNumbered (volume_of g.now) g.now.dblocks named.now bank.now (slice_index_or piece.old i d) }
    ensures { (i : ℕ) (d : BlockParts) → i < length piece.old → IsDone (volume_of g.now) (AreFoundIn (volume_of g.now) named.now found.now) bank.now (slice_index_or piece.old i d) (slice_index_or piece.new i d) }
{
    gate.enter(number);
    for i in 0..piece.len() {
        settle_block(alloc, g, bank, named, found, &mut piece[i]);
    }
}

/// Decides what the slots of a block read as.
fn settle_block(
    alloc: Global,
    g: &Geometry,
    bank: &BlockBank,
    named: &NamedSlots,
    found: &FoundBlocks,
    block: &mut BlockParts,
)
    requires found { AreFound named.now found.now }
    requires block { IsNumbered (volume_of g.now) g.now.dblocks named.now bank.now block.old }
    ensures { IsDone (volume_of g.now) (AreFoundIn (volume_of g.now) named.now found.now) bank.now block.old block.new }
{
    let bytes = bank.view(block.at);
    let place = block.place;
    let settled = match &mut block.slots {
        Ok(parts) => settle_parts(alloc, g, place, bytes, named, found, parts),
        Err(NoMemory) => Err(NoMemory),
    };
    if settled.is_err() {
        block.slots = Err(NoMemory);
    }
}

/// Decides what slots of a block read as.
fn settle_parts(
    alloc: Global,
    g: &Geometry,
    place: u64,
    bytes: &[u8],
    named: &NamedSlots,
    found: &FoundBlocks,
    parts: &mut [SlotPart],
) -> Result<(), NoMemory>
    requires volume { place < g.now.dblocks }
    requires whole { length bytes.now ≡ 4096 }
    requires found { AreFound named.now found.now }
    requires parts { AreNamedParts (volume_of g.now) named.now place bytes.now parts.old }
    ensures { OnOk result (ArePartsIn (volume_of g.now) (AreFoundIn (volume_of g.now) named.now found.now) place bytes.now parts.new) }
{
    for i in 0..parts.len() {
        settle_part(alloc, g, place, bytes, named, found, &mut parts[i])?;
    }
    Ok(())
}

/// Decides what a slot reads as, where it names other blocks.
fn settle_part(
    alloc: Global,
    g: &Geometry,
    place: u64,
    bytes: &[u8],
    named: &NamedSlots,
    found: &FoundBlocks,
    known: &mut SlotPart,
) -> Result<(), NoMemory>
    requires volume { place < g.now.dblocks }
    requires whole { length bytes.now ≡ 4096 }
    requires found { AreFound named.now found.now }
    requires part { IsNamedPart (volume_of g.now) named.now place bytes.now known.old }
    ensures part { OnOk result (IsPartIn (volume_of g.now) (AreFoundIn (volume_of g.now) named.now found.now) place bytes.now known.new) }
    ensures slot { OnOk result (known.new.slot ≡ known.old.slot) }
{
    let SlotFile::Named(number) = known.file else {
        return Ok(());
    };
    let ino = g.inode_of_slot(place, known.slot);
    let held = part(bytes, SLOT_SIZE * known.slot as usize, SLOT_SIZE);
    let file = settle(alloc, g, ino, held, named, number, found)?;
    known.file = SlotFile::Decided(file);
    Ok(())
}

/// What the slot of an inode, of 512 bytes, reads as, which has this number among those that name other blocks.
fn settle(
    alloc: Global,
    g: &Geometry,
    ino: u64,
    held: &[u8],
    named: &NamedSlots,
    number: usize,
    found: &FoundBlocks,
) -> Result<FileRead, NoMemory>
    requires slot { length held.now ≡ 512 }
    requires found { AreFound named.now found.now }
    requires number { number < length named.now.slots.items }
    requires naming { (d : NamingSlot) → IsNaming (volume_of g.now) named.now.leaves.items named.now.links.items ino held.now (slice_index_or named.now.slots.items number d) }
    ensures { IfOk result (IsReadFile (volume_of g.now) (AreFoundIn (volume_of g.now) named.now found.now) ino held.now) }
{
    let slot = &named.slots[number];
    decide_read(
        alloc,
        g,
        ino,
        held,
        &slot.read,
        tree_of(slot, &found.trees, number),
        block_at(&found.leaves, slot.leaf_at),
        block_at(&found.links, slot.link_at),
    )
}

/// The tree of a slot by its number, where it has one that reads.
fn tree_of<'a>(
    slot: &NamingSlot,
    trees: &'a [Result<Tree<Bmbt>, Unread>],
    number: usize,
) -> Option<&'a Tree<Bmbt>>
    ensures { option_map tree_contents (option_copied result) ≡ tree_found slot.now.needs.top (slice_get trees.now number) }
{
    match trees.get(number) {
        Some(Ok(tree)) if slot.needs.top.is_some() => Some(tree),
        _ => None,
    }
}

/// A block of a bank, where one is named.
fn block_at(bank: &BlockBank, at: Option<usize>) -> Option<&[u8]>
    requires inside { IfSome at (λ i. i < length bank.now) }
    ensures block { option_copied result ≡ option_map (λ i. slice_index_or bank.now i []) at }
    ensures size { IfSome (option_copied result) (λ block. length block ≡ 4096) }
{
    match at {
        Some(at) => Some(bank.view(at)),
        None => None,
    }
}
