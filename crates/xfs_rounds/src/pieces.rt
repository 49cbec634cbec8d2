//! The blocks of a round, judged in pieces by several workers.

ghost use Rattle.std.specs.Prelude.{◌≡◌, ℕ, ◌+◌, ◌<◌, ◌≤◌, length, IfOk, OnOk, slice_index_or};
ghost use Rattle.std.specs.List.{All};
ghost use Rattle.xfs_geom.specs.Volumes.{volume_of};
ghost use Rattle.xfs_rounds.specs.Judged.{AreJudged, AreListed, AreListedBelow, IsInBank, IsJudged};

use crate::judging::{SlotPart, judge_block};
use std::alloc::Global;
use std::thread;
use std::thread::Threads;
use xfs_collections::BlockBank;
use xfs_disk::{Gate, NoMemory};
use xfs_forest::piece_size;
use xfs_geom::Geometry;

/// A block of a round, and what is known of its slots.
#[derive(Drop)]
pub struct BlockParts {
    /// The number of the block.
    pub place: u64,
    /// Which block of the bank has its bytes.
    pub at: usize,
    /// What is known of its slots, in order.
    pub slots: Result<Vec<SlotPart>, NoMemory>,
}

/// Judges the slots of the blocks of a round, whose bytes stand in a bank, in as many pieces of neighbouring blocks as there are
/// workers or fewer. Each piece first goes through the gate, by its number, from 0.
pub fn judge_round<R: Threads + Sync, G: Gate>(
    rt: &R,
    alloc: Global,
    g: &Geometry,
    bank: &BlockBank,
    round: &[u64],
    workers: u32,
    gate: &G,
) -> Result<Vec<BlockParts>, NoMemory>
    requires volume { All (λ block. block < g.now.dblocks) round.now }
    requires bank { length bank.now ≡ length round.now }
    ensures { IfOk result (λ judged. AreJudged (volume_of g.now) bank.now round.now judged.items) }
{
    let mut blocks = list_round(alloc, round)?;
    judge_pieces(rt, alloc, g, bank, workers, gate, &mut blocks);
    Ok(blocks)
}

/// The blocks of a round, none of which is judged yet.
fn list_round(alloc: Global, round: &[u64]) -> Result<Vec<BlockParts>, NoMemory>
    ensures { IfOk result (λ blocks. AreListed round.now blocks.items) }
{
    let mut blocks = Vec::with_capacity(alloc, round.len())?;
    for at in 0..round.len() {
        push_block(round, at, &mut blocks)?;
    }
    Ok(blocks)
}

/// Adds a block of a round, which is not judged yet.
fn push_block(round: &[u64], at: usize, blocks: &mut Vec<BlockParts>) -> Result<(), NoMemory>
    requires inside { at < length round.now }
    requires before { AreListedBelow round.now at blocks.old.items }
    ensures { OnOk result (AreListedBelow round.now (at + 1) blocks.new.items) }
{
    blocks.push(BlockParts {
        place: round[at],
        at,
        slots: Err(NoMemory),
    })?;
    Ok(())
}

/// Judges the slots of blocks, each piece by a worker.
fn judge_pieces<R: Threads + Sync, G: Gate>(
    rt: &R,
    alloc: Global,
    g: &Geometry,
    bank: &BlockBank,
    workers: u32,
    gate: &G,
    blocks: &mut [BlockParts],
)
    requires blocks { (i : ℕ) (d : BlockParts) → i < length blocks.old → IsInBank g.now.dblocks (length bank.now) (slice_index_or blocks.old i d) }
    ensures { (i : ℕ) (d : BlockParts) → i < length blocks.old → IsJudged (volume_of g.now) bank.now (slice_index_or blocks.old i d) (slice_index_or blocks.new i d) }
{
    let size = piece_size(blocks.len(), workers);
    let judge = move |start: usize, piece: &mut [BlockParts]|
        requires { (1 ≤ size) × ((i : ℕ) (d : BlockParts) → i < length piece.now → IsInBank g.now.dblocks (length bank.now) (slice_index_or piece.now i d)) }
        ensures { (i : ℕ) (d : BlockParts) → i < length piece.entry.now → IsJudged (volume_of g.entry.now) bank.entry.now (slice_index_or piece.entry.now i d) (slice_index_or piece.exit.now i d) }
    { judge_piece(alloc, g, bank, start / size, gate, piece) };
    thread::for_each_chunk_mut(rt, blocks, size, &judge);
}

/// Judges the slots of the blocks of a piece, once it is through the gate.
fn judge_piece<G: Gate>(
    alloc: Global,
    g: &Geometry,
    bank: &BlockBank,
    number: usize,
    gate: &G,
    piece: &mut [BlockParts],
)
    requires { (i : ℕ) (d : BlockParts) → i < length piece.old → IsInBank g.now.dblocks (length bank.now) (slice_index_or piece.old i d) }
    ensures { (i : ℕ) (d : BlockParts) → i < length piece.old → IsJudged (volume_of g.now) bank.now (slice_index_or piece.old i d) (slice_index_or piece.new i d) }
{
    gate.enter(number);
    for i in 0..piece.len() {
        judge_one(alloc, g, bank, &mut piece[i]);
    }
}

/// Judges the slots of a block.
fn judge_one(alloc: Global, g: &Geometry, bank: &BlockBank, block: &mut BlockParts)
    requires { IsInBank g.now.dblocks (length bank.now) block.old }
    ensures { IsJudged (volume_of g.now) bank.now block.old block.new }
{
    block.slots = judge_block(alloc, g, block.place, bank.view(block.at));
}
