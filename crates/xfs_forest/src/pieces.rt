//! The blocks of a round, judged in pieces by several workers.

ghost use Rattle.std.specs.Prelude.{◌≤◌, length};
ghost use Rattle.xfs_geom.specs.Volumes.{volume_of};
ghost use Rattle.xfs_forest.specs.Forest.{Each, EachBoth, IsInRound, IsJudged};

use crate::cells::Cell;
use crate::plants::Plant;
use std::alloc::Global;
use std::thread;
use std::thread::Threads;
use xfs_collections::BlockBank;
use xfs_disk::Gate;
use xfs_geom::Geometry;
use xfs_tree::{Kind, read_step};

/// Judges blocks whose bytes stand in a bank, in as many pieces of neighbouring blocks as there are workers or fewer. Each piece
/// first goes through the gate, by its number, from 0.
pub(crate) fn judge_pieces<K: Kind + Drop, R: Threads + Sync, G: Gate>(
    rt: &R,
    alloc: Global,
    g: &Geometry,
    plants: &[Plant<K>],
    bank: &BlockBank,
    workers: u32,
    gate: &G,
    cells: &mut [Cell<K::Record, K::Key>],
)
    requires cells { Each (IsInRound plants.now bank.now g.now.dblocks) (length cells.old) cells.old }
    ensures { EachBoth (IsJudged K.shape (volume_of g.now) plants.now bank.now) cells.old cells.new }
{
    let size = piece_size(cells.len(), workers);
    let judge = move |start: usize, piece: &mut [Cell<K::Record, K::Key>]|
        requires { (1 ≤ size) × Each (IsInRound plants.now bank.now g.now.dblocks) (length piece.now) piece.now }
        ensures { EachBoth (IsJudged K.shape (volume_of g.entry.now) plants.entry.now bank.entry.now) piece.entry.now piece.exit.now }
    { judge_piece(alloc, g, plants, bank, start / size, gate, piece) };
    thread::for_each_chunk_mut(rt, cells, size, &judge);
}

/// How many blocks a piece has at most: all of them over the workers.
pub fn piece_size(blocks: usize, workers: u32) -> usize
    ensures { 1 ≤ result }
{
    blocks.div_ceil(workers.max(1) as usize).max(1)
}

/// Judges the blocks of a piece, once it is through the gate.
fn judge_piece<K: Kind + Drop, G: Gate>(
    alloc: Global,
    g: &Geometry,
    plants: &[Plant<K>],
    bank: &BlockBank,
    number: usize,
    gate: &G,
    piece: &mut [Cell<K::Record, K::Key>],
)
    requires { Each (IsInRound plants.now bank.now g.now.dblocks) (length piece.old) piece.old }
    ensures { EachBoth (IsJudged K.shape (volume_of g.now) plants.now bank.now) piece.old piece.new }
{
    gate.enter(number);
    for i in 0..piece.len() {
        judge_one(alloc, g, plants, bank, &mut piece[i]);
    }
}

/// Judges a block.
fn judge_one<K: Kind + Drop>(
    alloc: Global,
    g: &Geometry,
    plants: &[Plant<K>],
    bank: &BlockBank,
    cell: &mut Cell<K::Record, K::Key>,
)
    requires { IsInRound plants.now bank.now g.now.dblocks cell.old }
    ensures { IsJudged K.shape (volume_of g.now) plants.now bank.now cell.old cell.new }
{
    let kind = &plants[cell.spot.tree].kind;
    cell.found = read_step(alloc, kind, g, &cell.spot, bank.view(cell.spot.at));
}
