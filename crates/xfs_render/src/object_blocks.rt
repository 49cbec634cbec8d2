//! Which blocks the objects of a volume have.

ghost use Rattle.std.specs.Prelude.{◌≡◌, ◌++◌, ◌≤◌, ◌+◌, length, map, All, IfOk, OnOk};
ghost use Rattle.std.specs.List.{flat_map};
ghost use Rattle.xfs_place.specs.Objects.{ServeAsks, asks_of};
ghost use Rattle.xfs_place.specs.Pool.{IsRunOf};
ghost use Rattle.xfs_place.specs.declared.wanted.RunAsk.{RunAsk};
ghost use Rattle.xfs_render.specs.Objects.{ask_blocks, asks_in, asks_with_kind, blocks_of_asks, object_blocks, run_blocks};
ghost use Rattle.xfs_render.specs.declared.object_blocks.ObjectAsk.{ObjectAsk};

use std::alloc::Global;
use xfs_disk::NoMemory;
use xfs_geom::Run;
use xfs_kinds::is_unwritten;
use xfs_place::{Object, ObjectKind, Placed, RunAsk, Wanted};

/// A run that an object asks for, with what the object is.
#[derive(Clone, Copy)]
pub struct ObjectAsk {
    pub kind: ObjectKind,
    pub ask: RunAsk,
}

/// A block of an object.
#[derive(Clone, Copy)]
pub struct ObjectBlock {
    pub kind: ObjectKind,
    /// The number of the inode that owns it.
    pub owner: u64,
    /// Its block number.
    pub place: u64,
}

/// The blocks of all objects that are written, in the order of their asks; those of an ask from its first to its last.
pub fn object_blocks(
    alloc: Global,
    wanted: &Wanted,
    placed: &Placed,
) -> Result<Vec<ObjectBlock>, NoMemory>
    requires cuts { ServeAsks (asks_of wanted.now.objects) placed.now.cuts placed.now.runs }
    requires runs { All (IsRunOf wanted.now.geometry.dblocks) placed.now.runs }
    ensures { IfOk result (λ blocks. blocks.items ≡ object_blocks wanted.now placed.now) }
{
    let asks = list_asks(alloc, wanted.objects.as_slice())?;
    list_blocks(
        alloc,
        wanted.geometry.dblocks,
        &asks,
        placed.cuts.as_slice(),
        placed.runs.as_slice(),
    )
}

/// The runs that all objects ask for.
fn list_asks(alloc: Global, objects: &[Object]) -> Result<Vec<ObjectAsk>, NoMemory>
    ensures { IfOk result (λ asks. asks.items ≡ asks_with_kind objects.now) }
{
    let mut asks = Vec::new(alloc);
    for object in objects {
        push_asks(&object.kind, object.runs.as_slice(), &mut asks)?;
    }
    Ok(asks)
}

/// Adds the runs that an object of a kind asks for.
fn push_asks(kind: &ObjectKind, runs: &[RunAsk], asks: &mut Vec<ObjectAsk>) -> Result<(), NoMemory>
    ensures { OnOk result (asks.new.items ≡ asks.old.items ++ map (λ (ask : RunAsk). record { kind = kind.now; ask = ask }) runs.now) }
{
    for ask in runs {
        asks.push(ObjectAsk {
            kind: *kind,
            ask: *ask,
        })?;
    }
    Ok(())
}

/// The blocks of asks in a volume of so many blocks, of which each has as many of the runs as its cut says.
fn list_blocks(
    alloc: Global,
    _dblocks: u64,
    asks: &[ObjectAsk],
    cuts: &[u32],
    runs: &[Run],
) -> Result<Vec<ObjectBlock>, NoMemory>
    requires cuts { ServeAsks (map (λ (a : ObjectAsk). a.ask) asks.now) cuts.now runs.now }
    requires runs { All (IsRunOf _dblocks) runs.now }
    ensures { IfOk result (λ blocks. blocks.items ≡ blocks_of_asks asks.now cuts.now runs.now) }
{
    let mut blocks = Vec::new(alloc);
    let mut at = 0;
    for (i, ask) in asks.iter().enumerate() {
        let end = at + cuts[i] as usize;
        push_ask(_dblocks, ask, &runs[at..end], &mut blocks)?;
        at = end;
    }
    Ok(blocks)
}

/// Adds the blocks that an ask has in its runs.
fn push_ask(
    _dblocks: u64,
    ask: &ObjectAsk,
    runs: &[Run],
    blocks: &mut Vec<ObjectBlock>,
) -> Result<(), NoMemory>
    requires runs { All (IsRunOf _dblocks) runs.now }
    ensures { OnOk result (blocks.new.items ≡ blocks.old.items ++ ask_blocks ask.now runs.now) }
{
    if is_unwritten(ask.ask.offset_word) {
        return Ok(());
    }
    push_runs(_dblocks, ask, runs, blocks)?;
    Ok(())
}

/// Adds the blocks of the runs of an ask.
fn push_runs(
    _dblocks: u64,
    ask: &ObjectAsk,
    runs: &[Run],
    blocks: &mut Vec<ObjectBlock>,
) -> Result<(), NoMemory>
    requires runs { All (IsRunOf _dblocks) runs.now }
    ensures { OnOk result (blocks.new.items ≡ blocks.old.items ++ flat_map (run_blocks ask.now.kind ask.now.ask.owner) runs.now) }
{
    for run in runs {
        push_run(_dblocks, ask, run, blocks)?;
    }
    Ok(())
}

/// Adds the blocks of a run of an ask.
fn push_run(
    _dblocks: u64,
    ask: &ObjectAsk,
    run: &Run,
    blocks: &mut Vec<ObjectBlock>,
) -> Result<(), NoMemory>
    requires run { IsRunOf _dblocks run.now }
    ensures { OnOk result (blocks.new.items ≡ blocks.old.items ++ run_blocks ask.now.kind ask.now.ask.owner run.now) }
{
    for place in run.start..run.start + run.count {
        blocks.push(ObjectBlock {
            kind: ask.kind,
            owner: ask.ask.owner,
            place,
        })?;
    }
    Ok(())
}
