//! The chunks of inodes of a new volume.

ghost use Rattle.std.specs.Prelude.{◌≡◌, ◌≤◌, ◌<◌, ◌⊎◌, ◌+◌, ◌-◌, ◌/◌, ◌==◌, ◌^◌, ◌∷◌, length, map, take, IfErr, IfOk};
ghost use Rattle.std.specs.List.{All};
ghost use Rattle.xfs_geom.specs.Volumes.{volume_of};
ghost use Rattle.xfs_place.specs.Chunks.{asked_rooms};
ghost use Rattle.xfs_place.specs.Pool.{IsRunOf};
ghost use Rattle.xfs_filled.specs.Chunks.{inodes_filled, chunk_at, chunk_record, chunk_starts, further_ask, chunks_of_group, spared_list, used_in_chunk};
ghost use Rattle.xfs_filled.specs.Numbers.{chunk_count, further_chunks};
ghost use Rattle.xfs_filled.specs.Planning.{further_rooms};

use crate::numbers::{CHUNK_INODES, SYSTEM_INODES, further_chunks};
use std::alloc::Global;
use xfs_disk::NoMemory;
use xfs_geom::{Geometry, InoRec, Run};
use xfs_place::{ChunkAsk, GroupInodes, PlaceFault, Unplaced, chunks, spare};
use xfs_volume::Records;

/// The owner of the blocks of inodes (chapter "Reverse-Mapping B+tree").
const INODES: u64 = u64::MAX - 6;

/// The first block of the first chunk, the blocks of a chunk, and the AG block behind the first.
const FIRST_CHUNK: u64 = 16;

pub const CHUNK_BLOCKS: u64 = 8;

pub const BEHIND_CHUNK: u32 = 24;

/// Where the chunks of a new volume stand.
#[derive(Drop)]
pub struct ChunksPlaced {
    /// Their first blocks, the first chunk's in front.
    pub starts: Vec<u64>,
    /// Of each group the AG block from which on its blocks are spared for trees.
    pub spared_from: Records<u32>,
}

/// Places the chunks that so many files have: the first at block 16, each other on the lowest blocks that are not spared.
///
/// `NoRoom` of a chunk where there are too few such blocks; `NoMemory` where memory is wanting.
pub fn place_chunks(alloc: Global, g: &Geometry, files: usize) -> Result<ChunksPlaced, PlaceFault>
    requires files { files < 2 ^ 63 }
    ensures starts { IfOk result (λ placed. placed.starts.items ≡ chunk_starts g.now files) }
    ensures enough { IfOk result (λ placed. length placed.starts.items ≡ chunk_count files) }
    ensures room { IfOk result (λ placed. chunk_count files ≤ further_rooms g.now files + 1) }
    ensures spared { IfOk result (λ placed. placed.spared_from ≡ spared_list g.now) }
    ensures cause { IfErr result (λ fault. (fault ≡ PlaceFault.NoMemory)
        ⊎ ((fault ≡ PlaceFault.NoRoom Unplaced.Chunk) × (further_rooms g.now files + 1 < chunk_count files))) }
{
    let ask = further_ask(alloc, g, files)?;
    match list_starts(alloc, &ask) {
        Ok(starts) => Ok(chunks_placed(starts, ask)),
        Err(fault) => Err(fault),
    }
}

/// The chunks that stand from these blocks on, with what is spared in what was asked.
fn chunks_placed(starts: Vec<u64>, ask: ChunkAsk) -> ChunksPlaced
    ensures starts { result.starts.items ≡ starts.items }
    ensures spared { result.spared_from ≡ ask.spared_from }
{
    let ChunkAsk { spared_from, .. } = ask;
    ChunksPlaced {
        starts,
        spared_from,
    }
}

/// The first blocks of the first chunk and of those that are asked behind it.
fn list_starts(alloc: Global, ask: &ChunkAsk) -> Result<Vec<u64>, PlaceFault>
    requires size { 1 ≤ ask.now.size }
    requires taken { All (IsRunOf ask.now.geometry.dblocks) ask.now.taken }
    ensures starts { IfOk result (λ starts. starts.items ≡ 16 ∷ take ask.now.count (asked_rooms ask.now)) }
    ensures all { IfOk result (λ starts. length starts.items ≡ ask.now.count + 1) }
    ensures cause { IfErr result (λ fault. (fault ≡ PlaceFault.NoMemory)
        ⊎ ((fault ≡ PlaceFault.NoRoom ask.now.what) × (length (asked_rooms ask.now) < ask.now.count))) }
{
    match chunks(alloc, ask) {
        Ok(further) => starts_with(alloc, further.as_slice()),
        Err(fault) => Err(fault),
    }
}

/// The first block of the first chunk, and behind it these.
fn starts_with(alloc: Global, further: &[u64]) -> Result<Vec<u64>, PlaceFault>
    ensures starts { IfOk result (λ starts. starts.items ≡ 16 ∷ further.now) }
    ensures cause { IfErr result (λ fault. fault ≡ PlaceFault.NoMemory) }
{
    let mut starts = Vec::new(alloc);
    starts.push(FIRST_CHUNK)?;
    starts.extend_from_slice(further)?;
    Ok(starts)
}

/// The chunks behind the first that so many files ask for.
fn further_ask(alloc: Global, g: &Geometry, files: usize) -> Result<ChunkAsk, NoMemory>
    requires files { files < 2 ^ 63 }
    ensures { IfOk result (λ ask. ask ≡ further_ask g.now files) }
{
    let spared_from = spare(alloc, g, &[], &[], true)?;
    let first = vec![in alloc; chunk_at(FIRST_CHUNK)]?;
    Ok(ChunkAsk {
        geometry: *g,
        taken: Records::from_vec(first),
        reserved: Records::from_vec(Vec::new(alloc)),
        size: CHUNK_BLOCKS as u32,
        from: BEHIND_CHUNK,
        spared_from,
        count: further_chunks(files),
        what: Unplaced::Chunk,
    })
}

/// The blocks of a chunk from a block on.
fn chunk_at(start: u64) -> Run
    ensures { result ≡ chunk_at start }
{
    Run {
        start,
        count: CHUNK_BLOCKS,
        owner: INODES,
        offset_word: 0,
    }
}

/// The blocks of all chunks.
pub fn list_runs(alloc: Global, starts: &[u64]) -> Result<Vec<Run>, NoMemory>
    ensures { IfOk result (λ runs. runs.items ≡ map chunk_at starts.now) }
{
    let mut runs = Vec::new(alloc);
    for start in starts {
        runs.push(chunk_at(*start))?;
    }
    Ok(runs)
}

/// The records of inodes of all groups, where so many files have the first inodes.
pub fn list_inodes(
    alloc: Global,
    g: &Geometry,
    files: usize,
    starts: &[u64],
) -> Result<Vec<GroupInodes>, NoMemory>
    requires files { files < 2 ^ 63 }
    requires chunks { length starts.now < 2 ^ 32 }
    ensures { IfOk result (λ groups. groups.items ≡ inodes_filled g.now files starts.now) }
{
    let mut groups = Vec::new(alloc);
    for ag in 0..g.agcount {
        groups.push(GroupInodes {
            records: Records::from_vec(list_chunks(alloc, g, files, starts, ag)?),
        })?;
    }
    Ok(groups)
}

/// The records of the chunks of a group.
fn list_chunks(
    alloc: Global,
    g: &Geometry,
    files: usize,
    starts: &[u64],
    ag: u32,
) -> Result<Vec<InoRec>, NoMemory>
    requires files { files < 2 ^ 63 }
    requires chunks { length starts.now < 2 ^ 32 }
    ensures { IfOk result (λ records. records.items ≡ chunks_of_group (volume_of g.now) files starts.now ag) }
{
    let mut records = Vec::new(alloc);
    for c in 0..starts.len() {
        if is_in_group(g, starts[c], ag) {
            records.push(chunk_record(g, files, starts, c))?;
        }
    }
    Ok(records)
}

/// Whether a chunk from a block on stands in a group.
fn is_in_group(g: &Geometry, start: u64, ag: u32) -> bool
    ensures { result ≡ (start / g.now.agblocks == ag) }
{
    start / g.agblocks as u64 == ag as u64
}

/// The record of a chunk.
fn chunk_record(g: &Geometry, files: usize, starts: &[u64], c: usize) -> InoRec
    requires files { files < 2 ^ 63 }
    requires chunks { length starts.now < 2 ^ 32 }
    requires inside { c < length starts.now }
    ensures { result ≡ chunk_record (volume_of g.now) files starts.now c }
{
    let used = used_in(files, c);
    InoRec {
        startino: (starts[c] % g.agblocks as u64 * 8) as u32,
        holemask: 0,
        count: CHUNK_INODES as u8,
        freecount: (CHUNK_INODES as u32 - used) as u8,
        free: free_behind(used),
    }
}

/// How many inodes of a chunk are in use.
fn used_in(files: usize, c: usize) -> u32
    requires files { files < 2 ^ 63 }
    requires chunk { c < 2 ^ 32 }
    ensures value { result ≡ used_in_chunk files c }
    ensures few { result ≤ 64 }
{
    let left = (files + SYSTEM_INODES).saturating_sub(CHUNK_INODES * c);
    left.min(CHUNK_INODES) as u32
}

/// All inodes of a chunk but so many.
fn free_behind(used: u32) -> u64
    requires { used ≤ 64 }
    ensures { result ≡ 2 ^ 64 - 2 ^ used }
{
    if used == 64 {
        return 0;
    }
    u64::MAX - ((1 << used) - 1)
}
