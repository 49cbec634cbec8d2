//! The data forks of the directories that are built anew, by where their blocks stand.

ghost use Rattle.std.specs.Prelude.{◌≡◌, ◌≤◌, ◌+◌, ◌*◌, ◌^◌, ◌++◌, length, IfOk, OnOk};
ghost use Rattle.std.specs.List.{flat_map, sum_by};
ghost use Rattle.std.specs.List.Sorted.{IsNonDecreasingBy};
ghost use Rattle.xfs_geom.specs.Volumes.{volume_of};
ghost use Rattle.xfs_volume.specs.declared.files.FileRec.{FileRec};
ghost use Rattle.xfs_word.specs.declared.extents.Extent.{Extent};
ghost use Rattle.xfs_changes.specs.Forks.{attribute_blocks_at, extents_fork, forks_of, IsForkWithBlocks, IsNextFork, run_bytes, runs_in, short_fork};

use crate::objects::{asks_for, stands_in_blocks};
use crate::slots::behind;
use std::alloc::Global;
use xfs_dirbuild::DirImage;
use xfs_disk::{NoMemory, Word};
use xfs_geom::{Geometry, Run};
use xfs_inodebuild::ForkWanted;
use xfs_names::BuiltDirectory;
use xfs_naming::{Numbered, records_by_number};
use xfs_volume::FileRec;
use xfs_word::{Extent, pack_extent};

/// The bytes of a data block.
const BLOCK_BYTES: u64 = 4096;

/// The most blocks of an extent, and the first block of a file that an extent cannot have.
const MOST_EXTENT_BLOCKS: u64 = (1 << 21) - 1;

const OFFSET_END: u64 = 1 << 54;

/// The data fork of a directory that is built anew.
#[derive(Drop)]
pub struct DirectoryFork {
    /// The number of its inode.
    pub ino: u64,
    pub fork: ForkWanted,
}

impl Numbered for DirectoryFork {
    ghost key = { λ f. f.ino };

    fn number(&self) -> u64 {
        self.ino
    }
}

/// The forks of the directories, in their order. Of the runs each that has blocks has the next ones, as many as the cuts of its
/// asks say.
///
/// `NoMemory` where memory is wanting, where there are too few cuts or runs, or where a run is no extent, as never of what was
/// placed for these directories.
pub fn forks_of(
    alloc: Global,
    g: &Geometry,
    files: &[FileRec],
    built: &[BuiltDirectory],
    cuts: &[u32],
    runs: &[Run],
) -> Result<Vec<DirectoryFork>, NoMemory>
    requires files { IsNonDecreasingBy (λ (f : FileRec). f.ino) files.now }
    ensures { IfOk result (λ forks. forks.items ≡ forks_of (volume_of g.now) files.now built.now cuts.now runs.now) }
{
    let mut forks = Vec::new(alloc);
    let mut cuts_left = cuts;
    let mut runs_left = runs;
    for directory in built {
        let TakenFork { fork, asks, count } = next_fork(
            alloc, g, files, directory, cuts_left, runs_left,
        )?;
        forks.push(DirectoryFork {
            ino: directory.ino,
            fork,
        })?;
        cuts_left = behind(cuts_left, asks);
        runs_left = behind(runs_left, count);
    }
    Ok(forks)
}

/// The fork of a directory, with how many cuts and runs it has.
#[derive(Drop)]
struct TakenFork {
    fork: ForkWanted,
    asks: usize,
    count: usize,
}

/// The fork of a directory, which has the first of the cuts and runs where it has blocks.
fn next_fork(
    alloc: Global,
    g: &Geometry,
    files: &[FileRec],
    directory: &BuiltDirectory,
    cuts: &[u32],
    runs: &[Run],
) -> Result<TakenFork, NoMemory>
    requires files { IsNonDecreasingBy (λ (f : FileRec). f.ino) files.now }
    ensures { IfOk result (IsNextFork (volume_of g.now) files.now directory.now cuts.now runs.now) }
{
    let attributes = attribute_blocks_at(files, directory.ino)?;
    if stands_in_blocks(directory) {
        return fork_with_blocks(alloc, g, attributes, directory, cuts, runs);
    }
    Ok(TakenFork {
        fork: short_fork(alloc, attributes, directory)?,
        asks: 0,
        count: 0,
    })
}

/// The fork of a directory with blocks, in the first of the runs.
fn fork_with_blocks(
    alloc: Global,
    g: &Geometry,
    attributes: u64,
    directory: &BuiltDirectory,
    cuts: &[u32],
    runs: &[Run],
) -> Result<TakenFork, NoMemory>
    ensures { IfOk result (IsForkWithBlocks (volume_of g.now) attributes directory.now cuts.now runs.now) }
{
    let asks = asks_for(alloc, directory.ino, &directory.image)?.len();
    if cuts.len() < asks {
        return Err(NoMemory);
    }
    let count = runs_in(&cuts[..asks])?;
    if runs.len() < count {
        return Err(NoMemory);
    }
    Ok(TakenFork {
        fork: extents_fork(alloc, g, attributes, &runs[..count], directory)?,
        asks,
        count,
    })
}

/// How many runs asks with these cuts have. `NoMemory` where their number cannot be held.
fn runs_in(cuts: &[u32]) -> Result<usize, NoMemory>
    ensures { IfOk result (λ count. count ≡ runs_in cuts.now) }
{
    match usize::try_from(sum_of_cuts(cuts)) {
        Ok(count) => Ok(count),
        Err(_) => Err(NoMemory),
    }
}

/// The same, where it can always be held.
fn sum_of_cuts(cuts: &[u32]) -> u128
    ensures value { result ≡ runs_in cuts.now }
    ensures less { result ≤ length cuts.now * 2 ^ 64 }
{
    let mut count = 0;
    for cut in cuts {
        count += *cut as u128;
    }
    count
}

/// The blocks of the attributes of the file with a number; none where there is none. `NoMemory` where their number cannot be held.
fn attribute_blocks_at(files: &[FileRec], ino: u64) -> Result<u64, NoMemory>
    requires files { IsNonDecreasingBy (λ (f : FileRec). f.ino) files.now }
    ensures { IfOk result (λ blocks. blocks ≡ attribute_blocks_at files.now ino) }
{
    match records_by_number(files, ino).first() {
        Some(file) => attribute_blocks(file.rest.attr_extents()),
        None => Ok(0),
    }
}

/// The blocks of extents. `NoMemory` where their number cannot be held.
fn attribute_blocks(extents: &[Extent]) -> Result<u64, NoMemory>
    ensures { IfOk result (λ blocks. blocks ≡ sum_by (λ (e : Extent). e.count) extents.now) }
{
    match u64::try_from(extent_blocks(extents)) {
        Ok(blocks) => Ok(blocks),
        Err(_) => Err(NoMemory),
    }
}

/// The same, where it can always be held.
fn extent_blocks(extents: &[Extent]) -> u128
    ensures value { result ≡ sum_by (λ (e : Extent). e.count) extents.now }
    ensures less { result ≤ length extents.now * 2 ^ 64 }
{
    let mut blocks = 0;
    for extent in extents {
        blocks += extent.count as u128;
    }
    blocks
}

/// The fork of a directory in its short form.
fn short_fork(
    alloc: Global,
    attributes: u64,
    directory: &BuiltDirectory,
) -> Result<ForkWanted, NoMemory>
    ensures { IfOk result (λ fork. fork ≡ short_fork attributes directory.now) }
{
    let short = directory.image.short.as_slice();
    Ok(ForkWanted {
        format: 1,
        size: short.len() as u64,
        nblocks: attributes,
        nextents: 0,
        bytes: Word::from_slice(alloc, short)?,
    })
}

/// The fork of a directory with blocks in these runs.
fn extents_fork(
    alloc: Global,
    g: &Geometry,
    attributes: u64,
    runs: &[Run],
    directory: &BuiltDirectory,
) -> Result<ForkWanted, NoMemory>
    ensures { IfOk result (λ fork. fork ≡ extents_fork (volume_of g.now) attributes runs.now directory.now) }
{
    let size = data_bytes(&directory.image)?;
    let nblocks = fork_blocks(&directory.image, attributes)?;
    let bytes = extents_of(alloc, g, runs)?;
    Ok(ForkWanted {
        format: 2,
        size,
        nblocks,
        nextents: runs.len() as u64,
        bytes: Word::from_vec(bytes),
    })
}

/// The bytes of the data of a directory. `NoMemory` where their number cannot be held.
fn data_bytes(image: &DirImage) -> Result<u64, NoMemory>
    ensures { IfOk result (λ bytes. bytes ≡ 4096 * image.now.data_blocks) }
{
    match image.data_blocks.checked_mul(BLOCK_BYTES) {
        Some(bytes) => Ok(bytes),
        None => Err(NoMemory),
    }
}

/// The blocks of a directory, with those of its attributes. `NoMemory` where their number cannot be held.
fn fork_blocks(image: &DirImage, attributes: u64) -> Result<u64, NoMemory>
    ensures { IfOk result (λ blocks. blocks ≡ image.now.data_blocks + image.now.index_blocks + image.now.free_blocks + attributes) }
{
    let own = image.data_blocks as u128 + image.index_blocks as u128 + image.free_blocks as u128;
    match u64::try_from(own + attributes as u128) {
        Ok(blocks) => Ok(blocks),
        Err(_) => Err(NoMemory),
    }
}

/// The bytes of runs as extents.
fn extents_of(alloc: Global, g: &Geometry, runs: &[Run]) -> Result<Vec<u8>, NoMemory>
    ensures { IfOk result (λ bytes. bytes.items ≡ flat_map (run_bytes (volume_of g.now)) runs.now) }
{
    let mut bytes = Vec::new(alloc);
    for run in runs {
        push_extent(g, run, &mut bytes)?;
    }
    Ok(bytes)
}

/// Adds the bytes of a run as an extent.
fn push_extent(g: &Geometry, run: &Run, bytes: &mut Vec<u8>) -> Result<(), NoMemory>
    ensures { OnOk result (bytes.new.items ≡ bytes.old.items ++ run_bytes (volume_of g.now) run.now) }
{
    if run.start >= g.dblocks || run.count > MOST_EXTENT_BLOCKS || run.offset_word >= OFFSET_END {
        return Err(NoMemory);
    }
    let extent = Extent {
        offset: run.offset_word,
        start: g.address_of_block(run.start),
        count: run.count,
        unwritten: false,
    };
    bytes.extend_from_slice(&pack_extent(&extent))?;
    Ok(())
}
