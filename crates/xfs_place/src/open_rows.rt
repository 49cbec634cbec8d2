//! The rows of blocks on which objects may stand.

ghost use Rattle.std.specs.Prelude.{◌≡◌, ◌≤◌, ◌<◌, ◌+◌, ◌-◌, ◌/◌, ◌%◌, ◌^◌, ◌&&◌, ◌++◌, [], ◌∷◌, ℕ, min, nat_le, nat_lt, length, slice_index, slice_index_or, if◌then◌else◌, IfOk, OnOk};
ghost use Rattle.xfs_geom.specs.Volumes.{volume_of};
ghost use Rattle.xfs_place.specs.Choice.{in_pool};
ghost use Rattle.xfs_place.specs.Finding.{AreOpenRows, unspared_part};
ghost use Rattle.xfs_place.specs.Pool.{MarksUses, is_pool};
ghost use Rattle.xfs_place.specs.Wanted.{CanBeKept};
ghost use Rattle.xfs_place.specs.declared.uses.Use.TheVariants.{Claimed};

use crate::uses::{Use, is_open, list_uses, mark};
use std::alloc::Global;
use xfs_disk::NoMemory;
use xfs_geom::{Geometry, Run};

/// Where objects may stand in a volume.
#[derive(Clone, Copy)]
pub struct Site<'a> {
    pub geometry: &'a Geometry,
    /// Blocks on which nothing new may stand.
    pub reserved: &'a [u64],
    /// No run begins before this AG block.
    pub from: u32,
    /// Of each group the AG block from which on its blocks are spared; of a group that lacks here none is.
    pub spared: &'a [u32],
    /// Whether an object that finds no room else may stand on spared blocks.
    pub takes: bool,
}

/// The uses of all blocks, where those of each group before the AG block of the site are claimed.
pub fn list_uses_open(alloc: Global, site: &Site<'_>, kept: &[Run]) -> Result<Vec<Use>, NoMemory>
    requires kept { CanBeKept (volume_of site.now.geometry.now) kept.now }
    ensures all { IfOk result (λ uses. length uses.items ≡ site.now.geometry.now.dblocks) }
    ensures few { IfOk result (λ uses. length uses.items < 2 ^ 32) }
    ensures each { IfOk result (λ uses. (b : ℕ) → b < site.now.geometry.now.dblocks
        → in_pool uses.items b ≡ (is_pool (volume_of site.now.geometry.now) kept.now site.now.reserved.now b && nat_le site.now.from (b % site.now.geometry.now.agblocks))) }
{
    let mut uses = list_uses(alloc, site.geometry, kept, site.reserved)?;
    close_fronts(&mut uses, site.geometry, site.from);
    Ok(uses)
}

/// Closes the blocks of each group before AG block `from`.
fn close_fronts(uses: &mut [Use], g: &Geometry, from: u32)
    requires { length uses.old ≡ g.now.dblocks }
    ensures { MarksUses uses.old uses.new (λ block. nat_lt (block % g.now.agblocks) from) Claimed }
{
    for ag in 0..g.agcount {
        let blocks = g.group_length(ag).min(from);
        mark(uses, g.start_of_group(ag), blocks as u64, Use::Claimed);
    }
}

/// Rows of open blocks.
#[derive(Drop)]
pub struct OpenRows {
    /// The first block of each, ascending.
    pub starts: Vec<u32>,
    /// How many blocks each has.
    pub counts: Vec<u32>,
}

/// The rows of open blocks, each as long as can be.
pub fn list_rows(alloc: Global, uses: &[Use]) -> Result<OpenRows, NoMemory>
    requires { length uses.now < 2 ^ 32 }
    ensures { IfOk result (λ rows. AreOpenRows uses.now rows.starts.items rows.counts.items) }
{
    let mut rows = OpenRows {
        starts: Vec::new(alloc),
        counts: Vec::new(alloc),
    };
    let mut found = 0;
    for block in 0..uses.len() {
        let open = is_open(uses[block]);
        end_row(&mut rows, block, ended(found, open))?;
        found = lengthen(found, open);
    }
    end_row(&mut rows, uses.len(), found)?;
    Ok(rows)
}

/// Adds the row of so many blocks that ends before a block, where it has some.
fn end_row(rows: &mut OpenRows, end: usize, blocks: usize) -> Result<(), NoMemory>
    requires inside { (blocks ≤ end) × (end < 2 ^ 32) }
    ensures starts { OnOk result (rows.new.starts.items ≡ (if nat_lt 0 blocks then rows.old.starts.items ++ (end - blocks) ∷ [] else rows.old.starts.items)) }
    ensures counts { OnOk result (rows.new.counts.items ≡ (if nat_lt 0 blocks then rows.old.counts.items ++ blocks ∷ [] else rows.old.counts.items)) }
{
    if blocks > 0 {
        rows.starts.push((end - blocks) as u32)?;
        rows.counts.push(blocks as u32)?;
    }
    Ok(())
}

/// How many blocks the row has that ends before one more block, or none where it goes on.
fn ended(found: usize, more: bool) -> usize
    ensures value { result ≡ (if more then 0 else found) }
    ensures few { result ≤ found }
{
    if more { 0 } else { found }
}

/// How many open blocks stand in a row with one more block.
fn lengthen(found: usize, more: bool) -> usize
    requires { found < 2 ^ 32 }
    ensures { result ≡ (if more then found + 1 else 0) }
{
    if more { found + 1 } else { 0 }
}

/// How many blocks of each row are not spared.
pub fn list_unspared(alloc: Global, site: &Site<'_>, rows: &OpenRows) -> Result<Vec<u32>, NoMemory>
    requires all { length rows.now.counts.items ≡ length rows.now.starts.items }
    ensures all { IfOk result (λ unspared. length unspared.items ≡ length rows.now.starts.items) }
    ensures each { IfOk result (λ unspared. (k : ℕ) → k < length rows.now.starts.items → slice_index unspared.items k
        ≡ unspared_part (volume_of site.now.geometry.now) site.now.spared.now (slice_index rows.now.starts.items k) (slice_index rows.now.counts.items k)) }
{
    let mut unspared = Vec::new(alloc);
    for row in 0..rows.starts.len() {
        unspared.push(unspared_part(site, rows.starts[row], rows.counts[row]))?;
    }
    Ok(unspared)
}

/// How many blocks of a row are not spared.
fn unspared_part(site: &Site<'_>, start: u32, count: u32) -> u32
    ensures { result ≡ unspared_part (volume_of site.now.geometry.now) site.now.spared.now start count }
{
    let agblocks = site.geometry.agblocks;
    let end = spared_from(site.spared, (start / agblocks) as usize, agblocks);
    count.min(end.saturating_sub(start % agblocks))
}

/// The AG block from which on the blocks of a group are spared: it is as given where none is named.
pub fn spared_from(spared: &[u32], ag: usize, agblocks: u32) -> u32
    ensures { result ≡ slice_index_or spared.now ag agblocks }
{
    match spared.get(ag) {
        Some(block) => *block,
        None => agblocks,
    }
}
