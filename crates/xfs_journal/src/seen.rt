//! What is seen of the sectors of a log while it is read.

ghost use Rattle.std.specs.Prelude.{◌≡◌, ◌≤◌, ◌/◌, ◌++◌, ◌∷◌, [], length, replicate, IfOk, OnOk};
ghost use Rattle.xfs_log.specs.Log.{no_sector};
ghost use Rattle.xfs_tree.specs.Blocks.{each_of};
ghost use Rattle.xfs_journal.specs.Placed.{IsListed, seen_in, seen_in_blocks, sectors_of};

use std::alloc::Global;
use xfs_disk::{BLOCK_SIZE, NoMemory};
use xfs_geom::Geometry;
use xfs_log::{SectorSeen, ZERO_SECTOR, see_sector};
use xfs_word::part;

/// The bytes of a sector, and the sectors of a block.
const SECTOR_SIZE: usize = 512;

pub const SECTORS: usize = 8;

/// How many sectors are listed in any case.
const LISTED: usize = 512;

/// What is seen of a log as far as it was read: sectors, and so many of zeros behind them. Most of a log that was hardly in use is zeros,
/// of which a list is neither made nor gone through.
#[derive(Drop)]
pub struct SeenLog {
    pub seen: Vec<SectorSeen>,
    pub zeros: usize,
}

/// An empty log with room for what is seen of all sectors, so that the list is never moved while it grows.
pub fn room_for_sectors(alloc: Global, g: &Geometry) -> Result<SeenLog, NoMemory>
    ensures empty { IfOk result (λ log. sectors_of log ≡ []) }
    ensures listed { IfOk result IsListed }
{
    let seen = Vec::with_capacity(alloc, SECTORS * g.logblocks as usize)?;
    Ok(SeenLog { seen, zeros: 0 })
}

/// Adds what is seen of the sectors of blocks that stand one behind the other.
pub fn see_blocks(run: &[u8], log: &mut SeenLog) -> Result<(), NoMemory>
    requires { IsListed log.old }
    ensures seen { OnOk result (sectors_of log.new ≡ sectors_of log.old ++ seen_in_blocks run.now 0 (length run.now / 4096)) }
    ensures listed { OnOk result (IsListed log.new) }
{
    for k in 0..run.len() / BLOCK_SIZE {
        see_block(part(run, k * BLOCK_SIZE, BLOCK_SIZE), log)?;
    }
    Ok(())
}

/// Adds what is seen of the sectors of a block.
fn see_block(block: &[u8], log: &mut SeenLog) -> Result<(), NoMemory>
    requires block { length block.now ≡ 4096 }
    requires listed { IsListed log.old }
    ensures seen { OnOk result (sectors_of log.new ≡ sectors_of log.old ++ each_of 8 (seen_in block.now)) }
    ensures listed { OnOk result (IsListed log.new) }
{
    for sector in 0..SECTORS {
        add(
            see_sector(part(block, SECTOR_SIZE * sector, SECTOR_SIZE)),
            log,
        )?;
    }
    Ok(())
}

/// Adds a sector.
fn add(sector: SectorSeen, log: &mut SeenLog) -> Result<(), NoMemory>
    requires { IsListed log.old }
    ensures seen { OnOk result (sectors_of log.new ≡ sectors_of log.old ++ sector ∷ []) }
    ensures listed { OnOk result (IsListed log.new) }
{
    if LISTED <= log.seen.len() && sector == ZERO_SECTOR {
        return count_zeros(log);
    }
    list_zeros(log)?;
    log.seen.push(sector)?;
    Ok(())
}

/// Counts one more of zeros. No memory has as many sectors as a number can't count.
fn count_zeros(log: &mut SeenLog) -> Result<(), NoMemory>
    requires { 512 ≤ length log.old.seen.items }
    ensures seen { OnOk result (sectors_of log.new ≡ sectors_of log.old ++ no_sector ∷ []) }
    ensures listed { OnOk result (IsListed log.new) }
{
    match log.zeros.checked_add(1) {
        Some(zeros) => {
            log.zeros = zeros;
            Ok(())
        }
        None => Err(NoMemory),
    }
}

/// Lists the zeros that were only counted.
fn list_zeros(log: &mut SeenLog) -> Result<(), NoMemory>
    ensures items { OnOk result (log.new.seen.items ≡ log.old.seen.items ++ replicate log.old.zeros no_sector) }
    ensures none { OnOk result (log.new.zeros ≡ 0) }
{
    for _ in 0..log.zeros {
        log.seen.push(ZERO_SECTOR)?;
    }
    log.zeros = 0;
    Ok(())
}
