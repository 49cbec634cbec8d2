//! The log of a volume, read from a disk.

ghost use Rattle.std.specs.Prelude.{◌≡◌, ◌≤◌, ◌+◌, ◌*◌, ◌/◌, ◌%◌, ◌^◌, ◌<◌, length, map, IfOk, OnOk};
ghost use Rattle.std.specs.Option.{ForSome};
ghost use Rattle.xfs_disk.specs.Faults.{HasCause};
ghost use Rattle.xfs_geom.specs.Volumes.{volume_of};
ghost use Rattle.xfs_log.specs.Log.{seen_of};
ghost use Rattle.xfs_disk.specs.Reads.{OnlyReads};
ghost use Rattle.xfs_disk.specs.Blocks.{AreBlocksFrom};
ghost use Rattle.xfs_image.specs.View.{log_of};
ghost use Rattle.xfs_log.specs.Sectors.{log_sectors};
ghost use Rattle.xfs_journal.specs.Answers.{HasJournalCause};
ghost use Rattle.xfs_journal.specs.Placed.{IsListed, sectors_of};

use crate::faults::JournalFault;
use crate::seen::{SECTORS, SeenLog, room_for_sectors, see_blocks};
use std::alloc::Global;
use std::sync::ledger::Ledger;
use xfs_collections::Steps;
use xfs_disk::{BLOCK_SIZE, Disk, Failed, NoMemory};
use xfs_geom::Geometry;
use xfs_log::{LogState, log_state};

/// How many blocks of the log are read by one call, and their bytes.
const RUN_BLOCKS: usize = 16;

const RUN_SIZE: usize = 65536;

/// Whether the log is clean (chapter "Journaling Log"). `ReadFault` only where a read failed. Each block that is read
/// counts as a step, also where the read fails.
#[tactic(auto, unfolding(xfs_image::specs::View::log_of))]
pub fn read_log<D: Disk, L: Ledger>(
    alloc: Global,
    g: &Geometry,
    disk: &mut D,
    steps: &mut Steps<L>,
) -> Result<LogState, JournalFault>
    requires inside { g.now.dblocks ≤ D.size disk.old }
    ensures state { IfOk result (λ state. ForSome (D.holds disk.old) (λ image. state ≡ log_of (volume_of g.now) image)) }
    ensures cause { HasJournalCause (D.faults disk.old) (D.faults disk.new) result }
    ensures disk { OnlyReads D.size D.holds D.write_faults D.writes D.tells_stops D.moment D.may_leave D.left_since disk.old disk.new }
    ensures reads { D.reads disk.new + steps.old ≤ D.reads disk.old + steps.new }
{
    match see_log(alloc, g, disk, steps) {
        Ok(log) => Ok(log_state(&log.seen, SECTORS * g.logblocks as usize)),
        Err(fault) => Err(fault),
    }
}

/// What of the sectors of the log says whether it is clean.
fn see_log<D: Disk, L: Ledger>(
    alloc: Global,
    g: &Geometry,
    disk: &mut D,
    steps: &mut Steps<L>,
) -> Result<SeenLog, JournalFault>
    requires inside { g.now.dblocks ≤ D.size disk.old }
    ensures seen { IfOk result (λ log. ForSome (D.holds disk.old) (λ image. sectors_of log ≡ map seen_of (log_sectors (volume_of g.now) image))) }
    ensures count { IfOk result (λ log. length (sectors_of log) ≡ 8 * g.now.logblocks) }
    ensures listed { IfOk result IsListed }
    ensures cause { HasJournalCause (D.faults disk.old) (D.faults disk.new) result }
    ensures disk { OnlyReads D.size D.holds D.write_faults D.writes D.tells_stops D.moment D.may_leave D.left_since disk.old disk.new }
    ensures reads { D.reads disk.new + steps.old ≤ D.reads disk.old + steps.new }
{
    let mut log = match room_for_sectors(alloc, g) {
        Ok(log) => log,
        Err(NoMemory) => return Err(JournalFault::NoMemory),
    };
    let mut run = [0; RUN_SIZE];
    let mut i = 0;
    while i < g.logblocks as usize {
        let count = (g.logblocks as usize - i).min(RUN_BLOCKS);
        match read_blocks(g, disk, i as u64, &mut run[..count * BLOCK_SIZE], steps) {
            Ok(()) => {}
            Err(Failed) => return Err(JournalFault::ReadFault),
        }
        match see_blocks(&run[..count * BLOCK_SIZE], &mut log) {
            Ok(()) => {}
            Err(NoMemory) => return Err(JournalFault::NoMemory),
        }
        i += count;
    }
    Ok(log)
}

/// Reads blocks of the log from block `i` of it on, as many as `run` has room for, and counts each as a step.
fn read_blocks<D: Disk, L: Ledger>(
    g: &Geometry,
    disk: &mut D,
    i: u64,
    run: &mut [u8],
    steps: &mut Steps<L>,
) -> Result<(), Failed>
    requires inside { g.now.dblocks ≤ D.size disk.old }
    requires log { i + length run.old / 4096 ≤ g.now.logblocks }
    requires some { i < g.now.logblocks }
    requires whole { length run.old % 4096 ≡ 0 }
    ensures bytes { OnOk result (ForSome (D.holds disk.old) (λ image. AreBlocksFrom image (g.now.log + i) (length run.old / 4096) run.new)) }
    ensures cause { HasCause (D.faults disk.old) (D.faults disk.new) result }
    ensures disk { OnlyReads D.size D.holds D.write_faults D.writes D.tells_stops D.moment D.may_leave D.left_since disk.old disk.new }
    ensures ticks { steps.new ≡ steps.old + length run.old / 4096 }
    ensures reads { D.reads disk.new ≤ D.reads disk.old + length run.old / 4096 }
{
    steps.tick_often(run.len() / BLOCK_SIZE);
    match disk.read_run(log_block(g, i), run) {
        Ok(()) => Ok(()),
        Err(Failed) => Err(Failed),
    }
}

/// The number of a block of the log.
fn log_block(g: &Geometry, i: u64) -> u64
    requires { i < g.now.logblocks }
    ensures value { result ≡ g.now.log + i }
    ensures inside { g.now.log + g.now.logblocks ≤ g.now.dblocks }
    ensures number { g.now.dblocks < 2 ^ 64 }
{
    g.log + i
}
