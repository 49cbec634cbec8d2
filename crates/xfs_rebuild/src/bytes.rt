//! What the blocks of a rebuilt volume are made of.

ghost use Rattle.std.specs.Prelude.{◌≡◌, ◌+◌, ◌<◌, ◌≤◌, [], length, IfErr, IfOk};
ghost use Rattle.std.specs.List.{All};
ghost use Rattle.std.specs.List.Sorted.{IsNonDecreasingBy};
ghost use Rattle.std.specs.Option.{ForSome};
ghost use Rattle.xfs_collections.specs.Bank.{blocks_at};
ghost use Rattle.xfs_disk.specs.Reads.{OnlyReads};
ghost use Rattle.xfs_geom.specs.Volumes.{volume_of};
ghost use Rattle.xfs_naming.specs.Naming.{NumbersAscend};
ghost use Rattle.xfs_volume.specs.declared.files.FileRec.{FileRec};
ghost use Rattle.xfs_render.specs.declared.wanted_slots.SlotWanted.{SlotWanted};
ghost use Rattle.xfs_request.specs.Cycles.{kept_lsns};
ghost use Rattle.xfs_rebuild.specs.Bytes.{AreAtHand, AreReadOf, file_lsns, joined_bytes, numbers_in};
ghost use Rattle.xfs_rebuild.specs.Private.Old.{AreOldOf};
ghost use Rattle.xfs_rebuild.specs.Refusals.{HasRebuildCause, IsReadRefused};

use crate::changes::can_change_all;
use crate::faults::RebuildFault;
use crate::places::old_places;
use std::alloc::Global;
use std::sync::ledger::Ledger;
use xfs_collections::{BlockList, Steps};
use xfs_disk::{BLOCK_SIZE, Disk, Failed, NoMemory, Stamp};
use xfs_geom::{Elected, Geometry};
use xfs_journal::{JournalFault, read_lsns};
use xfs_log::LogState;
use xfs_render::{Bytes, SlotWanted};
use xfs_request::{SlotSeen, due_cycle, kept_lsns};
use xfs_salvage::Salvaged;
use xfs_volume::{BlockLsn, FileRec, Records};

/// The bytes of a superblock.
const SECTOR_SIZE: usize = 512;

/// What the disk has at some places.
#[derive(Drop)]
struct OldBlocks {
    places: Vec<u64>,
    blocks: BlockList,
}

/// The log sequence numbers that stay beside what is kept: those of slots, and those in the blocks of the kept files, which are
/// read. `seen` is what is known of the slots of the candidate clusters.
///
/// `ReadFault` only where a read failed; `NoMemory` where memory is wanting, or where what is read cannot be that of any image.
pub fn kept_numbers<D: Disk, L: Ledger>(
    alloc: Global,
    g: &Geometry,
    disk: &mut D,
    kept: &Salvaged,
    seen: &[SlotSeen],
    steps: &mut Steps<L>,
) -> Result<Vec<u64>, RebuildFault>
    requires files { IsNonDecreasingBy (λ (f : FileRec). f.ino) kept.now.files }
    requires clusters { NumbersAscend 0 kept.now.clusters }
    ensures numbers { IfOk result (λ numbers. ForSome (D.holds disk.old) (λ image.
        numbers.items ≡ kept_lsns (volume_of g.now) kept.now seen.now (file_lsns (volume_of g.now) image kept.now.files))) }
    ensures refused { IfErr result IsReadRefused }
    ensures cause { HasRebuildCause (D.faults disk.old) (D.faults disk.new) result }
    ensures disk { OnlyReads D.size D.holds D.write_faults D.writes D.tells_stops D.moment D.may_leave D.left_since disk.old disk.new }
{
    let lsns = match file_lsns(alloc, g, disk, kept.files.as_slice(), steps) {
        Ok(lsns) => lsns,
        Err(fault) => return Err(fault),
    };
    match kept_lsns(alloc, g, kept, seen, lsns.as_slice()) {
        Ok(numbers) => Ok(numbers),
        Err(NoMemory) => Err(RebuildFault::NoMemory),
    }
}

/// What the blocks are made of: what the disk has at the first block of each group and in the blocks of the kept clusters of which
/// some slot is to change, and what is wanted of slots. `lsns` are the log sequence numbers that stay, for the cycle of a blank log.
///
/// `ReadFault` only where a read failed; `NoMemory` where memory is wanting, where a slot that stays is not sealed, or where the
/// cycle is none that a log can have, as never of an image whose evidence this is.
pub fn gather_bytes<D: Disk>(
    alloc: Global,
    disk: &mut D,
    chosen: &Elected,
    clusters: &[u64],
    slots: Records<SlotWanted>,
    lsns: &[u64],
    log: &LogState,
    stamp: &Stamp,
) -> Result<Bytes, RebuildFault>
    requires inside { chosen.now.geometry.dblocks ≤ D.size disk.old }
    requires lie { All (λ cluster. cluster + 4 ≤ chosen.now.geometry.dblocks) clusters.now }
    requires order { IsNonDecreasingBy (λ (w : SlotWanted). w.ino) slots }
    ensures at_hand { IfOk result (AreAtHand chosen.now.geometry chosen.now.sector stamp.now clusters.now slots) }
    ensures read { IfOk result (λ b. ForSome (D.holds disk.old) (λ image. AreReadOf image lsns.now log.now b)) }
    ensures refused { IfErr result IsReadRefused }
    ensures cause { HasRebuildCause (D.faults disk.old) (D.faults disk.new) result }
    ensures disk { OnlyReads D.size D.holds D.write_faults D.writes D.tells_stops D.moment D.may_leave D.left_since disk.old disk.new }
{
    let g = &chosen.geometry;
    let cycle = match due_cycle(lsns, log) {
        Ok(cycle) => cycle,
        Err(NoMemory) => return Err(RebuildFault::NoMemory),
    };
    match read_old(alloc, disk, g, clusters, slots.as_slice()) {
        Ok(old) => Ok(joined(alloc, &chosen.sector, old, slots, cycle, stamp)),
        Err(fault) => Err(fault),
    }
}

/// What the disk has at the first block of each group and in the blocks of clusters of which some slot is to change.
fn read_old<D: Disk>(
    alloc: Global,
    disk: &mut D,
    g: &Geometry,
    clusters: &[u64],
    slots: &[SlotWanted],
) -> Result<OldBlocks, RebuildFault>
    requires inside { g.now.dblocks ≤ D.size disk.old }
    requires lie { All (λ cluster. cluster + 4 ≤ g.now.dblocks) clusters.now }
    requires order { IsNonDecreasingBy (λ (w : SlotWanted). w.ino) slots.now }
    ensures old { IfOk result (AreOldOf g.now clusters.now slots.now) }
    ensures read { IfOk result (λ old. ForSome (D.holds disk.old) (λ image. old.blocks ≡ blocks_at image old.places.items)) }
    ensures refused { IfErr result IsReadRefused }
    ensures cause { HasRebuildCause (D.faults disk.old) (D.faults disk.new) result }
    ensures disk { OnlyReads D.size D.holds D.write_faults D.writes D.tells_stops D.moment D.may_leave D.left_since disk.old disk.new }
{
    let places = match old_places(alloc, g, clusters, slots) {
        Ok(places) => places,
        Err(NoMemory) => return Err(RebuildFault::NoMemory),
    };
    let blocks = match read_blocks(alloc, disk, places.as_slice()) {
        Ok(blocks) => blocks,
        Err(fault) => return Err(fault),
    };
    if !can_change_all(g, places.as_slice(), &blocks, slots) {
        return Err(RebuildFault::NoMemory);
    }
    Ok(OldBlocks { places, blocks })
}

/// The bytes from their parts.
fn joined(
    alloc: Global,
    sector: &[u8; SECTOR_SIZE],
    old: OldBlocks,
    slots: Records<SlotWanted>,
    cycle: Option<u32>,
    stamp: &Stamp,
) -> Bytes
    ensures { result ≡ joined_bytes sector.now old.places.items old.blocks [] slots cycle stamp.now }
{
    let OldBlocks { places, blocks } = old;
    Bytes {
        sector: *sector,
        places: Records::from_vec(places),
        old: blocks,
        objects: BlockList::make(alloc),
        slots,
        cycle,
        stamp: *stamp,
    }
}

/// The log sequence numbers in the blocks of files.
#[tactic(auto, unfolding(crate::specs::Bytes::file_lsns))]
fn file_lsns<D: Disk, L: Ledger>(
    alloc: Global,
    g: &Geometry,
    disk: &mut D,
    files: &[FileRec],
    steps: &mut Steps<L>,
) -> Result<Vec<u64>, RebuildFault>
    ensures lsns { IfOk result (λ numbers. ForSome (D.holds disk.old) (λ image. numbers.items ≡ file_lsns (volume_of g.now) image files.now)) }
    ensures refused { IfErr result IsReadRefused }
    ensures cause { HasRebuildCause (D.faults disk.old) (D.faults disk.new) result }
    ensures disk { OnlyReads D.size D.holds D.write_faults D.writes D.tells_stops D.moment D.may_leave D.left_since disk.old disk.new }
{
    let lsns = match read_lsns(alloc, g, disk, &[], &[], &[], files, steps) {
        Ok(lsns) => lsns,
        Err(JournalFault::ReadFault) => return Err(RebuildFault::ReadFault),
        Err(JournalFault::NoMemory) => return Err(RebuildFault::NoMemory),
    };
    match numbers_in(alloc, lsns.as_slice()) {
        Ok(numbers) => Ok(numbers),
        Err(NoMemory) => Err(RebuildFault::NoMemory),
    }
}

/// The numbers, but that of the superblock.
fn numbers_in(alloc: Global, lsns: &[BlockLsn]) -> Result<Vec<u64>, NoMemory>
    ensures { IfOk result (λ numbers. numbers.items ≡ numbers_in lsns.now) }
{
    let mut numbers = Vec::new(alloc);
    for lsn in lsns {
        if lsn.block != 0 {
            numbers.push(lsn.lsn)?;
        }
    }
    Ok(numbers)
}

/// The blocks of a disk at some places. Each is read once.
fn read_blocks<D: Disk>(
    alloc: Global,
    disk: &mut D,
    places: &[u64],
) -> Result<BlockList, RebuildFault>
    requires inside { All (λ place. place < D.size disk.old) places.now }
    ensures old { IfOk result (λ bank. ForSome (D.holds disk.old) (λ image. bank ≡ blocks_at image places.now)) }
    ensures many { IfOk result (λ bank. length bank ≡ length places.now) }
    ensures refused { IfErr result IsReadRefused }
    ensures cause { HasRebuildCause (D.faults disk.old) (D.faults disk.new) result }
    ensures disk { OnlyReads D.size D.holds D.write_faults D.writes D.tells_stops D.moment D.may_leave D.left_since disk.old disk.new }
{
    let mut bank = BlockList::make(alloc);
    let mut block = [0; BLOCK_SIZE];
    for place in places {
        match disk.read(*place, &mut block) {
            Ok(()) => {}
            Err(Failed) => return Err(RebuildFault::ReadFault),
        }
        match bank.push(&block) {
            Ok(()) => {}
            Err(NoMemory) => return Err(RebuildFault::NoMemory),
        }
    }
    Ok(bank)
}
