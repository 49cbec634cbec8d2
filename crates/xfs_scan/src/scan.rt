//! The candidate clusters, read from a disk in rounds, whose slots are judged by several workers.

ghost use Rattle.std.specs.Prelude.{◌≡◌, ◌+◌, ◌<◌, ◌≤◌, ◌++◌, [], ℕ, true, length, map, take, IfOk, OnOk};
ghost use Rattle.std.specs.List.{All, flat_map, list_all};
ghost use Rattle.std.specs.Option.{ForSome};
ghost use Rattle.xfs_geom.specs.Volumes.{volume_of};
ghost use Rattle.xfs_disk.specs.Reads.{OnlyReads};
ghost use Rattle.xfs_word.specs.Seal.{begins_as_slot};
ghost use Rattle.xfs_collections.specs.Bank.{blocks_at};
ghost use Rattle.xfs_volume.specs.declared.clusters.ClusterRec.{ClusterRec};
ghost use Rattle.xfs_image.specs.Slots.{cluster_blocks, cluster_inodes};
ghost use Rattle.xfs_groups.specs.Answers.{EndBelow};
ghost use Rattle.xfs_scan.specs.Begun.{all_begin};
ghost use Rattle.xfs_slots.specs.Causes.{HasReadCause};
ghost use Rattle.xfs_slots.specs.Facts.{slot_fact};
ghost use Rattle.xfs_slots.specs.Gathered.{gathered, held_in, inodes_of_blocks, gathered_both};

use std::alloc::Global;
use std::sync::ledger::Ledger;
use std::thread::Threads;
use xfs_collections::{BlockBank, Steps};
use xfs_disk::{Disk, Gate, NoMemory};
use xfs_geom::Geometry;
use xfs_groups::is_slot_block;
use xfs_rounds::{RoundFault, SlotFact, judge_round, reload_round, settle_round};
use xfs_slots::{Inodes, PartFault, blocks_of_candidates, take_round};
use xfs_volume::ClusterRec;

/// The blocks of a round for each worker: so few that their bytes, and what is known of their slots, stay in a processor's cache.
const PIECE: usize = 64;

/// The most workers whose blocks a round has.
const WORKERS: u32 = 8;

/// The slots of a block.
const BLOCK_SLOTS: usize = 8;

/// What is kept of the slots of clusters, and what they give.
#[derive(Drop)]
pub struct ScannedSlots {
    pub slots: Vec<SlotFact>,
    pub inodes: Inodes,
    /// Whether each block of the clusters begins as a slot does, so that none is sealed as one object.
    pub begun: bool,
}

/// Reads the blocks of clusters, each once, and takes up their slots. They are read in rounds, in order; the slots of a round are
/// judged in pieces by the workers, each of which goes through the gate, and are then taken up in order.
pub fn scan<R: Threads + Sync, D: Disk, G: Gate, L: Ledger>(
    rt: &R,
    alloc: Global,
    g: &Geometry,
    disk: &mut D,
    clusters: &[ClusterRec],
    workers: u32,
    gate: &G,
    steps: &mut Steps<L>,
) -> Result<ScannedSlots, PartFault>
    requires inside { g.now.dblocks ≤ D.size disk.old }
    requires volume { EndBelow g.now.dblocks clusters.now }
    ensures slots { IfOk result (λ scanned. ForSome (D.holds disk.old) (λ image. scanned.slots.items ≡ map (slot_fact (volume_of g.now) image) (flat_map (λ (c : ClusterRec). cluster_inodes (volume_of g.now) c.block) clusters.now))) }
    ensures inodes { IfOk result (λ scanned. ForSome (D.holds disk.old) (λ image. held_in scanned.inodes ≡ gathered (volume_of g.now) image (flat_map (λ (c : ClusterRec). cluster_inodes (volume_of g.now) c.block) clusters.now))) }
    ensures begun { IfOk result (λ scanned. scanned.begun ≡ true → ForSome (D.holds disk.old) (λ image. all_begin image (flat_map (λ (c : ClusterRec). cluster_blocks c.block) clusters.now) ≡ true)) }
    ensures cause { HasReadCause (D.faults disk.old) (D.faults disk.new) result }
    ensures disk { OnlyReads D.size D.holds D.write_faults D.writes D.tells_stops D.moment D.may_leave D.left_since disk.old disk.new }
    ensures reads { D.reads disk.new + steps.old ≤ D.reads disk.old + steps.new }
{
    let blocks = match blocks_of_candidates(alloc, clusters, g.dblocks) {
        Ok(blocks) => blocks,
        Err(NoMemory) => return Err(PartFault::NoMemory),
    };
    let mut slots = match room_for_slots(alloc, blocks.len()) {
        Ok(slots) => slots,
        Err(NoMemory) => return Err(PartFault::NoMemory),
    };
    let mut inodes = Inodes::new(alloc);
    match scan_blocks(
        rt,
        alloc,
        g,
        disk,
        &blocks,
        workers,
        gate,
        &mut slots,
        &mut inodes,
        steps,
    ) {
        Ok(begun) => Ok(ScannedSlots {
            slots,
            inodes,
            begun,
        }),
        Err(fault) => Err(fault),
    }
}

/// An empty list with room for what is kept of the slots of so many blocks.
fn room_for_slots(alloc: Global, blocks: usize) -> Result<Vec<SlotFact>, NoMemory>
    ensures { IfOk result (λ slots. slots.items ≡ []) }
{
    let slots = Vec::with_capacity(alloc, BLOCK_SLOTS.saturating_mul(blocks))?;
    Ok(slots)
}

/// Reads blocks, each once, in rounds, and takes up their slots. Says whether each begins as a slot does.
fn scan_blocks<R: Threads + Sync, D: Disk, G: Gate, L: Ledger>(
    rt: &R,
    alloc: Global,
    g: &Geometry,
    disk: &mut D,
    blocks: &[u64],
    workers: u32,
    gate: &G,
    slots: &mut Vec<SlotFact>,
    inodes: &mut Inodes,
    steps: &mut Steps<L>,
) -> Result<bool, PartFault>
    requires inside { g.now.dblocks ≤ D.size disk.old }
    requires volume { All (λ block. block < g.now.dblocks) blocks.now }
    ensures slots { OnOk result (ForSome (D.holds disk.old) (λ image. slots.new.items ≡ slots.old.items ++ map (slot_fact (volume_of g.now) image) (inodes_of_blocks (volume_of g.now) blocks.now))) }
    ensures inodes { OnOk result (ForSome (D.holds disk.old) (λ image. held_in inodes.new ≡ gathered_both (held_in inodes.old) (gathered (volume_of g.now) image (inodes_of_blocks (volume_of g.now) blocks.now)))) }
    ensures begun { IfOk result (λ begun. begun ≡ true → ForSome (D.holds disk.old) (λ image. all_begin image blocks.now ≡ true)) }
    ensures cause { HasReadCause (D.faults disk.old) (D.faults disk.new) result }
    ensures disk { OnlyReads D.size D.holds D.write_faults D.writes D.tells_stops D.moment D.may_leave D.left_since disk.old disk.new }
    ensures reads { D.reads disk.new + steps.old ≤ D.reads disk.old + steps.new }
{
    let size = round_size(workers);
    let mut bank = match BlockBank::make(alloc, 0) {
        Ok(bank) => bank,
        Err(NoMemory) => return Err(PartFault::NoMemory),
    };
    let mut begun = true;
    let mut start = 0;
    while start < blocks.len() {
        let round = round_from(blocks, start, size);
        match scan_round(
            rt, alloc, g, disk, round, bank, workers, gate, slots, inodes, steps,
        ) {
            Ok(used) => {
                begun = stays_begun(begun, &used);
                bank = used;
                start += round.len();
            }
            Err(fault) => return Err(fault),
        }
    }
    Ok(begun)
}

/// Whether each block of a bank begins as a slot does, and those before it do.
fn stays_begun(begun: bool, bank: &BlockBank) -> bool
    ensures before { result ≡ true → begun ≡ true }
    ensures here { result ≡ true → list_all begins_as_slot bank.now ≡ true }
{
    begun && are_begun(bank)
}

/// Whether each block of a bank begins as a slot does.
fn are_begun(bank: &BlockBank) -> bool
    ensures { result ≡ list_all begins_as_slot bank.now }
{
    for i in 0..bank.len() {
        if !is_slot_block(bank.view(i)) {
            return false;
        }
    }
    true
}

/// How many blocks a round has at most.
fn round_size(workers: u32) -> usize
    ensures { 0 < result }
{
    PIECE * workers.max(1).min(WORKERS) as usize
}

/// The round of blocks that begins at one of them, of so many at most.
fn round_from(blocks: &[u64], start: usize, size: usize) -> &[u64]
    requires start { start < length blocks.now }
    requires size { 0 < size }
    ensures some { 0 < length result.now }
    ensures within { start + length result.now ≤ length blocks.now }
    ensures next { take (start + length result.now) blocks.now ≡ take start blocks.now ++ result.now }
    ensures low { (end : ℕ) → All (λ block. block < end) blocks.now → All (λ block. block < end) result.now }
{
    let rest = &blocks[start..];
    &rest[..rest.len().min(size)]
}

/// Reads the blocks of a round, into the bank of the one before where it has as many blocks, judges their slots, and takes them up.
/// Gives the bank back, with the blocks of the round.
fn scan_round<R: Threads + Sync, D: Disk, G: Gate, L: Ledger>(
    rt: &R,
    alloc: Global,
    g: &Geometry,
    disk: &mut D,
    round: &[u64],
    bank: BlockBank,
    workers: u32,
    gate: &G,
    slots: &mut Vec<SlotFact>,
    inodes: &mut Inodes,
    steps: &mut Steps<L>,
) -> Result<BlockBank, PartFault>
    requires inside { g.now.dblocks ≤ D.size disk.old }
    requires volume { All (λ block. block < g.now.dblocks) round.now }
    ensures slots { OnOk result (ForSome (D.holds disk.old) (λ image. slots.new.items ≡ slots.old.items ++ map (slot_fact (volume_of g.now) image) (inodes_of_blocks (volume_of g.now) round.now))) }
    ensures inodes { OnOk result (ForSome (D.holds disk.old) (λ image. held_in inodes.new ≡ gathered_both (held_in inodes.old) (gathered (volume_of g.now) image (inodes_of_blocks (volume_of g.now) round.now)))) }
    ensures bank { IfOk result (λ bank. ForSome (D.holds disk.old) (λ image. bank ≡ blocks_at image round.now)) }
    ensures cause { HasReadCause (D.faults disk.old) (D.faults disk.new) result }
    ensures disk { OnlyReads D.size D.holds D.write_faults D.writes D.tells_stops D.moment D.may_leave D.left_since disk.old disk.new }
    ensures reads { D.reads disk.new + steps.old ≤ D.reads disk.old + steps.new }
{
    let bank = match reload_round(alloc, disk, round, bank, steps) {
        Ok(bank) => bank,
        Err(RoundFault::ReadFault) => return Err(PartFault::ReadFault),
        Err(RoundFault::NoMemory) => return Err(PartFault::NoMemory),
    };
    let mut judged = match judge_round(rt, alloc, g, &bank, round, workers, gate) {
        Ok(judged) => judged,
        Err(NoMemory) => return Err(PartFault::NoMemory),
    };
    match settle_round(rt, alloc, g, disk, &bank, &mut judged, workers, gate, steps) {
        Ok(()) => {}
        Err(RoundFault::ReadFault) => return Err(PartFault::ReadFault),
        Err(RoundFault::NoMemory) => return Err(PartFault::NoMemory),
    }
    match take_round(alloc, g, disk, round, &bank, judged, slots, inodes, steps) {
        Ok(()) => Ok(bank),
        Err(fault) => Err(fault),
    }
}
