//! The log sequence numbers of a volume, read from a disk.

ghost use Rattle.std.specs.Prelude.{◌≡◌, ◌+◌, ◌^◌, ◌<◌, ◌≤◌, ◌++◌, [], ◌∷◌, Some, length, map, IfOk, IfSome, OnOk};
ghost use Rattle.std.specs.List.{All};
ghost use Rattle.std.specs.Option.{ForSome};
ghost use Rattle.xfs_word.specs.Field.{field_of};
ghost use Rattle.xfs_disk.specs.Faults.{HasCause};
ghost use Rattle.xfs_geom.specs.Volumes.{volume_of};
ghost use Rattle.xfs_disk.specs.Reads.{OnlyReads};
ghost use Rattle.xfs_disk.specs.Blocks.{bytes_of_block};
ghost use Rattle.xfs_image.specs.Files.{clusters_of};
ghost use Rattle.xfs_image.specs.Lsns.{lsn_places_in_order, lsn_at, lsn_places, lsns_read};
ghost use Rattle.xfs_journal.specs.Answers.{HasJournalCause};
ghost use Rattle.xfs_journal.specs.Placed.{AreFirstNumbers, HoldsBlock, IsInBlock, listed, lsn_place_of, number_at};

use crate::faults::JournalFault;
use crate::known::{cluster_from, known_at};
use crate::places::{LsnPosition, all_places};
use crate::sorting::sort_places;
use std::alloc::Global;
use std::sync::ledger::Ledger;
use xfs_collections::Steps;
use xfs_disk::{BLOCK_SIZE, Disk, Failed, NoMemory};
use xfs_geom::Geometry;
use xfs_volume::{BlockLsn, FileRec, GroupRec, Records};
use xfs_word::get64;

/// The log sequence numbers that stand in the blocks of these groups, of their clusters of inodes, and of these files, by
/// block and then by byte (chapter "Journaling Log"). The numbers of the first slots of the clusters, in order, are handed in as
/// far as they are known, and a block whose numbers are all known is not read. `ReadFault` only where a read failed. Each block
/// that is read counts as a step, also where the read fails.
#[tactic(auto, unfolding(xfs_image::specs::Lsns::lsns_read))]
pub fn read_lsns<D: Disk, L: Ledger>(
    alloc: Global,
    g: &Geometry,
    disk: &mut D,
    groups: &[GroupRec],
    clusters: &[u64],
    known: &[u64],
    files: &[FileRec],
    steps: &mut Steps<L>,
) -> Result<Records<BlockLsn>, JournalFault>
    requires few { length groups.now ≤ 512 }
    requires clusters { clusters.now ≡ clusters_of (volume_of g.now) groups.now }
    requires low { All (λ cluster. cluster < 2 ^ 60) clusters.now }
    requires known { ForSome (D.holds disk.old) (λ image. AreFirstNumbers image clusters.now known.now) }
    ensures lsns { IfOk result (λ lsns. ForSome (D.holds disk.old) (λ image. lsns ≡ lsns_read (volume_of g.now) image groups.now files.now)) }
    ensures cause { HasJournalCause (D.faults disk.old) (D.faults disk.new) result }
    ensures disk { OnlyReads D.size D.holds D.write_faults D.writes D.tells_stops D.moment D.may_leave D.left_since disk.old disk.new }
    ensures reads { D.reads disk.new + steps.old ≤ D.reads disk.old + steps.new }
{
    let places = match ordered_places(alloc, g, groups, clusters, files) {
        Ok(places) => places,
        Err(NoMemory) => return Err(JournalFault::NoMemory),
    };
    match read_places(alloc, disk, &places, clusters, known, steps) {
        Ok(lsns) => Ok(Records::from_vec(lsns)),
        Err(fault) => Err(fault),
    }
}

/// All places in order.
fn ordered_places(
    alloc: Global,
    g: &Geometry,
    groups: &[GroupRec],
    clusters: &[u64],
    files: &[FileRec],
) -> Result<Vec<LsnPosition>, NoMemory>
    requires few { length groups.now ≤ 512 }
    requires clusters { clusters.now ≡ clusters_of (volume_of g.now) groups.now }
    requires low { All (λ cluster. cluster < 2 ^ 60) clusters.now }
    ensures listed { IfOk result (λ places. listed places.items ≡ lsn_places_in_order (lsn_places (volume_of g.now) groups.now files.now)) }
    ensures inside { IfOk result (λ places. All IsInBlock places.items) }
{
    let places = all_places(alloc, g, groups, clusters, files)?;
    sort_places(places)
}

/// The numbers that stand at these places, of which those of the first slots of some clusters may be known. Places that follow
/// one another in one block share a read.
fn read_places<D: Disk, L: Ledger>(
    alloc: Global,
    disk: &mut D,
    places: &[LsnPosition],
    clusters: &[u64],
    known: &[u64],
    steps: &mut Steps<L>,
) -> Result<Vec<BlockLsn>, JournalFault>
    requires inside { All IsInBlock places.now }
    requires known { ForSome (D.holds disk.old) (λ image. AreFirstNumbers image clusters.now known.now) }
    ensures lsns { IfOk result (λ lsns. ForSome (D.holds disk.old) (λ image. lsns.items ≡ map (lsn_at image) (listed places.now))) }
    ensures cause { HasJournalCause (D.faults disk.old) (D.faults disk.new) result }
    ensures disk { OnlyReads D.size D.holds D.write_faults D.writes D.tells_stops D.moment D.may_leave D.left_since disk.old disk.new }
    ensures reads { D.reads disk.new + steps.old ≤ D.reads disk.old + steps.new }
{
    let size = match disk.blocks() {
        Ok(size) => size,
        Err(Failed) => return Err(JournalFault::ReadFault),
    };
    let mut lsns = match Vec::with_capacity(alloc, places.len()) {
        Ok(lsns) => lsns,
        Err(_) => return Err(JournalFault::NoMemory),
    };
    let mut held = LastBlock {
        block: None,
        bytes: [0; BLOCK_SIZE],
    };
    let mut cluster = 0;
    for place in places {
        cluster = cluster_from(clusters, cluster, place.block);
        let before = known_at(clusters, known, cluster, place);
        let lsn = match read_lsn(disk, size, place, before, &mut held, steps) {
            Ok(lsn) => lsn,
            Err(Failed) => return Err(JournalFault::ReadFault),
        };
        match push_lsn(place.block, lsn, &mut lsns) {
            Ok(()) => {}
            Err(NoMemory) => return Err(JournalFault::NoMemory),
        }
    }
    Ok(lsns)
}

/// Adds a number that stands in a block.
fn push_lsn(block: u64, lsn: u64, lsns: &mut Vec<BlockLsn>) -> Result<(), NoMemory>
    ensures { OnOk result (lsns.new.items ≡ lsns.old.items ++ record { block = block; lsn = lsn } ∷ []) }
{
    lsns.push(BlockLsn { block, lsn })?;
    Ok(())
}

/// The block that was read last.
#[derive(Drop)]
struct LastBlock {
    /// Its number.
    block: Option<u64>,
    bytes: [u8; BLOCK_SIZE],
}

/// The number that stands at a place, which may be known; 0 where the disk, of `size` blocks, does not have the block.
fn read_lsn<D: Disk, L: Ledger>(
    disk: &mut D,
    size: u64,
    place: &LsnPosition,
    known: Option<u64>,
    held: &mut LastBlock,
    steps: &mut Steps<L>,
) -> Result<u64, Failed>
    requires size { size ≡ D.size disk.old }
    requires inside { IsInBlock place.now }
    requires known { ForSome (D.holds disk.old) (λ image. IfSome known (λ lsn. lsn ≡ number_at image (lsn_place_of place.now))) }
    requires held { ForSome (D.holds disk.old) (λ image. HoldsBlock image held.old.block held.old.bytes) }
    ensures lsn { IfOk result (λ lsn. ForSome (D.holds disk.old) (λ image. lsn ≡ field_of (bytes_of_block image place.now.block) place.now.byte 8)) }
    ensures held { OnOk result (ForSome (D.holds disk.old) (λ image. HoldsBlock image held.new.block held.new.bytes)) }
    ensures cause { HasCause (D.faults disk.old) (D.faults disk.new) result }
    ensures disk { OnlyReads D.size D.holds D.write_faults D.writes D.tells_stops D.moment D.may_leave D.left_since disk.old disk.new }
    ensures ticks { steps.new ≤ steps.old + 1 }
    ensures reads { D.reads disk.new + steps.old ≤ D.reads disk.old + steps.new }
{
    match known {
        Some(lsn) => return Ok(lsn),
        None => {}
    }
    if place.block >= size {
        return Ok(0);
    }
    match hold(disk, place.block, held, steps) {
        Ok(()) => Ok(get64(&held.bytes, place.byte as usize)),
        Err(Failed) => Err(Failed),
    }
}

/// Reads a block, where it is not the one that is held, and counts it as a step.
fn hold<D: Disk, L: Ledger>(
    disk: &mut D,
    block: u64,
    held: &mut LastBlock,
    steps: &mut Steps<L>,
) -> Result<(), Failed>
    requires inside { block < D.size disk.old }
    requires held { ForSome (D.holds disk.old) (λ image. HoldsBlock image held.old.block held.old.bytes) }
    ensures bytes { OnOk result (ForSome (D.holds disk.old) (λ image. bytes_of_block image block ≡ held.new.bytes)) }
    ensures held { OnOk result (ForSome (D.holds disk.old) (λ image. HoldsBlock image held.new.block held.new.bytes)) }
    ensures cause { HasCause (D.faults disk.old) (D.faults disk.new) result }
    ensures disk { OnlyReads D.size D.holds D.write_faults D.writes D.tells_stops D.moment D.may_leave D.left_since disk.old disk.new }
    ensures ticks { steps.new ≤ steps.old + 1 }
    ensures once { held.old.block ≡ Some block → steps.new ≡ steps.old }
    ensures stays { OnOk result (held.new.block ≡ Some block) }
    ensures reads { D.reads disk.new + steps.old ≤ D.reads disk.old + steps.new }
{
    if held.block == Some(block) {
        return Ok(());
    }
    steps.tick();
    match disk.read(block, &mut held.bytes) {
        Ok(()) => {
            held.block = Some(block);
            Ok(())
        }
        Err(Failed) => Err(Failed),
    }
}
