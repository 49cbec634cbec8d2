//! What a whole image says, or the first part that does not read.

ghost use Rattle.std.specs.Prelude.{◌≡◌, ◌↔◌, ◌+◌, ◌^◌, ◌<◌, ◌≤◌, length, map, IsTrue, Ok, IfOk, OnOk};
ghost use Rattle.std.specs.List.{All, flat_map};
ghost use Rattle.std.specs.Option.{ForSome};
ghost use Rattle.xfs_disk.specs.Faults.{HasCause};
ghost use Rattle.xfs_geom.specs.Conversions.{inode_of};
ghost use Rattle.xfs_geom.specs.Volumes.{volume_of};
ghost use Rattle.xfs_disk.specs.Reads.{OnlyReads};
ghost use Rattle.xfs_volume.specs.declared.clusters.ClusterRec.{ClusterRec};
ghost use Rattle.xfs_image.specs.Candidates.{candidates};
ghost use Rattle.xfs_image.specs.Claims.{candidate_inodes};
ghost use Rattle.xfs_image.specs.Directories.{dirs_read, entries_read};
ghost use Rattle.xfs_image.specs.Files.{clusters_of};
ghost use Rattle.xfs_image.specs.Groups.{groups_read};
ghost use Rattle.xfs_image.specs.Slots.{cluster_inodes, inodes_of_block};
ghost use Rattle.xfs_image.specs.View.{catalog_of, counts_of, log_of, view};
ghost use Rattle.xfs_groups.specs.Answers.{EndBelow};
ghost use Rattle.xfs_slots.specs.Causes.{HasReadCause};
ghost use Rattle.xfs_slots.specs.Facts.{slot_fact, slot_facts};
ghost use Rattle.xfs_rounds.specs.declared.facts.SlotFact.{SlotFact};
ghost use Rattle.xfs_journal.specs.Placed.{AreFirstNumbers};
ghost use Rattle.xfs_scan.specs.Evidence.{SeesInodes, view_seen};
ghost use Rattle.xfs_slots.specs.Gathered.{gathered, held_in, inodes_of_blocks, gathered_both};

use crate::evidence::{Lists, Seen};
use std::alloc::Global;
use std::sync::ledger::Ledger;
use xfs_collections::Steps;
use xfs_disk::{BLOCK_SIZE, Disk, Failed, NoMemory};
use xfs_geom::superblock::{FDBLOCKS, ICOUNT, IFREE};
use xfs_geom::{Counts, Geometry};
use xfs_image::Finding;
use xfs_journal::{JournalFault, read_lsns};
use xfs_log::LogState;
use xfs_rounds::SlotFact;
use xfs_slots::{Inodes, PartFault, blocks_of, clusters_of, see_block};
use xfs_volume::{Catalog, ClusterRec, GroupRec, Records};
use xfs_word::get64;

/// The most groups that a volume has.
const MOST_GROUPS: usize = 512;

/// The part of an image that a slot is.
const SLOT_PART: u8 = 9;

/// The files that the candidate clusters of an image have, which are handed in beside what is kept of each of their slots, and what
/// the image says, whose groups and whose log are these.
pub fn see_view<D: Disk, L: Ledger>(
    alloc: Global,
    g: &Geometry,
    disk: &mut D,
    groups: Result<Records<GroupRec>, Finding>,
    scanned: &[ClusterRec],
    facts: &[SlotFact],
    inodes: Inodes,
    log: LogState,
    steps: &mut Steps<L>,
) -> Result<Seen, PartFault>
    requires inside { g.now.dblocks ≤ D.size disk.old }
    requires groups { ForSome (D.holds disk.old) (λ image. groups ≡ groups_read (volume_of g.now) image) }
    requires scanned { ForSome (D.holds disk.old) (λ image. scanned.now ≡ candidates (volume_of g.now) image) }
    requires ends { EndBelow g.now.dblocks scanned.now }
    requires facts { ForSome (D.holds disk.old) (λ image. facts.now ≡ slot_facts (volume_of g.now) image) }
    requires inodes { ForSome (D.holds disk.old) (λ image. held_in inodes ≡ gathered (volume_of g.now) image (candidate_inodes (volume_of g.now) image)) }
    requires log { ForSome (D.holds disk.old) (λ image. log ≡ log_of (volume_of g.now) image) }
    ensures view { IfOk result (λ seen. ForSome (D.holds disk.old) (λ image. view_seen seen ≡ view g.now image)) }
    ensures files { IfOk result (SeesInodes inodes) }
    ensures cause { HasReadCause (D.faults disk.old) (D.faults disk.new) result }
    ensures disk { OnlyReads D.size D.holds D.write_faults D.writes D.tells_stops D.moment D.may_leave D.left_since disk.old disk.new }
    ensures reads { D.reads disk.new + steps.old ≤ D.reads disk.old + steps.new }
{
    match groups {
        Err(found) => Ok(apart(inodes, Err(found))),
        Ok(groups) => see_with_groups(alloc, g, disk, groups, scanned, facts, inodes, log, steps),
    }
}

/// The same, of groups that read.
fn see_with_groups<D: Disk, L: Ledger>(
    alloc: Global,
    g: &Geometry,
    disk: &mut D,
    groups: Records<GroupRec>,
    scanned: &[ClusterRec],
    facts: &[SlotFact],
    inodes: Inodes,
    log: LogState,
    steps: &mut Steps<L>,
) -> Result<Seen, PartFault>
    requires inside { g.now.dblocks ≤ D.size disk.old }
    requires groups { ForSome (D.holds disk.old) (λ image. groups_read (volume_of g.now) image ≡ Ok groups) }
    requires scanned { ForSome (D.holds disk.old) (λ image. scanned.now ≡ candidates (volume_of g.now) image) }
    requires ends { EndBelow g.now.dblocks scanned.now }
    requires facts { ForSome (D.holds disk.old) (λ image. facts.now ≡ slot_facts (volume_of g.now) image) }
    requires inodes { ForSome (D.holds disk.old) (λ image. held_in inodes ≡ gathered (volume_of g.now) image (candidate_inodes (volume_of g.now) image)) }
    requires log { ForSome (D.holds disk.old) (λ image. log ≡ log_of (volume_of g.now) image) }
    ensures view { IfOk result (λ seen. ForSome (D.holds disk.old) (λ image. view_seen seen ≡ view g.now image)) }
    ensures files { IfOk result (SeesInodes inodes) }
    ensures cause { HasReadCause (D.faults disk.old) (D.faults disk.new) result }
    ensures disk { OnlyReads D.size D.holds D.write_faults D.writes D.tells_stops D.moment D.may_leave D.left_since disk.old disk.new }
    ensures reads { D.reads disk.new + steps.old ≤ D.reads disk.old + steps.new }
{
    match few_clusters(alloc, g, groups.as_slice()) {
        Ok(clusters) => see_with_clusters(
            alloc, g, disk, groups, &clusters, scanned, facts, inodes, log, steps,
        ),
        Err(NoMemory) => {
            drop(groups);
            drop(inodes);
            Err(PartFault::NoMemory)
        }
    }
}

/// The clusters of groups. That these are not too many is tested here, as a disk that does not tell what it holds, a file, says
/// nothing of what was read from it; of each image they are as many as the volume has (`view_is_of_what_reads`).
fn few_clusters(alloc: Global, g: &Geometry, groups: &[GroupRec]) -> Result<Vec<u64>, NoMemory>
    ensures few { IfOk result (λ clusters. length groups.now ≤ 512) }
    ensures clusters { IfOk result (λ clusters. clusters.items ≡ clusters_of (volume_of g.now) groups.now) }
    ensures low { IfOk result (λ clusters. All (λ cluster. cluster < 2 ^ 42) clusters.items) }
{
    if groups.len() > MOST_GROUPS {
        return Err(NoMemory);
    }
    match clusters_of(alloc, g, groups) {
        Ok(clusters) => Ok(clusters),
        Err(NoMemory) => Err(NoMemory),
    }
}

/// The same, of groups that have these clusters. Where they are just the candidates, no block of a cluster is read again.
fn see_with_clusters<D: Disk, L: Ledger>(
    alloc: Global,
    g: &Geometry,
    disk: &mut D,
    groups: Records<GroupRec>,
    clusters: &[u64],
    scanned: &[ClusterRec],
    facts: &[SlotFact],
    inodes: Inodes,
    log: LogState,
    steps: &mut Steps<L>,
) -> Result<Seen, PartFault>
    requires inside { g.now.dblocks ≤ D.size disk.old }
    requires few { length groups ≤ 512 }
    requires groups { ForSome (D.holds disk.old) (λ image. groups_read (volume_of g.now) image ≡ Ok groups) }
    requires clusters { clusters.now ≡ clusters_of (volume_of g.now) groups }
    requires low { All (λ cluster. cluster < 2 ^ 42) clusters.now }
    requires scanned { ForSome (D.holds disk.old) (λ image. scanned.now ≡ candidates (volume_of g.now) image) }
    requires ends { EndBelow g.now.dblocks scanned.now }
    requires facts { ForSome (D.holds disk.old) (λ image. facts.now ≡ slot_facts (volume_of g.now) image) }
    requires inodes { ForSome (D.holds disk.old) (λ image. held_in inodes ≡ gathered (volume_of g.now) image (candidate_inodes (volume_of g.now) image)) }
    requires log { ForSome (D.holds disk.old) (λ image. log ≡ log_of (volume_of g.now) image) }
    ensures view { IfOk result (λ seen. ForSome (D.holds disk.old) (λ image. view_seen seen ≡ view g.now image)) }
    ensures files { IfOk result (SeesInodes inodes) }
    ensures cause { HasReadCause (D.faults disk.old) (D.faults disk.new) result }
    ensures disk { OnlyReads D.size D.holds D.write_faults D.writes D.tells_stops D.moment D.may_leave D.left_since disk.old disk.new }
    ensures reads { D.reads disk.new + steps.old ≤ D.reads disk.old + steps.new }
{
    if are_candidates(clusters, scanned) {
        return see_same(alloc, g, disk, groups, clusters, facts, inodes, log, steps);
    }
    match see_recorded(alloc, g, disk, groups, clusters, log, steps) {
        Ok(view) => Ok(apart(inodes, view)),
        Err(fault) => {
            drop(inodes);
            Err(fault)
        }
    }
}

/// The same, where these inodes are those of the clusters of the groups, and the log sequence numbers of their slots are known.
fn see_same<D: Disk, L: Ledger>(
    alloc: Global,
    g: &Geometry,
    disk: &mut D,
    groups: Records<GroupRec>,
    clusters: &[u64],
    facts: &[SlotFact],
    inodes: Inodes,
    log: LogState,
    steps: &mut Steps<L>,
) -> Result<Seen, PartFault>
    requires inside { g.now.dblocks ≤ D.size disk.old }
    requires few { length groups ≤ 512 }
    requires groups { ForSome (D.holds disk.old) (λ image. groups_read (volume_of g.now) image ≡ Ok groups) }
    requires clusters { clusters.now ≡ clusters_of (volume_of g.now) groups }
    requires low { All (λ cluster. cluster < 2 ^ 42) clusters.now }
    requires ends { All (λ cluster. cluster + 4 ≤ g.now.dblocks) clusters.now }
    requires facts { ForSome (D.holds disk.old) (λ image. facts.now ≡ map (slot_fact (volume_of g.now) image) (flat_map (cluster_inodes (volume_of g.now)) clusters.now)) }
    requires inodes { ForSome (D.holds disk.old) (λ image. held_in inodes ≡ gathered (volume_of g.now) image (flat_map (cluster_inodes (volume_of g.now)) clusters.now)) }
    requires log { ForSome (D.holds disk.old) (λ image. log ≡ log_of (volume_of g.now) image) }
    ensures view { IfOk result (λ seen. ForSome (D.holds disk.old) (λ image. view_seen seen ≡ view g.now image)) }
    ensures files { IfOk result (SeesInodes inodes) }
    ensures cause { HasReadCause (D.faults disk.old) (D.faults disk.new) result }
    ensures disk { OnlyReads D.size D.holds D.write_faults D.writes D.tells_stops D.moment D.may_leave D.left_since disk.old disk.new }
    ensures reads { D.reads disk.new + steps.old ≤ D.reads disk.old + steps.new }
{
    match inodes.unread {
        Some(place) => {
            drop(groups);
            return Ok(apart(inodes, Err(missing(place))));
        }
        None => {}
    }
    let known = match numbers_of(alloc, facts) {
        Ok(known) => known,
        Err(NoMemory) => {
            drop(groups);
            drop(inodes);
            return Err(PartFault::NoMemory);
        }
    };
    match build_view(alloc, g, disk, groups, clusters, &known, inodes, log, steps) {
        Ok(catalog) => Ok(Seen::Whole(catalog)),
        Err(fault) => Err(fault),
    }
}

/// What an image says whose groups have these clusters, which are not the candidates: their blocks are read again.
fn see_recorded<D: Disk, L: Ledger>(
    alloc: Global,
    g: &Geometry,
    disk: &mut D,
    groups: Records<GroupRec>,
    clusters: &[u64],
    log: LogState,
    steps: &mut Steps<L>,
) -> Result<Result<Catalog, Finding>, PartFault>
    requires inside { g.now.dblocks ≤ D.size disk.old }
    requires few { length groups ≤ 512 }
    requires groups { ForSome (D.holds disk.old) (λ image. groups_read (volume_of g.now) image ≡ Ok groups) }
    requires clusters { clusters.now ≡ clusters_of (volume_of g.now) groups }
    requires low { All (λ cluster. cluster < 2 ^ 42) clusters.now }
    requires log { ForSome (D.holds disk.old) (λ image. log ≡ log_of (volume_of g.now) image) }
    ensures view { IfOk result (λ seen. ForSome (D.holds disk.old) (λ image. seen ≡ view g.now image)) }
    ensures cause { HasReadCause (D.faults disk.old) (D.faults disk.new) result }
    ensures disk { OnlyReads D.size D.holds D.write_faults D.writes D.tells_stops D.moment D.may_leave D.left_since disk.old disk.new }
    ensures reads { D.reads disk.new + steps.old ≤ D.reads disk.old + steps.new }
{
    let inodes = match see_clusters(alloc, g, disk, clusters, steps) {
        Ok(inodes) => inodes,
        Err(fault) => {
            drop(groups);
            return Err(fault);
        }
    };
    match inodes.unread {
        Some(place) => {
            drop(groups);
            drop(inodes);
            return Ok(Err(missing(place)));
        }
        None => {}
    }
    match build_view(alloc, g, disk, groups, clusters, &[], inodes, log, steps) {
        Ok(catalog) => Ok(Ok(catalog)),
        Err(fault) => Err(fault),
    }
}

/// What is found at an inode that is neither free nor a file with its attributes.
fn missing(place: u64) -> Finding
    ensures { result ≡ Finding.Part 9 place }
{
    Finding::Part {
        part: SLOT_PART,
        place,
    }
}

/// The files of candidate clusters, beside what the image says.
fn apart(inodes: Inodes, view: Result<Catalog, Finding>) -> Seen
    ensures view { view_seen result ≡ view }
    ensures files { SeesInodes inodes result }
{
    let lists = Lists {
        files: Records::from_vec(inodes.files),
        entries: Records::from_vec(inodes.entries),
        dirs: Records::from_vec(inodes.dirs),
    };
    Seen::Apart(lists, view)
}

/// The log sequence numbers of slots.
fn numbers_of(alloc: Global, facts: &[SlotFact]) -> Result<Vec<u64>, NoMemory>
    ensures { IfOk result (λ numbers. numbers.items ≡ map (λ (fact : SlotFact). fact.lsn) facts.now) }
{
    let mut numbers = Vec::with_capacity(alloc, facts.len())?;
    for fact in facts {
        numbers.push(fact.lsn)?;
    }
    Ok(numbers)
}

/// The catalog of groups and inodes that all read. The numbers of the first slots of the clusters may be known.
fn build_view<D: Disk, L: Ledger>(
    alloc: Global,
    g: &Geometry,
    disk: &mut D,
    groups: Records<GroupRec>,
    clusters: &[u64],
    known: &[u64],
    inodes: Inodes,
    log: LogState,
    steps: &mut Steps<L>,
) -> Result<Catalog, PartFault>
    requires inside { g.now.dblocks ≤ D.size disk.old }
    requires few { length groups ≤ 512 }
    requires clusters { clusters.now ≡ clusters_of (volume_of g.now) groups }
    requires low { All (λ cluster. cluster < 2 ^ 42) clusters.now }
    requires known { ForSome (D.holds disk.old) (λ image. AreFirstNumbers image clusters.now known.now) }
    requires entries { ForSome (D.holds disk.old) (λ image. inodes.entries.items ≡ entries_read (volume_of g.now) image inodes.files.items) }
    requires dirs { ForSome (D.holds disk.old) (λ image. inodes.dirs.items ≡ dirs_read (volume_of g.now) image inodes.files.items) }
    requires log { ForSome (D.holds disk.old) (λ image. log ≡ log_of (volume_of g.now) image) }
    ensures catalog { IfOk result (λ catalog. ForSome (D.holds disk.old) (λ image. catalog ≡ catalog_of g.now image groups inodes.files.items)) }
    ensures files { IfOk result (λ catalog. SeesInodes inodes (Seen.Whole catalog)) }
    ensures cause { HasReadCause (D.faults disk.old) (D.faults disk.new) result }
    ensures disk { OnlyReads D.size D.holds D.write_faults D.writes D.tells_stops D.moment D.may_leave D.left_since disk.old disk.new }
    ensures reads { D.reads disk.new + steps.old ≤ D.reads disk.old + steps.new }
{
    let lsns = match read_lsns(
        alloc,
        g,
        disk,
        groups.as_slice(),
        clusters,
        known,
        &inodes.files,
        steps,
    ) {
        Ok(lsns) => lsns,
        Err(JournalFault::ReadFault) => {
            drop(groups);
            drop(inodes);
            return Err(PartFault::ReadFault);
        }
        Err(JournalFault::NoMemory) => {
            drop(groups);
            drop(inodes);
            return Err(PartFault::NoMemory);
        }
    };
    let counts = match read_counts(g, disk, steps) {
        Ok(counts) => counts,
        Err(Failed) => {
            drop(groups);
            drop(inodes);
            drop(lsns);
            return Err(PartFault::ReadFault);
        }
    };
    Ok(Catalog {
        geometry: *g,
        groups,
        files: Records::from_vec(inodes.files),
        entries: Records::from_vec(inodes.entries),
        dirs: Records::from_vec(inodes.dirs),
        counts,
        log,
        lsns,
    })
}

/// The counters of the primary superblock.
fn read_counts<D: Disk, L: Ledger>(
    g: &Geometry,
    disk: &mut D,
    steps: &mut Steps<L>,
) -> Result<Counts, Failed>
    requires inside { g.now.dblocks ≤ D.size disk.old }
    ensures counts { IfOk result (λ counts. ForSome (D.holds disk.old) (λ image. counts ≡ counts_of image)) }
    ensures cause { HasCause (D.faults disk.old) (D.faults disk.new) result }
    ensures disk { OnlyReads D.size D.holds D.write_faults D.writes D.tells_stops D.moment D.may_leave D.left_since disk.old disk.new }
    ensures reads { D.reads disk.new + steps.old ≤ D.reads disk.old + steps.new }
    ensures ticks { steps.new ≡ steps.old + 1 }
{
    let mut block = [0; BLOCK_SIZE];
    steps.tick();
    match disk.read(0, &mut block) {
        Ok(()) => Ok(Counts {
            icount: get64(&block, ICOUNT.offset),
            ifree: get64(&block, IFREE.offset),
            fdblocks: get64(&block, FDBLOCKS.offset),
        }),
        Err(Failed) => Err(Failed),
    }
}

/// Whether clusters are just the candidates.
fn are_candidates(clusters: &[u64], candidates: &[ClusterRec]) -> bool
    ensures { IsTrue result ↔ (clusters.now ≡ map (λ (c : ClusterRec). c.block) candidates.now) }
{
    if clusters.len() != candidates.len() {
        return false;
    }
    for i in 0..clusters.len() {
        if clusters[i] != candidates[i].block {
            return false;
        }
    }
    true
}

/// What the slots of these clusters give.
fn see_clusters<D: Disk, L: Ledger>(
    alloc: Global,
    g: &Geometry,
    disk: &mut D,
    clusters: &[u64],
    steps: &mut Steps<L>,
) -> Result<Inodes, PartFault>
    requires inside { g.now.dblocks ≤ D.size disk.old }
    requires low { All (λ cluster. cluster < 2 ^ 42) clusters.now }
    ensures inodes { IfOk result (λ inodes. ForSome (D.holds disk.old) (λ image. held_in inodes ≡ gathered (volume_of g.now) image (flat_map (cluster_inodes (volume_of g.now)) clusters.now))) }
    ensures cause { HasReadCause (D.faults disk.old) (D.faults disk.new) result }
    ensures disk { OnlyReads D.size D.holds D.write_faults D.writes D.tells_stops D.moment D.may_leave D.left_since disk.old disk.new }
    ensures reads { D.reads disk.new + steps.old ≤ D.reads disk.old + steps.new }
{
    let blocks = match blocks_of(alloc, clusters) {
        Ok(blocks) => blocks,
        Err(NoMemory) => return Err(PartFault::NoMemory),
    };
    let mut inodes = Inodes::new(alloc);
    match look_at(alloc, g, disk, &blocks, &mut inodes, steps) {
        Ok(()) => Ok(inodes),
        Err(fault) => {
            drop(inodes);
            Err(fault)
        }
    }
}

/// Reads these blocks, and takes up their slots.
fn look_at<D: Disk, L: Ledger>(
    alloc: Global,
    g: &Geometry,
    disk: &mut D,
    blocks: &[u64],
    inodes: &mut Inodes,
    steps: &mut Steps<L>,
) -> Result<(), PartFault>
    requires inside { g.now.dblocks ≤ D.size disk.old }
    requires low { All (λ block. block < 2 ^ 43) blocks.now }
    ensures held { OnOk result (ForSome (D.holds disk.old) (λ image. held_in inodes.new ≡ gathered_both (held_in inodes.old) (gathered (volume_of g.now) image (inodes_of_blocks (volume_of g.now) blocks.now)))) }
    ensures cause { HasReadCause (D.faults disk.old) (D.faults disk.new) result }
    ensures disk { OnlyReads D.size D.holds D.write_faults D.writes D.tells_stops D.moment D.may_leave D.left_since disk.old disk.new }
    ensures reads { D.reads disk.new + steps.old ≤ D.reads disk.old + steps.new }
{
    for block in blocks {
        match look_at_block(alloc, g, disk, *block, inodes, steps) {
            Ok(()) => {}
            Err(fault) => return Err(fault),
        }
    }
    Ok(())
}

/// Reads a block, and takes up its slots. Of a block outside the volume no slot reads.
fn look_at_block<D: Disk, L: Ledger>(
    alloc: Global,
    g: &Geometry,
    disk: &mut D,
    block: u64,
    inodes: &mut Inodes,
    steps: &mut Steps<L>,
) -> Result<(), PartFault>
    requires inside { g.now.dblocks ≤ D.size disk.old }
    requires low { block < 2 ^ 43 }
    ensures held { OnOk result (ForSome (D.holds disk.old) (λ image. held_in inodes.new ≡ gathered_both (held_in inodes.old) (gathered (volume_of g.now) image (inodes_of_block (volume_of g.now) block)))) }
    ensures cause { HasReadCause (D.faults disk.old) (D.faults disk.new) result }
    ensures disk { OnlyReads D.size D.holds D.write_faults D.writes D.tells_stops D.moment D.may_leave D.left_since disk.old disk.new }
    ensures reads { D.reads disk.new + steps.old ≤ D.reads disk.old + steps.new }
{
    if block >= g.dblocks {
        inodes.pass(first_inode(g, block), None);
        return Ok(());
    }
    let mut bytes = [0; BLOCK_SIZE];
    steps.tick();
    match disk.read(block, &mut bytes) {
        Ok(()) => see_block(alloc, g, disk, block, &bytes, inodes, steps),
        Err(Failed) => Err(PartFault::ReadFault),
    }
}

/// The number of the first inode of a block, which may lie outside the volume.
#[tactic(auto, unfolding(xfs_geom::specs::Conversions::inode_of, xfs_geom::specs::Conversions::address_of))]
fn first_inode(g: &Geometry, block: u64) -> u64
    requires { block < 2 ^ 43 }
    ensures { result ≡ inode_of (volume_of g.now) block 0 }
{
    let agblocks = g.agblocks as u64;
    let size = 1u64 << g.agblklog;
    (block / agblocks * size + block % agblocks) * 8
}
