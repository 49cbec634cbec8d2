//! What is wrong with an image, said in words: which field or record of which object, with both numbers in their own terms, and what is
//! usually done about it.

ghost use Rattle.std.specs.Prelude.{◌≡◌, ◌≤◌};
ghost use Rattle.xfs_texts.specs.Explaining.{chain_explained, compared, counter_explained, counter_object, directory_says, explanation, inode_says, law_explained, links_explained, log_explained, lone, part_explained, part_object, records_explained, sequence_explained, space_tree, inode_tree, total_object};
ghost use Rattle.xfs_texts.specs.Private.Labels.{explained_as};

use xfs_image::Finding;
use xfs_volume::Law;

/// A number of a finding, in its own terms.
#[derive(Clone, Copy)]
pub(crate) enum Piece {
    /// No number.
    Nothing,
    /// A count, or the number of a group, an inode or a block.
    Count(u128),
    /// A run of free blocks, `start * 2^32 + count`, or none.
    Run(u128),
    /// A chunk of inodes: the 16 bytes of its record as a number, or none.
    Chunk(u128),
    /// An owner of a block, `owner * 2^64 + offset word`, or none.
    Owner(u128),
    /// A log sequence number, `cycle * 2^32 + sector`.
    Sequence(u128),
    /// A chain of unlinked inodes, `64 * group + chain`.
    Chain(u128),
}

/// An explanation: a line in the order of these fields.
#[derive(Clone, Copy)]
pub(crate) struct Explanation {
    pub(crate) object: &'static str,
    pub(crate) place: Piece,
    pub(crate) says: &'static str,
    pub(crate) held: Piece,
    pub(crate) between: &'static str,
    pub(crate) due: Piece,
    /// What is usually done about it.
    pub(crate) advice: &'static str,
}

/// Of all findings but the log's.
const REPAIR: &str = "; usually xfs_repair without -n mends it\n";

/// Of the log.
const LOG: &str = "; usually the volume is mounted once and unmounted, or the log dropped by -L\n";

/// The first block number of the places of log sequence numbers.
const SEQUENCES: u64 = 1 << 40;

/// What is found, in words. The groups are those that the primary superblock states, where they are known.
pub(crate) fn explained(groups: Option<u32>, finding: &Finding) -> Explanation
    ensures { explained_as result ≡ explanation groups finding.now }
{
    match finding {
        Finding::Part { part, place } => part_explained(*part, *place),
        Finding::Law(law) => law_explained(groups, law),
    }
}

/// A statement of one object.
fn lone(object: &'static str, place: Piece, says: &'static str, advice: &'static str) -> Explanation
    ensures { explained_as result ≡ lone object.entry.now place says.entry.now advice.entry.now }
{
    Explanation {
        object,
        place,
        says,
        held: Piece::Nothing,
        between: "",
        due: Piece::Nothing,
        advice,
    }
}

/// What is held of an object, and what is due, where a repair mends it.
fn compared(object: &'static str, place: Piece, held: Piece, due: Piece) -> Explanation
    ensures { explained_as result ≡ compared object.entry.now place held due }
{
    Explanation {
        object,
        place,
        says: ": held ",
        held,
        between: ", due ",
        due,
        advice: REPAIR,
    }
}

/// A part that is not right.
fn part_explained(part: u8, place: u64) -> Explanation
    ensures { explained_as result ≡ part_explained part place }
{
    let says = match part {
        0 => " is not accepted, and a backup is",
        9 => " does not read: its slot, extents, link target or attributes",
        10 => " does not agree with the primary",
        _ => " does not read",
    };
    lone(part_object(part), Piece::Count(place as u128), says, REPAIR)
}

/// The object that is a part of this number.
fn part_object(part: u8) -> &'static str
    ensures { result.now ≡ part_object part }
{
    match part {
        0 => "the primary superblock of group ",
        1 => "the header of free space (AGF) of group ",
        2 => "the header of inodes (AGI) of group ",
        3 => "the free list (AGFL) of group ",
        4 => "the tree of free space by start (bnobt) of group ",
        5 => "the tree of free space by length (cntbt) of group ",
        6 => "the tree of inodes (inobt) of group ",
        7 => "the tree of free inodes (finobt) of group ",
        8 => "the tree of owners (rmapbt) of group ",
        9 => "inode ",
        _ => "the backup superblock of group ",
    }
}

/// A law that is broken.
fn law_explained(groups: Option<u32>, law: &Law) -> Explanation
    ensures { explained_as result ≡ law_explained groups law.now }
{
    let place = Piece::Count(law.place as u128);
    let held = Piece::Count(law.held);
    let due = Piece::Count(law.due);
    match law.law {
        1 => compared("owners of block ", place, held, due),
        2 => records_explained(law),
        3 => records_explained(law),
        4 => records_explained(law),
        5 => counter_explained(groups, law),
        6 => compared(
            "entries of the free list (AGFL) of group ",
            place,
            held,
            due,
        ),
        7 => lone("directory inode ", place, directory_says(law.held), REPAIR),
        8 => lone("inode ", place, inode_says(law.held), REPAIR),
        9 => links_explained(law),
        10 => log_explained(law),
        _ => lone("law ", Piece::Count(law.law as u128), " is broken", REPAIR),
    }
}

/// A record of a tree of free space, of the tree of owners, or of a tree of inodes.
fn records_explained(law: &Law) -> Explanation
    ensures { explained_as result ≡ records_explained law.now }
{
    let half = Piece::Count(law.place as u128 / 2);
    match law.law {
        2 => compared(
            space_tree(law.place),
            half,
            Piece::Run(law.held),
            Piece::Run(law.due),
        ),
        3 => compared(
            "the owner of block ",
            Piece::Count(law.place as u128),
            Piece::Owner(law.held),
            Piece::Owner(law.due),
        ),
        _ => compared(
            inode_tree(law.place),
            half,
            Piece::Chunk(law.held),
            Piece::Chunk(law.due),
        ),
    }
}

/// The tree of free space at a place of its law.
fn space_tree(place: u64) -> &'static str
    ensures { result.now ≡ space_tree place }
{
    if place % 2 == 0 {
        part_object(4)
    } else {
        part_object(5)
    }
}

/// The tree of inodes at a place of its law.
fn inode_tree(place: u64) -> &'static str
    ensures { result.now ≡ inode_tree place }
{
    if place % 2 == 0 {
        part_object(6)
    } else {
        part_object(7)
    }
}

/// A counter, which is the superblock's behind those of all groups.
fn counter_explained(groups: Option<u32>, law: &Law) -> Explanation
    ensures { explained_as result ≡ counter_explained groups law.now }
{
    let held = Piece::Count(law.held);
    let due = Piece::Count(law.due);
    let group = law.place / 8;
    match groups {
        None => compared(
            "the counter at place ",
            Piece::Count(law.place as u128),
            held,
            due,
        ),
        Some(groups) => {
            if group == groups as u64 {
                compared(total_object(law.place % 8), Piece::Nothing, held, due)
            } else {
                compared(
                    counter_object(law.place % 8),
                    Piece::Count(group as u128),
                    held,
                    due,
                )
            }
        }
    }
}

/// A counter of a group.
fn counter_object(counter: u64) -> &'static str
    ensures { result.now ≡ counter_object counter }
{
    match counter {
        0 => "freeblks of the AGF of group ",
        1 => "longest of the AGF of group ",
        2 => "btreeblks of the AGF of group ",
        3 => "rmapblocks of the AGF of group ",
        4 => "count of the AGI of group ",
        _ => "freecount of the AGI of group ",
    }
}

/// A counter of the superblock.
fn total_object(counter: u64) -> &'static str
    ensures { result.now ≡ total_object counter }
{
    match counter {
        0 => "icount of the superblock",
        1 => "ifree of the superblock",
        _ => "fdblocks of the superblock",
    }
}

/// What a directory fails.
fn directory_says(test: u128) -> &'static str
    ensures { result.now ≡ directory_says test }
{
    match test {
        1 => " has another index or other free space than its entries say",
        2 => " has a name that can't be one, or one name twice",
        3 => " names an inode that is not in use, or one of the system's",
        _ => " states another type than an inode of its has",
    }
}

/// What an inode fails in the tree of directories.
fn inode_says(test: u128) -> &'static str
    ensures { result.now ≡ inode_says test }
{
    match test {
        1 => ", a directory, is not named once, or it is the root, and named",
        2 => ", a directory, has another parent than the directory that names it",
        3 => ", a directory, is not reached from the root, or it is the root, and no directory",
        _ => " is in use, and nothing names it",
    }
}

/// A count of links.
fn links_explained(law: &Law) -> Explanation
    ensures { explained_as result ≡ links_explained law.now }
{
    let object = if law.held == 0 {
        "links (0 also where one of the system's is not regular and empty) of inode "
    } else {
        "links of inode "
    };
    compared(
        object,
        Piece::Count(law.place as u128),
        Piece::Count(law.held),
        Piece::Count(law.due),
    )
}

/// What the law of the log says: of the log, of a chain of unlinked inodes, or of a log sequence number.
fn log_explained(law: &Law) -> Explanation
    ensures { explained_as result ≡ log_explained law.now }
{
    if law.place == 0 {
        lone("the log", Piece::Nothing, " is not clean", LOG)
    } else if law.place < SEQUENCES {
        chain_explained(law)
    } else {
        sequence_explained(law)
    }
}

/// A chain of unlinked inodes that begins.
fn chain_explained(law: &Law) -> Explanation
    requires { 1 ≤ law.now.place }
    ensures { explained_as result ≡ chain_explained law.now }
{
    Explanation {
        object: "the chain of unlinked inodes of group ",
        place: Piece::Chain((law.place - 1) as u128),
        says: " begins with inode ",
        held: Piece::Count(law.held),
        between: " of the group, due none",
        due: Piece::Nothing,
        advice: REPAIR,
    }
}

/// A log sequence number above the head of the log.
fn sequence_explained(law: &Law) -> Explanation
    requires { 1099511627776 ≤ law.now.place }
    ensures { explained_as result ≡ sequence_explained law.now }
{
    Explanation {
        object: "a log sequence number in block ",
        place: Piece::Count((law.place - SEQUENCES) as u128),
        says: " is behind the end of the log: held ",
        held: Piece::Sequence(law.held),
        between: ", the end ",
        due: Piece::Sequence(law.due),
        advice: REPAIR,
    }
}
