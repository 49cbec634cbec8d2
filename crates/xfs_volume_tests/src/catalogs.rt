//! Catalogs of small volumes, as texts: two groups of 1024 blocks, the log at AG blocks 6 to 517 of the second.
//!
//! A text has parts, with semicolons between them. Each has two names, those of its owner and its own, and its values:
//!
//! - of the group `first` or `last`: `agf` (the free blocks, the longest run, the blocks of trees and of the
//!   reverse-mapping tree), `agi` (the inodes and the free ones), `chain` (a place and the head of the chain there),
//!   `listed` (the blocks of the free list), `bno` and `cnt` (runs), `ino` and `fino` (chunks), `rmap` (runs with their
//!   owners and offset words), `trees` (the block of each tree);
//! - of the `volume`: `files`, `dirs`, `entries`, `counts`, `head` (of the log, or `-` where it is dirty), `lsns`.

use crate::checks::{equal_at, must, sure};
use crate::items::{Item, items, records};
use crate::text::{Row, refuse};
use std::alloc::Global;
use std::process::Abort;
use xfs_geom::{Counts, Geometry, InoRec, RmapRec, Span};
use xfs_heads::{Agf, Agfl, Agi};
use xfs_log::LogState;
use xfs_volume::{
    BlockLsn, Catalog, Core, DirRec, Extents, FileRec, GroupRec, Law, Records, Rest, TreeBlocks,
};
use xfs_word::Extent;

/// The smallest volume, empty.
pub const EMPTY: &str = "\
first agf 1004 1000 0 1;
first agi 64 61;
first chain 0 0xffffffff;
first listed 6 7 8 9 10 11;
first bno 12 4, 24 1000;
first cnt 12 4, 24 1000;
first ino 128 0 64 61 0xfffffffffffffff8;
first fino 128 0 64 61 0xfffffffffffffff8;
first rmap 0 1 headers 0, 1 2 group 0, 3 2 inode-trees 0, 5 7 group 0, 16 8 inodes 0;
first trees 1, 2, 3, 4, 5;
last agf 500 500 0 1;
last agi 0 0;
last chain 0 0xffffffff;
last listed 518 519 520 521 522 523;
last bno 524 500;
last cnt 524 500;
last ino;
last fino;
last rmap 0 1 headers 0, 1 2 group 0, 3 2 inode-trees 0, 5 1 group 0, 6 512 log 0, 518 6 group 0;
last trees 1025, 1026, 1027, 1028, 1029;
volume files 128 0x41ed 2 0, 129 0x8000 1 0, 130 0x8000 1 0;
volume entries;
volume dirs 128 128 true;
volume counts 64 61 1516;
volume head 0x100000002;
volume lsns 0 0, 16 0;
";

/// A volume by the parts of a text, some of which are changed.
#[derive(Clone, Copy)]
pub struct Sketch<'a> {
    base: &'a str,
    changes: &'a str,
}

impl<'a> Sketch<'a> {
    /// The volume with these changes, each of a part that it has.
    pub fn new(rt: &impl Abort, base: &'a str, changes: &'a str) -> Sketch<'a> {
        for change in changes.split_terminator(';') {
            let mut names = Row::new(change);
            let (owner, name) = (names.word(), names.word());
            sure(rt, part_of(base, owner, name).is_some(), change);
        }
        Sketch { base, changes }
    }

    /// The values of a part.
    fn part(&self, rt: &impl Abort, owner: &str, name: &str) -> Row<'a> {
        let changed = part_of(self.changes, owner, name);
        match changed.or(part_of(self.base, owner, name)) {
            Some(part) => part,
            None => refuse(rt, "a volume lacks a part", name),
        }
    }

    /// The items of a part.
    fn list<T: Item>(&self, rt: &impl Abort, alloc: Global, owner: &str, name: &str) -> Records<T> {
        records(rt, alloc, self.part(rt, owner, name).text())
    }

    /// The catalog of the volume.
    pub fn catalog(&self, rt: &impl Abort, alloc: Global) -> Catalog {
        Catalog {
            geometry: geometry(),
            groups: Records::from_vec(must(
                rt,
                vec![in alloc;
                    self.group(rt, alloc, "first"),
                    self.group(rt, alloc, "last"),
                ],
            )),
            files: self.list(rt, alloc, "volume", "files"),
            entries: self.list(rt, alloc, "volume", "entries"),
            dirs: self.list(rt, alloc, "volume", "dirs"),
            counts: self.counts(rt),
            log: self.log(rt),
            lsns: self.list(rt, alloc, "volume", "lsns"),
        }
    }

    fn counts(&self, rt: &impl Abort) -> Counts {
        let mut counts = self.part(rt, "volume", "counts");
        Counts {
            icount: counts.number(rt),
            ifree: counts.number(rt),
            fdblocks: counts.number(rt),
        }
    }

    fn log(&self, rt: &impl Abort) -> LogState {
        match self.part(rt, "volume", "head").optional(rt) {
            Some(head) => LogState::Clean { head },
            None => LogState::Dirty,
        }
    }

    fn group(&self, rt: &impl Abort, alloc: Global, owner: &str) -> GroupRec {
        GroupRec {
            agf: agf(rt, &mut self.part(rt, owner, "agf")),
            agi: self.agi(rt, owner),
            agfl: agfl(rt, alloc, &mut self.part(rt, owner, "listed")),
            bno: self.list(rt, alloc, owner, "bno"),
            cnt: self.list(rt, alloc, owner, "cnt"),
            ino: self.list(rt, alloc, owner, "ino"),
            fino: self.list(rt, alloc, owner, "fino"),
            rmap: self.list(rt, alloc, owner, "rmap"),
            blocks: self.list(rt, alloc, owner, "trees"),
        }
    }

    fn agi(&self, rt: &impl Abort, owner: &str) -> Agi {
        let mut counts = self.part(rt, owner, "agi");
        Agi {
            magicnum: 0,
            versionnum: 1,
            seqno: 0,
            length: 1024,
            count: counts.number(rt),
            root: 3,
            level: 1,
            freecount: counts.number(rt),
            newino: u32::MAX,
            dirino: u32::MAX,
            unlinked: chains(rt, &mut self.part(rt, owner, "chain")),
            uuid: [7; 16],
            crc: 0,
            lsn: 0,
            free_root: 4,
            free_level: 1,
        }
    }
}

/// The values of a part, where the text has it.
fn part_of<'a>(text: &'a str, owner: &str, name: &str) -> Option<Row<'a>> {
    for part in text.split(';') {
        let mut row = Row::new(part);
        if row.word() == owner && row.word() == name {
            return Some(row);
        }
    }
    None
}

fn geometry() -> Geometry {
    Geometry {
        dblocks: 2048,
        agblocks: 1024,
        agcount: 2,
        agblklog: 10,
        log: 1030,
        logblocks: 512,
        rootino: 128,
        logsectlog: 0,
        uuid: [7; 16],
    }
}

fn agf(rt: &impl Abort, counts: &mut Row) -> Agf {
    Agf {
        freeblks: counts.number(rt),
        longest: counts.number(rt),
        btreeblks: counts.number(rt),
        rmapblocks: counts.number(rt),
        magicnum: 0,
        versionnum: 1,
        seqno: 0,
        length: 1024,
        bnoroot: 1,
        cntroot: 2,
        rmaproot: 5,
        bnolevel: 1,
        cntlevel: 1,
        rmaplevel: 1,
        flfirst: 0,
        fllast: 5,
        flcount: 6,
        uuid: [7; 16],
        lsn: 0,
        crc: 0,
    }
}

/// Chains of which one may have a head.
fn chains(rt: &impl Abort, chain: &mut Row) -> [u32; 64] {
    let mut heads = [u32::MAX; 64];
    let at: usize = chain.number(rt);
    match heads.get_mut(at) {
        Some(head) => *head = chain.number(rt),
        None => refuse(rt, "a group has no such chain", ""),
    }
    heads
}

fn agfl(rt: &impl Abort, alloc: Global, listed: &mut Row) -> Agfl {
    let blocks = listed.numbers(rt, alloc);
    sure(rt, blocks.len() <= 119, "a free list");
    Agfl::new(blocks.as_slice())
}

/// Each tree has one block.
impl Item for TreeBlocks {
    fn read(rt: &impl Abort, alloc: Global, row: &mut Row) -> Self {
        TreeBlocks {
            blocks: Records::from_vec(must(rt, vec![in alloc; row.number(rt)])),
        }
    }
}

impl Item for Span {
    fn read(rt: &impl Abort, _alloc: Global, row: &mut Row) -> Self {
        Span {
            start: row.number(rt),
            count: row.number(rt),
        }
    }
}

impl Item for InoRec {
    fn read(rt: &impl Abort, _alloc: Global, row: &mut Row) -> Self {
        InoRec {
            startino: row.number(rt),
            holemask: row.number(rt),
            count: row.number(rt),
            freecount: row.number(rt),
            free: row.number(rt),
        }
    }
}

impl Item for RmapRec {
    fn read(rt: &impl Abort, _alloc: Global, row: &mut Row) -> Self {
        RmapRec {
            start: row.number(rt),
            count: row.number(rt),
            owner: owner_of(rt, row.word()),
            offset_word: row.number(rt),
        }
    }
}

/// An owner of blocks: an inode, or what else owns any.
fn owner_of(rt: &impl Abort, word: &str) -> u64 {
    match word {
        "headers" => u64::MAX - 2,
        "log" => u64::MAX - 3,
        "group" => u64::MAX - 4,
        "inode-trees" => u64::MAX - 5,
        "inodes" => u64::MAX - 6,
        word => Row::new(word).number(rt),
    }
}

impl Item for DirRec {
    fn read(rt: &impl Abort, _alloc: Global, row: &mut Row) -> Self {
        DirRec {
            ino: row.number(rt),
            parent: row.number(rt),
            whole: row.flag(rt),
        }
    }
}

impl Item for BlockLsn {
    fn read(rt: &impl Abort, _alloc: Global, row: &mut Row) -> Self {
        BlockLsn {
            block: row.number(rt),
            lsn: row.number(rt),
        }
    }
}

/// A file: its number, its mode, its links and its bytes; then an extent of data, one of attributes and a block of its
/// tree, `-` for one that it has not, and all that it has not at the end left out.
impl Item for FileRec {
    fn read(rt: &impl Abort, alloc: Global, row: &mut Row) -> Self {
        let core = core(rt, row);
        let data = must(rt, Extents::from_vec(alloc, extents(rt, alloc, row)));
        let attr_extents = extents(rt, alloc, row);
        let tree = records::<u64>(rt, alloc, row.text()).into_vec();
        let (attrs, target) = (Vec::new(alloc), Vec::new(alloc));
        FileRec {
            ino: core.ino,
            core,
            extents: data,
            rest: must(rt, Rest::new(alloc, attr_extents, tree, attrs, target, 0)),
        }
    }
}

/// An extent from offset 0 on, where there is one: its start, its count and whether it is unwritten.
fn extents(rt: &impl Abort, alloc: Global, row: &mut Row) -> Vec<Extent> {
    let mut extents = Vec::new(alloc);
    if row.is_read() {
        return extents;
    }
    if let Some(start) = row.optional(rt) {
        must(
            rt,
            extents.push(Extent {
                offset: 0,
                start,
                count: row.number(rt),
                unwritten: row.flag(rt),
            }),
        );
    }
    extents
}

/// Blocks.
impl Item for u64 {
    fn read(rt: &impl Abort, _alloc: Global, row: &mut Row) -> Self {
        row.number(rt)
    }
}

fn core(rt: &impl Abort, row: &mut Row) -> Core {
    Core {
        ino: row.number(rt),
        mode: row.number(rt),
        nlink: row.number(rt),
        size: row.number(rt),
        magic: 0x494e,
        version: 3,
        format: 2,
        uid: 0,
        gid: 0,
        projid_lo: 0,
        projid_hi: 0,
        atime: 0,
        mtime: 0,
        ctime: 0,
        nblocks: 0,
        extsize: 0,
        nextents: 0,
        anextents: 0,
        forkoff: 0,
        aformat: 2,
        flags: 0,
        generation: 0,
        next_unlinked: u32::MAX,
        crc: 0,
        changecount: 0,
        lsn: 0,
        flags2: 0,
        cowextsize: 0,
        crtime: 0,
        uuid: [7; 16],
    }
}

/// Fails where this is not the law that a row ends with.
pub fn tells_law(rt: &impl Abort, found: Option<Law>, row: &mut Row, case: &str) {
    equal_at(rt, found, law_of(rt, row), case);
}

/// The law that a row ends with: its number, its place, what is held and what is due; or none, as `-`.
fn law_of(rt: &impl Abort, row: &mut Row) -> Option<Law> {
    let law = row.optional(rt)?;
    let weight = if law == 3 { 1 << 64 } else { 1 << 32 };
    Some(Law {
        law,
        place: row.number(rt),
        held: joined(rt, row.word(), weight),
        due: joined(rt, row.word(), weight),
    })
}

/// Words of a record, with colons between them, as the number that they make: an owner and its offset word of 64 bits
/// each, else words of 32 bits. `nothing` stands for a record that is not there.
fn joined(rt: &impl Abort, record: &str, weight: u128) -> u128 {
    if record == "nothing" {
        return u128::MAX;
    }
    let mut number = 0u128;
    for word in record.split(':') {
        number = number
            .wrapping_mul(weight)
            .wrapping_add(owner_of(rt, word) as u128);
    }
    number
}
