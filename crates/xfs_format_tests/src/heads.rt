//! Headers of a volume of two groups of 1024 blocks, with its log at AG block 6 of the second.

ghost use Rattle.std.specs.Prelude.{◌≡◌, ◌+◌, ◌<◌, ◌≤◌};
ghost use Rattle.xfs_word.specs.Seal.{layout_of};

mod log;
mod real;

use crate::checks::{compare_at, equal, equal_at, sure};
use crate::text::{Row, line_at, line_count, refuse};
use std::process::Abort;
use xfs_geom::Geometry;
use xfs_heads::layouts::{agf, agfl, agi};
use xfs_heads::*;
use xfs_word::{FieldLayout, Seal, SealKind, get32, put_part, put32, put64, seal, stored_checksum};

/// The identifier of the volume.
const IDENTIFIER: [u8; 16] = [
    0x00, 0x11, 0x22, 0x33, 0x44, 0x55, 0x66, 0x77, 0x88, 0x99, 0xaa, 0xbb, 0xcc, 0xdd, 0xee, 0xff,
];

/// The geometry of the volume.
fn volume() -> Geometry
    ensures { result.agcount ≡ 2 }
{
    Geometry {
        dblocks: 2048,
        agblocks: 1024,
        agcount: 2,
        agblklog: 10,
        log: 1030,
        logblocks: 512,
        rootino: 128,
        logsectlog: 0,
        uuid: IDENTIFIER,
    }
}

/// A sector with another number at a byte offset, sealed as a header of this kind in the first group.
fn with_number(sector: &[u8; 512], kind: SealKind, at: usize, number: u32) -> [u8; 512]
    requires inside { at + 4 ≤ 512 }
    requires kind { (layout_of kind).size ≡ 512 }
{
    let mut changed = *sector;
    put32(&mut changed, at, number);
    let what = Seal {
        kind,
        place: 0,
        owner: None,
        uuid: IDENTIFIER,
    };
    seal(&what, &mut changed);
    changed
}

/// The byte offset of a field of four bytes.
fn offset_of(rt: &impl Abort, layouts: &[FieldLayout], name: &str) -> usize
    ensures { result ≤ 508 }
{
    for layout in layouts {
        if layout.name == name {
            sure(rt, layout.offset <= 508, name);
            return layout.offset;
        }
    }
    refuse(rt, "no field", name)
}

/// Other numbers in fields of the header, and whether it is accepted then.
const CHANGED_AGF: &str = "\
versionnum 2 false
length 1023 false
bnolevel 0 false
cntlevel 10 false
rmaplevel 9 true
bnoroot 0 false
cntroot 1024 false
rmaproot 1023 true
flfirst 119 false
fllast 119 false
fllast 6 false
flcount 120 false
flcount 0 true
freeblks 7 true
";

#[test]
fn free_space(rt: HostRuntime) {
    let rt = &rt;
    let g = volume();
    let header = Agf {
        magicnum: 0x5841_4746,
        versionnum: 1,
        seqno: 0,
        length: 1024,
        bnoroot: 1,
        cntroot: 2,
        rmaproot: 5,
        bnolevel: 1,
        cntlevel: 1,
        rmaplevel: 1,
        flfirst: 0,
        fllast: 5,
        flcount: 6,
        freeblks: 1004,
        longest: 1000,
        btreeblks: 0,
        uuid: g.uuid,
        rmapblocks: 1,
        lsn: 0,
        crc: 0,
    };
    sure(rt, header.is_shaped(&g, 0), "a header");
    let mut sector = [0xff; 512];
    put_agf(&g, 0, &header, &mut sector);
    equal(rt, get32(&sector, 52), 1004);
    let crc = stored_checksum(&sector, 216);
    equal(rt, read_agf(&g, 0, &sector), Some(Agf { crc, ..header }));
    equal(rt, read_agf(&g, 1, &sector), None);
    for i in 0..line_count(CHANGED_AGF) {
        let line = line_at(CHANGED_AGF, i);
        let mut row = Row::new(line);
        let at = offset_of(rt, &agf::AGF, row.word());
        let changed = with_number(&sector, SealKind::Agf, at, row.number(rt));
        equal_at(rt, read_agf(&g, 0, &changed).is_some(), row.flag(rt), line);
    }
}

/// The same of the header of inodes.
const CHANGED_AGI: &str = "\
versionnum 2 false
length 1023 false
level 0 false
level 10 false
root 0 false
root 1024 false
free_level 10 false
free_root 0 false
newino 7 true
dirino 7 true
";

#[test]
fn inodes(rt: HostRuntime) {
    let rt = &rt;
    let g = volume();
    let mut unlinked = [u32::MAX; 64];
    unlinked[63] = 131;
    let header = Agi {
        magicnum: 0x5841_4749,
        versionnum: 1,
        seqno: 0,
        length: 1024,
        count: 64,
        root: 3,
        level: 1,
        freecount: 61,
        newino: 128,
        dirino: u32::MAX,
        unlinked,
        uuid: g.uuid,
        crc: 0,
        lsn: 0,
        free_root: 4,
        free_level: 1,
    };
    sure(rt, header.is_shaped(&g, 0), "a header");
    let mut sector = [0xff; 512];
    put_agi(&g, 0, &header, &mut sector);
    equal(rt, get32(&sector, 292), 131);
    let crc = stored_checksum(&sector, 312);
    equal(rt, read_agi(&g, 0, &sector), Some(Agi { crc, ..header }));
    equal(rt, read_agi(&g, 1, &sector), None);
    for i in 0..line_count(CHANGED_AGI) {
        let line = line_at(CHANGED_AGI, i);
        let mut row = Row::new(line);
        let at = offset_of(rt, &agi::AGI, row.word());
        let changed = with_number(&sector, SealKind::Agi, at, row.number(rt));
        equal_at(rt, read_agi(&g, 0, &changed).is_some(), row.flag(rt), line);
    }
}

/// A header of free space that only bounds the free list.
fn bounds(flfirst: u32, flcount: u32) -> Agf
    requires first { flfirst < 119 }
    requires count { flcount ≤ 119 }
{
    Agf {
        magicnum: 0,
        versionnum: 0,
        seqno: 0,
        length: 0,
        bnoroot: 0,
        cntroot: 0,
        rmaproot: 0,
        bnolevel: 0,
        cntlevel: 0,
        rmaplevel: 0,
        flfirst,
        fllast: (flfirst + flcount + 118) % 119,
        flcount,
        freeblks: 0,
        longest: 0,
        btreeblks: 0,
        uuid: [0; 16],
        rmapblocks: 0,
        lsn: 0,
        crc: 0,
    }
}

/// A sector with the blocks 6, 7, .. as its active entries and 0 in all others, sealed.
fn list_sector(flfirst: u32, flcount: u32) -> [u8; 512]
    requires first { flfirst < 119 }
    requires count { flcount ≤ 119 }
{
    let mut sector = [0; 512];
    put_part(&mut sector, agfl::UUID.offset, &IDENTIFIER);
    for index in 0..flcount {
        agfl::BNO.write(&mut sector, ((flfirst + index) % 119) as usize, 6 + index);
    }
    with_number(&sector, SealKind::Agfl, agfl::MAGICNUM.offset, 0x5841_464c)
}

#[test]
fn free_lists(rt: HostRuntime) {
    let rt = &rt;
    let g = volume();
    for flfirst in 0..119 {
        for flcount in [0, 1, 6, 118, 119] {
            let sector = list_sector(flfirst, flcount);
            let Some(list) = read_agfl(&g, 0, &bounds(flfirst, flcount), &sector) else {
                refuse(rt, "a free list is refused", "")
            };
            equal(rt, list.count, flcount);
            for (index, entry) in list.entries.iter().enumerate() {
                let due = if index < flcount as usize {
                    6 + index as u32
                } else {
                    u32::MAX
                };
                compare_at(rt, entry, &due, &(flfirst, index));
            }
        }
    }
}

/// A group, a block of it, and whether a free list of the group may have it.
const LISTED: &str = "\
0 0 false
0 1 true
0 1023 true
0 1024 false
1 5 true
1 6 false
1 517 false
1 518 true
";

#[test]
fn listed_blocks(rt: HostRuntime) {
    let g = volume();
    for i in 0..line_count(LISTED) {
        let line = line_at(LISTED, i);
        try_listed(&rt, &g, line);
    }
}

/// Tries a free list with the block of a line, and writes it where a group may have it.
fn try_listed(rt: &impl Abort, g: &Geometry, line: &str)
    requires { g.now.agcount ≡ 2 }
{
    let mut row = Row::new(line);
    let (ag, block): (u32, u32) = (row.number(rt), row.number(rt));
    sure(rt, ag < 2, line);
    let list = Agfl::new(&[519, block]);
    let listed = list.has_blocks(g, ag);
    row.tells_flag(rt, listed, line);
    if listed {
        let mut sector = [0xff; 512];
        put_agfl(g, ag, &list, &mut sector);
        equal(rt, get32(&sector, 4), ag);
        equal(rt, read_agfl(g, ag, &bounds(0, 2), &sector), Some(list));
        equal(rt, read_agfl(g, 1 - ag, &bounds(0, 2), &sector), None);
    }
}
