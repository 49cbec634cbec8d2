//! Superblocks and elections against values from outside.

ghost use Rattle.std.specs.Prelude.{◌+◌, ◌≤◌, IfOk};
ghost use Rattle.xfs_geom.specs.Writing.{IsAcceptedSector};

use crate::checks::{equal, equal_at, must, sure};
use crate::text::{Row, line_at, line_count, part_at, part_count, put_parts, refuse, tells};
use std::process::Abort;
use xfs_disk::Disk;
use xfs_geom::superblock::*;
use xfs_geom::*;
use xfs_memory::MemoryDisk;
use xfs_word::{Seal, SealKind, put_part, put64, seal};

/// Two groups of 1024 blocks, with the log at AG block 6 of the second.
const TWO_GROUPS: &str = "\
8 0000000000000800 | dblocks
48 0000000000000406 | logstart
84 00000400 | agblocks
88 00000002 | agcount
124 0a | agblklog
";

/// Four groups of 1024 blocks.
const FOUR_GROUPS: &str = "\
8 0000000000001000 | dblocks
48 0000000000000406 | logstart
84 00000400 | agblocks
88 00000004 | agcount
124 0a | agblklog
";

/// A group of 1100 blocks and one of 900: an address has a bit more than 1024 blocks need.
const UNEVEN_GROUPS: &str = "\
8 00000000000007d0 | dblocks
48 0000000000000806 | logstart
84 0000044c | agblocks
88 00000002 | agcount
124 0b | agblklog
";

/// What the superblocks have in common.
const COMMON: &str = "\
0 58465342 | magicnum
4 00001000 | blocksize
32 00112233445566778899aabbccddeeff | uuid
56 0000000000000080 | rootino
64 0000000000000081 | rbmino
72 0000000000000082 | rsumino
80 00000001 | rextsize
96 00000200 | logblocks
100 b4a5 | versionnum
102 0200 | sectsize
104 0200 | inodesize
106 0008 | inopblock
120 0c | blocklog
121 09 | sectlog
122 09 | inodelog
123 03 | inopblog
127 19 | imax_pct
128 0000000000000040 | icount
136 000000000000003d | ifree
144 00000000000005ec | fdblocks
180 00000008 | inoalignmt
196 00000001 | logsunit
200 0000018a | features2
204 0000018a | bad_features2
212 00000003 | features_ro_compat
216 00000003 | features_incompat
228 00000004 | spino_align
";

/// A superblock of the shape, sealed.
fn superblock(rt: &(impl Abort + AllocGlobal), shape: &str) -> [u8; SECTOR_SIZE] {
    let mut sector = [0; SECTOR_SIZE];
    put_parts(rt, &mut sector, COMMON);
    put_parts(rt, &mut sector, shape);
    reseal(&mut sector);
    sector
}

fn reseal(sector: &mut [u8; SECTOR_SIZE]) {
    let what = Seal {
        kind: SealKind::Super,
        place: 0,
        owner: None,
        uuid: [0; 16],
    };
    seal(&what, sector);
}

/// A superblock with another number in a field, sealed.
fn with_number(sector: &[u8; SECTOR_SIZE], at: usize, number: u64) -> [u8; SECTOR_SIZE]
    requires { at + 8 ≤ 512 }
{
    let mut changed = *sector;
    put64(&mut changed, at, number);
    reseal(&mut changed);
    changed
}

/// A superblock with all ones in a field, sealed.
fn without(sector: &[u8; SECTOR_SIZE], at: usize) -> [u8; SECTOR_SIZE]
    requires { at + 8 ≤ 512 }
{
    with_number(sector, at, u64::MAX)
}

/// A superblock by its name in the table of elections.
fn named(rt: &(impl Abort + AllocGlobal), name: &str) -> [u8; SECTOR_SIZE] {
    let two = superblock(rt, TWO_GROUPS);
    match name {
        "two" => two,
        "four" => superblock(rt, FOUR_GROUPS),
        "other" => with_number(&superblock(rt, FOUR_GROUPS), UUID.offset, 0),
        "unsupported" => with_number(&two, FEATURES_RO_COMPAT.offset, 7 << 32 | 3),
        "no inodes" => without_inodes(&two),
        "no root" => without(&without_inodes(&two), ROOTINO.offset),
        "zeros" => [0; SECTOR_SIZE],
        _ => refuse(rt, "no superblock", name),
    }
}

/// A superblock that does not know the realtime inodes.
fn without_inodes(sector: &[u8; SECTOR_SIZE]) -> [u8; SECTOR_SIZE] {
    without(&without(sector, RBMINO.offset), RSUMINO.offset)
}

/// Puts a superblock at the front of a block.
fn put_super(rt: &(impl Abort + AllocGlobal), disk: &mut MemoryDisk, mut row: Row) {
    let at: u64 = row.number(rt);
    let mut block = [0; 4096];
    put_part(&mut block, 0, &named(rt, row.text()));
    assert!(rt; matches!(disk.blocks(), Ok(count) if at < count));
    must(rt, disk.write(at, &block));
}

/// The answer of an election on a disk of 4096 blocks, of which some begin with a superblock.
fn elect_of(rt: &(impl Abort + AllocGlobal), supers: &str) -> Result<Elected, ElectFault>
    ensures { IfOk result (λ e. IsAcceptedSector e.sector) }
{
    let alloc = rt.alloc();
    let mut disk = must(rt, MemoryDisk::make(alloc, 4096));
    for i in 0..part_count(supers) {
        let row = part_at(supers, i);
        put_super(rt, &mut disk, row);
    }
    elect(alloc, &mut disk)
}

/// At which blocks superblocks stand, and from which block what is elected is.
const ELECTIONS: &str = "\
two backups have more votes than one before them | 1024 other, 2048 four, 3072 four | Ok(2048)
of as many votes the first block's are taken | 1024 other, 2048 four, 3072 zeros | Ok(1024)
a primary that is accepted asks no backup | 0 other, 1024 four, 2048 four | Ok(0)
a backup need not know the realtime inodes | 0 zeros, 0 zeros, 1024 no inodes | Ok(1024)
a backup has to know one inode | 0 zeros, 0 zeros, 1024 no root | Err(NoGeometry)
a refused feature of the primary asks no backup | 0 unsupported, 1024 two, 2048 four | \
Err(Unsupported { word: 11, bits: 4 })
";

#[test]
fn elections(rt: HostRuntime) {
    let rt = &rt;
    for i in 0..line_count(ELECTIONS) {
        let line = line_at(ELECTIONS, i);
        let mut row = Row::new(line);
        let case = row.text();
        let elected = elect_of(rt, row.text());
        tells(rt, &elected.map(|e| e.from), row.text(), case);
    }
}

#[test]
fn writing(rt: HostRuntime) {
    let rt = &rt;
    let sector = written(rt);
    let values = [
        RBMINO.read(&sector),
        RSUMINO.read(&sector),
        ICOUNT.read(&sector),
        IFREE.read(&sector),
        FDBLOCKS.read(&sector),
        IMAX_PCT.read(&sector),
    ];
    tells(rt, &values, "[129, 130, 32, 29, 7, 25]", "written fields");
    equal(rt, read_super(&sector, 0, 2048).is_ok(), true);
}

/// The superblock that is elected, written with other counts.
fn written(rt: &(impl Abort + AllocGlobal)) -> [u8; SECTOR_SIZE] {
    let Ok(elected) = elect_of(rt, "1024 no inodes") else {
        refuse(rt, "nothing is elected", "")
    };
    let counts = Counts {
        icount: 32,
        ifree: 29,
        fdblocks: 7,
    };
    let mut sector = [0; SECTOR_SIZE];
    write_super(&elected.sector, &counts, &mut sector);
    sector
}

/// Addresses in the uneven groups, and the blocks that they are of.
const ADDRESSES: &str = "\
0 0
1099 1099
1100 -
2048 1100
2054 1106
2947 1999
2948 -
4096 -
";

/// Blocks of the uneven groups, and whether they are fixed.
const FIXED: &str = "\
0 true
1 false
1100 true
1105 false
1106 true
1617 true
1618 false
";

#[test]
fn conversions(rt: HostRuntime) {
    let rt = &rt;
    let Ok(geometry) = read_super(&superblock(rt, UNEVEN_GROUPS), 0, 2000) else {
        refuse(rt, "no superblock", "uneven groups");
    };
    equal(rt, geometry.log, 1106);
    for i in 0..line_count(ADDRESSES) {
        let line = line_at(ADDRESSES, i);
        try_address(rt, &geometry, line);
    }
    for i in 0..line_count(FIXED) {
        let line = line_at(FIXED, i);
        let mut row = Row::new(line);
        let block = row.number(rt);
        sure(rt, block < geometry.dblocks, line);
        equal_at(rt, geometry.is_fixed(block), row.flag(rt), line);
    }
    sure(rt, geometry.agcount == 2, "two groups");
    equal(rt, geometry.group_length(0), 1100);
    equal(rt, geometry.group_length(1), 900);
}

/// Tries an address of a line and an inode there.
fn try_address(rt: &impl Abort, geometry: &Geometry, line: &str) {
    let mut row = Row::new(line);
    let (address, block): (u64, Option<u64>) = (row.number(rt), row.optional(rt));
    sure(rt, address < 1 << 32, line);
    equal_at(rt, geometry.block_of_address(address), block, line);
    equal_at(
        rt,
        geometry.slot_of_inode(address * 8 + 5),
        block.map(|b| (b, 5)),
        line,
    );
    if let Some(block) = block {
        sure(rt, block < geometry.dblocks, line);
        equal_at(rt, geometry.address_of_block(block), address, line);
        equal_at(rt, geometry.inode_of_slot(block, 5), address * 8 + 5, line);
    }
}
