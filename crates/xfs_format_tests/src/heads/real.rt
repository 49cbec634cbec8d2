//! Headers cut from real images, and what the `xfs_db` of xfsprogs prints of them, but for the checksums: it
//! prints their bytes in the order in which they are stored.

ghost use Rattle.std.specs.Prelude.{◌≡◌, ◌≤◌};

use super::*;
use crate::checks::equal;
use crate::text::{put_parts, refuse, tells};

/// Group 2 of 4 in an image that `mkfs.xfs` filled from a protofile. The group holds the log.
const MADE: &str = "0 497d6d7b117f4804809b9c7ce8ea0e17";

const MADE_AGF: &str = "\
0 5841474600000001000000020000200000000001000000020000000500000001
32 000000010000000100000001000000060000000600001b5b00001b4800000000
64 497d6d7b117f4804809b9c7ce8ea0e1700000001
216 3307b4bc
";

const MADE_AGI: &str = "\
0 584147490000000100000002000020000000088000000003000000010000000a
32 00002580
36 ff*260
296 497d6d7b117f4804809b9c7ce8ea0e17c5927acd000000000000000000000000
328 0000000400000001
";

const MADE_AGFL: &str = "\
0 5841464c00000002497d6d7b117f4804809b9c7ce8ea0e170000000000000000
32 098d069c
40 000003740000037500000376000003770000037800000379
";

/// What is printed of them.
const MADE_AGF_PRINTED: &str = "\
Agf { magicnum: 1480673094, versionnum: 1, seqno: 2, length: 8192, bnoroot: 1, cntroot: 2, rmaproot: 5, \
bnolevel: 1, cntlevel: 1, rmaplevel: 1, flfirst: 1, fllast: 6, flcount: 6, freeblks: 7003, longest: \
6984, btreeblks: 0, uuid: [73, 125, 109, 123, 17, 127, 72, 4, 128, 155, 156, 124, 232, 234, 14, 23], \
rmapblocks: 1, lsn: 0, crc: 3165914931 }";

const MADE_AGI_PRINTED: &str = "\
Agi { magicnum: 1480673097, versionnum: 1, seqno: 2, length: 8192, count: 2176, root: 3, level: 1, \
freecount: 10, newino: 9600, dirino: 4294967295, unlinked: [4294967295, 4294967295, 4294967295, \
4294967295, 4294967295, 4294967295, 4294967295, 4294967295, 4294967295, 4294967295, 4294967295, \
4294967295, 4294967295, 4294967295, 4294967295, 4294967295, 4294967295, 4294967295, 4294967295, \
4294967295, 4294967295, 4294967295, 4294967295, 4294967295, 4294967295, 4294967295, 4294967295, \
4294967295, 4294967295, 4294967295, 4294967295, 4294967295, 4294967295, 4294967295, 4294967295, \
4294967295, 4294967295, 4294967295, 4294967295, 4294967295, 4294967295, 4294967295, 4294967295, \
4294967295, 4294967295, 4294967295, 4294967295, 4294967295, 4294967295, 4294967295, 4294967295, \
4294967295, 4294967295, 4294967295, 4294967295, 4294967295, 4294967295, 4294967295, 4294967295, \
4294967295, 4294967295, 4294967295, 4294967295, 4294967295], uuid: [73, 125, 109, 123, 17, 127, 72, 4, \
128, 155, 156, 124, 232, 234, 14, 23], crc: 3447362245, lsn: 0, free_root: 4, free_level: 1 }";

/// Group 0 of 4 in an image that a kernel wrote to for long.
const WRITTEN: &str = "0 1218dbea0dcc4ac6be9e5c495dfff517";

const WRITTEN_AGF: &str = "\
0 584147460000000100000000000020000000094b000009490000000700000002
32 00000002000000020000002c000000330000000800000a93000000010000002b
64 1218dbea0dcc4ac6be9e5c495dfff5170000001e
208 000000030000045c108ec5db
";

const WRITTEN_AGFL: &str = "\
0 5841464c000000001218dbea0dcc4ac6be9e5c495dfff517000000030000045c
32 5a24f426
40 000000060000000700000008000000090000000a0000000b0000094800000949
72 0000094a0000094b0000094e00000951000009540000095600000f3600000f37
104 00000f3800000f39000009570000095a000013c70000095f0000096200000963
136 0000096000000a41000001d2000002f6000002f8000002fa000002fc000002fe
168 00000300000003020000030400000306000003080000030a0000030c0000030e
200 00000310000003120000031400000316000003180000031a0000031c0000031e
232 000003200000032200000324
";

/// What is printed of the first.
const WRITTEN_AGF_PRINTED: &str = "\
Agf { magicnum: 1480673094, versionnum: 1, seqno: 0, length: 8192, bnoroot: 2379, cntroot: 2377, \
rmaproot: 7, bnolevel: 2, cntlevel: 2, rmaplevel: 2, flfirst: 44, fllast: 51, flcount: 8, freeblks: \
2707, longest: 1, btreeblks: 43, uuid: [18, 24, 219, 234, 13, 204, 74, 198, 190, 158, 92, 73, 93, 255, \
245, 23], rmapblocks: 30, lsn: 12884903004, crc: 3687157264 }";

/// A sector that holds these parts, and `fill` elsewhere.
fn sector_of(rt: &(impl Abort + AllocGlobal), fill: u8, parts: &str) -> [u8; 512] {
    let mut sector = [fill; 512];
    put_parts(rt, &mut sector, parts);
    sector
}

/// The geometry of an image of 4 groups with 8192 blocks each, with its log in group 2.
fn image(rt: &(impl Abort + AllocGlobal), logblocks: u32, identifier: &str) -> Geometry
    requires few { logblocks ≤ 1000 }
    requires some { 512 ≤ logblocks }
    ensures { result.agcount ≡ 4 }
{
    let mut uuid = [0; 16];
    put_parts(rt, &mut uuid, identifier);
    Geometry {
        dblocks: 32768,
        agblocks: 8192,
        agcount: 4,
        agblklog: 13,
        log: 16390,
        logblocks,
        rootino: 128,
        logsectlog: 0,
        uuid,
    }
}

#[test]
fn headers_that_mkfs_made(rt: HostRuntime) {
    let rt = &rt;
    let g = image(rt, 878, MADE);
    let Some(agf) = read_agf(&g, 2, &sector_of(rt, 0, MADE_AGF)) else {
        refuse(rt, "the header of free space is refused", "")
    };
    tells(rt, &agf, MADE_AGF_PRINTED, "free space");
    let Some(agi) = read_agi(&g, 2, &sector_of(rt, 0, MADE_AGI)) else {
        refuse(rt, "the header of inodes is refused", "")
    };
    tells(rt, &agi, MADE_AGI_PRINTED, "inodes");
    let agfl = Agfl::new(&[884, 885, 886, 887, 888, 889]);
    let sector = sector_of(rt, 0xff, MADE_AGFL);
    equal(rt, read_agfl(&g, 2, &agf, &sector), Some(agfl));
}

#[test]
fn headers_that_a_kernel_wrote(rt: HostRuntime) {
    let rt = &rt;
    let g = image(rt, 1000, WRITTEN);
    let Some(agf) = read_agf(&g, 0, &sector_of(rt, 0, WRITTEN_AGF)) else {
        refuse(rt, "the header of free space is refused", "")
    };
    tells(rt, &agf, WRITTEN_AGF_PRINTED, "free space");
    let agfl = Agfl::new(&[790, 792, 794, 796, 798, 800, 802, 804]);
    let sector = sector_of(rt, 0xff, WRITTEN_AGFL);
    equal(rt, read_agfl(&g, 0, &agf, &sector), Some(agfl));
}
