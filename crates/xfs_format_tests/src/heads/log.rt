//! Logs written out by runs of equal sectors, real ones among them, and the sectors of blank ones.

ghost use Rattle.std.specs.Prelude.{◌≡◌, ◌≤◌, ◌<◌, ◌^◌, length};

use super::*;
use crate::checks::{equal, equal_at, must};
use crate::text::{Row, line_at, line_count, part_at, part_count, put_parts, refuse, tells};
use xfs_log::{LogState, SectorSeen, ZERO_SECTOR, blank_log_sector, log_state, see_sector};

/// A sector that was never written.
const NEW: SectorSeen = SectorSeen {
    cycle: 0,
    header: false,
    header_sectors: 0,
    len: 0,
    single: false,
    flag: 0,
};

/// A sector: `new`; `data` of a cycle with these flags; the one `header` of a record, of a cycle, with so many bytes and
/// operations; or a `record` with its cycle, header sectors, bytes, operations and flags.
fn sector_of(rt: &impl Abort, mut row: Row) -> SectorSeen {
    match row.word() {
        "new" => NEW,
        "data" => SectorSeen {
            cycle: row.number(rt),
            flag: row.number(rt),
            ..NEW
        },
        "header" => SectorSeen {
            cycle: row.number(rt),
            header: true,
            header_sectors: 1,
            len: row.number(rt),
            single: is_single(rt, &mut row),
            flag: 0,
        },
        "record" => SectorSeen {
            cycle: row.number(rt),
            header: true,
            header_sectors: row.number(rt),
            len: row.number(rt),
            single: is_single(rt, &mut row),
            flag: row.number(rt),
        },
        word => refuse(rt, "no sector", word),
    }
}

/// Whether the number of operations that is next is 1.
fn is_single(rt: &impl Abort, row: &mut Row) -> bool {
    let operations: u32 = row.number(rt);
    operations == 1
}

/// The sectors of these runs, in each of which so many are equal.
fn lay(rt: &(impl Abort + AllocGlobal), runs: &str) -> Vec<SectorSeen> {
    let mut seen = Vec::new(rt.alloc());
    for i in 0..part_count(runs) {
        let mut run = part_at(runs, i);
        let count: usize = run.number(rt);
        let sector = sector_of(rt, run);
        for _ in 0..count {
            must(rt, seen.push(sector));
        }
    }
    seen
}

/// The state of a log: `dirty`, or `clean` with the cycle and the block of its head.
fn state_of(rt: &impl Abort, mut row: Row) -> LogState {
    match row.word() {
        "dirty" => LogState::Dirty,
        "clean" => {
            let (cycle, block): (u32, u32) = (row.number(rt), row.number(rt));
            LogState::Clean {
                head: u64::from(cycle) << 32 | u64::from(block),
            }
        }
        word => refuse(rt, "no state", word),
    }
}

/// Logs that were unmounted, or not.
const UNMOUNTED: &str = "\
empty | | clean 1 0
unwritten | 64 new | clean 1 0
one header | 63 new, 1 header 0 0 0 | dirty
cycle 0 first | 12 new, 52 data 1 0 | dirty
unmounted | 10 data 3 0, 1 header 3 512 1, 1 data 3 32, 52 data 2 0 | clean 3 12
no header | 12 data 3 32, 52 data 2 0 | dirty
no flag | 10 data 3 32, 1 header 3 512 1, 1 data 3 223, 52 data 2 0 | dirty
one more sector | 9 data 3 0, 1 header 3 512 1, 1 data 3 32, 1 data 3 0, 52 data 2 0 | dirty
one sector lacks | 11 data 3 0, 1 header 3 512 1, 52 data 2 0 | dirty
cycle lost | 10 data 3 0, 1 header 3 512 1, 1 data 3 32, 52 data 1 0 | dirty
three cycles | 10 data 3 0, 1 header 3 512 1, 1 data 3 32, 51 data 2 0, 1 data 1 0 | dirty
cycle again | 10 data 3 0, 1 header 3 512 1, 1 data 3 32, 51 data 2 0, 1 data 3 0 | dirty
mounted again | 1 header 3 512 1, 1 data 3 32, 1 header 3 4096 9, 8 data 3 0, 53 data 2 0 | dirty
";

/// Records at the front of a log.
const RECORDS: &str = "\
two operations | 1 header 3 512 2, 1 data 3 32, 62 data 2 0 | dirty
no data | 1 data 3 32, 1 header 3 0 1, 62 data 2 0 | dirty
two sectors | 1 header 3 513 1, 1 data 3 32, 1 data 3 0, 61 data 2 0 | clean 3 3
two headers | 1 record 3 2 512 1 0, 1 data 3 0, 1 data 3 255, 61 data 2 0 | clean 3 3
flag in the header | 1 record 3 2 512 1 0, 1 data 3 32, 1 data 3 0, 61 data 2 0 | dirty
one header | 1 record 3 1 512 1 0, 1 data 3 32, 62 data 2 0 | clean 3 2
greatest | 1 record 3 131072 4294967295 1 0, 1 data 3 32, 62 data 2 0 | dirty
more than once | 1 header 3 33280 1, 1 data 3 32, 62 data 2 0 | clean 3 2
";

/// Records around the end of a log.
const AROUND_THE_END: &str = "\
data first | 1 data 3 32, 62 data 2 0, 1 header 2 512 1 | clean 3 1
header first | 1 data 3 0, 1 data 3 32, 61 data 2 0, 1 record 2 2 512 1 0 | clean 3 2
header last | 63 data 3 32, 1 header 3 512 1 | dirty
one cycle | 62 data 3 0, 1 header 3 512 1, 1 data 3 32 | clean 4 0
last cycle alone | 62 data 4294967295 0, 1 header 4294967295 512 1, 1 data 4294967295 32 | clean 4294967295 4294967295
last cycle | 1 header 4294967295 512 1, 1 data 4294967295 32, 62 data 4294967294 0 | clean 4294967295 2
one sector | 1 record 6 1 512 1 32 | clean 7 0
";

/// Logs that were cleared, or not.
const CLEARED: &str = "\
cleared | 1 header 4 512 1, 1 data 4 32, 510 new, 88 data 3 0 | clean 4 2
512 sectors | 1 header 4 512 1, 1 data 4 32, 510 new | clean 4 2
511 sectors | 1 header 4 512 1, 1 data 4 32, 509 new | dirty
one more cleared | 1 header 4 512 1, 1 data 4 32, 511 new, 88 data 3 0 | dirty
one cleared less | 1 header 4 512 1, 1 data 4 32, 509 new, 88 data 3 0 | dirty
a header | 1 header 4 512 1, 1 data 4 32, 509 new, 1 header 0 0 0, 88 data 3 0 | dirty
most | 1 header 4 261120 1, 1 data 4 32, 509 data 4 0, 1 new, 88 data 3 0 | clean 4 511
begins later | 1 data 4 0, 1 header 4 512 1, 1 data 4 32, 509 new, 88 data 3 0 | dirty
goes around | 1 header 4 307712 1, 1 data 4 32, 510 new, 88 data 3 0 | dirty
two headers | 1 header 4 1024 1, 1 data 4 32, 1 header 4 512 1, 509 new, 88 data 3 0 | dirty
two operations | 1 header 4 512 2, 1 data 4 32, 510 new, 88 data 3 0 | dirty
cycle lost | 1 header 4 512 1, 1 data 4 32, 510 new, 88 data 2 0 | dirty
two cycles | 1 header 4 512 1, 1 data 4 32, 510 new, 88 data 3 0, 1 data 2 0 | dirty
";

/// Real logs.
const REAL: &str = "\
fresh | 1 header 1 512 1, 1 data 1 32, 7022 new | clean 1 2
its flag taken | 1 header 1 512 1, 1 data 1 0, 7022 new | dirty
mounted once | 1 header 1 512 1, 1 data 1 32, 1 header 1 2048 16, 4 data 1 0, 1 header 1 2560 26, 5 data 1 0, 1 header 1 1024 12, 2 data 1 0, 1 header 1 512 5, 1 data 1 0, 1 header 1 512 5, 1 data 1 0, 1 header 1 512 1, 1 data 1 32, 4076 record 0 1 0 0 0, 3902 new | clean 1 22
cleared by xfs_repair | 1 header 4 512 1, 1 data 4 32, 510 new, 1 record 3 8 258048 1 0, 511 data 3 0, 1 record 3 8 258048 1 0, 511 data 3 0, 1 record 3 5 161280 1 0, 319 data 3 0 | clean 4 2
";

#[test]
fn states(rt: HostRuntime) {
    let rt = &rt;
    for table in [UNMOUNTED, RECORDS, AROUND_THE_END, CLEARED, REAL] {
        for i in 0..line_count(table) {
            let line = line_at(table, i);
            let mut row = Row::new(line);
            let _case = row.text();
            let seen = lay(rt, row.text());
            let due = state_of(rt, row);
            equal_at(rt, log_state(&seen, seen.len()), due, line);
            equal_at(
                rt,
                log_state(&seen[..listed_of(&seen)], seen.len()),
                due,
                line,
            );
        }
    }
}

/// How many sectors of a log are listed, where of those behind the first 512 the last ones that are zeros are not.
fn listed_of(seen: &[SectorSeen]) -> usize
    ensures inside { result ≤ length seen.now }
    ensures listed { result < 512 → result ≡ length seen.now }
{
    let mut zeros: usize = 0;
    for sector in seen {
        zeros = if *sector == NEW {
            zeros.saturating_add(1)
        } else {
            0
        };
    }
    seen.len() - zeros.min(seen.len().saturating_sub(512))
}

/// The first sector of the log that `mkfs.xfs` wrote, up to the first replaced number and from the format on.
const MADE_HEADER: &str = "\
0 feedbabe00000001000000020000020000000001000000000000000100000000
32 00000000ffffffff00000001b0c0d0d0
300 0000000100112233445566778899aabbccddeeff00008000
";

/// The second sector of that log, which is zero behind these bytes.
const MADE_DATA: &str = "0 0000000100000008aa2000006e550000";

#[test]
fn blank_sectors(rt: HostRuntime) {
    let rt = &rt;
    let mut sector = [0xff; 512];
    for (index, parts) in [MADE_HEADER, MADE_DATA].iter().enumerate() {
        let mut due = [0; 512];
        put_parts(rt, &mut due, parts);
        blank_log_sector(1, index as u64, &IDENTIFIER, &mut sector);
        equal(rt, sector, due);
    }
    for cycle in [1, 8, 0x7fff_ffff] {
        let mut seen = Vec::new(rt.alloc());
        for index in 0..64 {
            blank_log_sector(cycle, index, &IDENTIFIER, &mut sector);
            must(rt, seen.push(see_sector(&sector)));
        }
        let head = ((cycle as u64) << 32) + 2;
        equal(rt, log_state(&seen, seen.len()), LogState::Clean { head });
    }
}

/// The sectors of records' headers, and what is seen of them.
const SEEN: &str = "\
0 feedbabe, 4 00000007, 8 00000002, 12 00000800, 40 00000010, 320 00008000 | header 7 2048 16
0 feedbabe, 4 00000007, 8 00000002, 12 00000200, 40 00000001, 320 00008001 | record 7 2 512 1 0
0 feedbabe, 4 00000007, 8 00000001, 12 00000200, 40 00000001, 320 00008001 | record 7 1 512 1 0
0 feedbabe, 4 00000007, 8 00a00003, 12 ffffffff, 40 00000001, 320 ffffffff | record 7 131072 4294967295 1 160
";

/// Another magic number and another version, which is none.
const CHANGED: &str = "0 feedbabd, 8 aa200000";

#[test]
fn seen_sectors(rt: HostRuntime) {
    let rt = &rt;
    let mut sector = [0; 512];
    equal(rt, see_sector(&sector), ZERO_SECTOR);
    for i in 0..line_count(SEEN) {
        let line = line_at(SEEN, i);
        let mut row = Row::new(line);
        put_parts(rt, &mut sector, row.text());
        equal_at(rt, see_sector(&sector), sector_of(rt, row), line);
    }
    put_parts(rt, &mut sector, CHANGED);
    let due =
        "SectorSeen { cycle: 4276992701, header_sectors: 0, len: 0, header: false, single: false, flag: 32 }";
    tells(rt, &see_sector(&sector), due, CHANGED);
}
