//! What is kept of a small volume: clusters, files, directories and entries as they might have been found.

ghost use Rattle.std.specs.Prelude.{◌≡◌, ◌<◌};

use crate::checks::{equal_at, must, sure};
use crate::items::{records, tells_number, tells_numbers};
use crate::small_volume::volume;
use crate::text::{Row, line_at, line_count};
use std::alloc::Global;
use std::marker::Brand;
use std::process::Abort;
use std::sync::ledger::{Blank, Ledger};
use std::thread::Threads;
use xfs_collections::Steps;
use xfs_salvage::{FoundRecords, Salvaged, claims_in, salvage};

/// In a row stand what the case is, the clusters and whether they are recorded, the files, the directories, the entries; then
/// what is kept: the clusters, the files, the inodes that are made anew, the directories, and what the entries name.
const KEPT: &str = "\
Nothing is in the way | 16 true, 20 true | 128 0x41ed 2 0, 129 0x8000 1 0, 130 0x8000 1 0, 131 0x8000 1 8192 40 2 false | 128 128 true | 128 131 1 a | 16 20 | 128 129 130 131 | | 128 | 131
No file at all | 16 true | | | | 16 | | 128 129 130 | |
Only a file: the root and both system inodes are made anew | 16 true | 131 0x8000 1 0 | | | 16 | 131 | 128 129 130 | |
A file that meets two | 16 true | 128 0x41ed 2 0, 131 0x8000 1 0 40 1 false, 132 0x8000 1 0 42 1 false, 133 0x8000 1 0 40 3 false | 128 128 true | | 16 | 128 131 132 | 129 130 | 128 |
A file that meets another one, and one of a scanned cluster that meets the first | 16 true, 28 false | 131 0x8000 1 0 24 4 false, 132 0x8000 1 0 27 1 false, 225 0x8000 1 0 24 1 false | | | 16 28 | 131 | 128 129 130 | |
A chain of three: where the second is lost the third is kept | 16 true | 131 0x8000 1 0 40 4 false, 132 0x8000 1 0 43 4 false, 133 0x8000 1 0 46 1 false | | | 16 | 131 133 | 128 129 130 | |
A cluster on a block of the log, and a file in it | 16 true, 1028 true | 131 0x8000 1 0 40 1 false, 8224 0x8000 1 0 41 1 false | | | 16 | 131 | 128 129 130 | |
A file on the header of a group | 16 true | 131 0x8000 1 0 1024 1 false, 132 0x8000 1 0 1025 1 false | | | 16 | 132 | 128 129 130 | |
A file on a block of the log | 16 true | 131 0x8000 1 0 1541 1 false, 132 0x8000 1 0 1542 1 false | | | 16 | 132 | 128 129 130 | |
A root that is no directory is cleared, and made anew | 16 true | 128 0x8000 2 0, 129 0x8000 1 0, 130 0x8000 1 0 | | 128 129 1 a | 16 | 129 130 | 128 | |
A system inode with data is cleared, and its blocks were held until then | 16 true | 128 0x41ed 2 0, 129 0x8000 1 4096 40 1 false, 130 0x8000 1 0, 131 0x8000 1 0 40 1 false | 128 128 true | | 16 | 128 130 | 129 | 128 |
A system inode that is a directory | 16 true | 128 0x41ed 2 0, 129 0x8000 1 0, 130 0x41ed 2 0 | 128 128 true, 130 128 true | 130 128 2 a | 16 | 128 129 | 130 | 128 |
A system inode with a size and no data | 16 true | 128 0x41ed 2 0, 129 0x8000 1 1, 130 0x8000 1 0 | 128 128 true | | 16 | 128 130 | 129 | 128 |
A system inode with a tree of extents | 16 true | 129 0x8000 1 0 - - 50, 130 0x8000 1 0 | | | 16 | 130 | 128 129 | |
A system inode with attributes alone stays | 16 true | 129 0x8000 1 0 - 50 1 false, 130 0x8000 1 0 | | | 16 | 129 130 | 128 | |
A scanned cluster inside the data of a file in a recorded one | 16 true, 60 false | 131 0x8000 1 0 63 8 false, 480 0x8000 1 0 90 1 false | | | 16 | 131 | 128 129 130 | |
A file in a recorded cluster before one of a lower number in a scanned one | 8 false, 16 true | 64 0x8000 1 0 40 1 false, 65 0x8000 1 0 41 1 false, 131 0x8000 1 0 40 1 false | | | 8 16 | 65 131 | 128 129 130 | |
A file on a block of its own cluster | 16 true | 131 0x8000 1 0 19 1 false, 132 0x8000 1 0 20 1 false | | | 16 | 132 | 128 129 130 | |
Blocks of attributes, of a tree and of extents that are not written are claimed too | 16 true | 131 0x8000 1 0 - 40 1 false, 132 0x8000 1 0 40 1 false, 133 0x8000 1 0 - - 41, 134 0x8000 1 0 41 1 false, 135 0x8000 1 0 42 1 true, 136 0x8000 1 0 42 1 false | | | 16 | 131 133 135 | 128 129 130 | |
A lost directory takes its entries with it, and is still named | 16 true | 128 0x41ed 2 0, 131 0x8000 1 0 40 1 false, 132 0x41ed 2 0 40 1 false, 133 0x41ed 2 0 42 1 false | 128 128 true, 132 128 true, 133 132 false | 128 131 1 a, 128 132 2 b, 132 133 2 c, 133 131 1 d | 16 | 128 131 133 | 129 130 | 128 133 | 131 132 131
An inode of no cluster that was found | 16 true | 131 0x8000 1 0, 192 0x8000 1 0 | | | 16 | 131 | 128 129 130 | |
The last blocks of both groups | 16 true | 131 0x8000 1 0 1023 1 false, 132 0x8000 1 0 2047 1 false | | | 16 | 131 132 | 128 129 130 | |
";

/// In a row stand what the case is, the clusters, the files, and whether these can claim blocks.
const CAN: &str = "\
They can | 16 true, 20 false, 2044 true | 128 0x41ed 2 0, 131 0x8000 1 0 40 2 false 42 1 false 43 | true
Clusters in another order | 20 true, 16 true | | false
Clusters that have a block in common | 16 true, 19 false | | false
Clusters side by side | 16 true, 20 false | | true
A cluster past the end | 16 true, 2045 true | | false
A cluster at no block at all | 16 true, 0xffffffffffffffff false | | false
The root's cluster is not there | 20 true | | false
The root's cluster is a scanned one | 16 false | | false
Files in another order | 16 true | 132 0x8000 1 0, 131 0x8000 1 0 | false
A file that comes twice | 16 true | 131 0x8000 1 0, 131 0x8000 1 0 | false
The greatest number of an inode | 16 true | 0x7fffffffffffffff 0x8000 1 0 | true
A number that no inode has | 16 true | 0x8000000000000000 0x8000 1 0 | false
An extent that goes from one group into the next | 16 true | 131 0x8000 1 0 1023 2 false | false
An extent past the end | 16 true | 131 0x8000 1 0 2048 1 false | false
An extent without blocks | 16 true | 131 0x8000 1 0 40 0 false | false
Attributes past the end | 16 true | 131 0x8000 1 0 - 2047 2 false | false
A tree past the end | 16 true | 131 0x8000 1 0 - - 2048 | false
A block of data that is one of attributes | 16 true | 131 0x8000 1 0 40 3 false 42 1 false | false
A block of data that is one of the tree | 16 true | 131 0x8000 1 0 40 3 false - 41 | false
";

pub fn found_in(rt: &impl Abort, alloc: Global, row: &mut Row) -> FoundRecords {
    FoundRecords {
        clusters: records(rt, alloc, row.text()),
        files: records(rt, alloc, row.text()),
        dirs: records(rt, alloc, row.text()),
        entries: records(rt, alloc, row.text()),
    }
}

/// Fails where these are not the clusters that are kept, the numbers of files, of directories and of what entries name.
fn tells_kept(rt: &impl Abort, kept: &Salvaged, row: &mut Row, case: &str) {
    tells_numbers(rt, kept.clusters.as_slice(), row, case);
    let mut files = Row::new(row.text());
    for file in kept.files.as_slice() {
        tells_number(rt, file.ino, &mut files, case);
    }
    sure(rt, files.is_read(), case);
    tells_numbers(rt, kept.fresh.as_slice(), row, case);
    tells_names(rt, kept, row, case);
}

fn tells_names(rt: &impl Abort, kept: &Salvaged, row: &mut Row, case: &str) {
    let mut dirs = Row::new(row.text());
    for dir in kept.dirs.as_slice() {
        tells_number(rt, dir.ino, &mut dirs, case);
    }
    sure(rt, dirs.is_read(), case);
    let mut entries = Row::new(row.text());
    for entry in kept.entries.as_slice() {
        tells_number(rt, entry.ino, &mut entries, case);
    }
    sure(rt, entries.is_read(), case);
}

fn try_kept<R: Threads + Sync + Abort, L: Ledger>(
    rt: &R,
    alloc: Global,
    line: &str,
    steps: &mut Steps<L>,
) {
    let g = volume([7; 16]);
    let mut row = Row::new(line);
    let case = row.text();
    let found = found_in(rt, alloc, &mut row);
    let kept = must(rt, salvage(rt, alloc, &g, found, steps));
    tells_kept(rt, &kept, &mut row, case);
    sure(rt, row.is_read(), case);
    drop(kept);
}

fn try_can<L: Ledger>(rt: &impl Abort, alloc: Global, line: &str, steps: &mut Steps<L>) {
    let g = volume([7; 16]);
    let mut row = Row::new(line);
    let case = row.text();
    let clusters = records(rt, alloc, row.text());
    let files = records(rt, alloc, row.text());
    let claims = must(
        rt,
        claims_in(alloc, &g, clusters.as_slice(), files.as_slice(), steps),
    );
    equal_at(rt, claims.is_some(), row.flag(rt), case);
    drop((claims, files, clusters));
}

fn try_all<R: Threads + Sync + Abort, L: Ledger>(rt: &R, alloc: Global, blank: Blank)
    requires name { blank.name ≡ L.name }
    requires parts { blank.parts ≡ L.parts }
    requires some { 0 < blank.parts }
{
    let mut steps = Steps::<L>::from_blank(blank);
    for i in 0..line_count(KEPT) {
        let line = line_at(KEPT, i);
        try_kept(rt, alloc, line, &mut steps);
    }
    for i in 0..line_count(CAN) {
        let line = line_at(CAN, i);
        try_can(rt, alloc, line, &mut steps);
    }
}

#[test]
fn small_cases(rt: HostRuntime) {
    try_all::<HostRuntime, Brand>(&rt, rt.alloc(), Blank::new(1));
}
