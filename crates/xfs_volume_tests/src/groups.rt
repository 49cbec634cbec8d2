//! The groups of the smallest volume, whole and with trees that do not read: two groups of 1024 blocks, the root's chunk at
//! blocks 16 to 23, the log at AG blocks 6 to 517 of the second group.

ghost use Rattle.std.specs.Prelude.{◌≡◌, ◌<◌, ◌≤◌};

use crate::checks::{compare_at, equal_at, must, sure};
use crate::small_volume::{put, volume};
use crate::text::{Row, line_at, line_count, refuse, tells};
use std::alloc::Global;
use std::marker::Brand;
use std::process::Abort;
use std::sync::ledger::{Blank, Ledger};
use std::thread::Threads;
use xfs_collections::Steps;
use xfs_disk::{BLOCK_SIZE, Disk, NoGate};
use xfs_groups::*;
use xfs_memory::MemoryDisk;
use xfs_word::{put_checksum, put_part, put32, put64};

/// The identifier of the volume.
pub const IDENTIFIER: [u8; 16] = [7; 16];

/// The headers of both groups: the block and the byte offset of each, the offset of its identifier and of its checksum, its bytes from the first
/// on, and an offset with those from there on.
const HEADERS: &str = "\
0 512 64 216 | 58414746 00000001 00000000 00000400 00000001 00000002 00000005 00000001 00000001 | 36 00000001 00000000 00000005 00000006
0 1024 296 312 | 58414749 00000001 00000000 00000400 00000000 00000003 00000001 | 328 00000004 00000001
0 1536 8 32 | 5841464c 00000000 | 36 00000006 00000007 00000008 00000009 0000000a 0000000b
1024 512 64 216 | 58414746 00000001 00000001 00000400 00000001 00000002 00000005 00000001 00000001 | 36 00000001 00000000 00000005 00000006
1024 1024 296 312 | 58414749 00000001 00000001 00000400 00000000 00000003 00000001 | 328 00000004 00000001
1024 1536 8 32 | 5841464c 00000001 | 36 00000206 00000207 00000208 00000209 0000020a 0000020b
";

/// The trees: the block of each, its magic number and the number of its records, and the records.
const TREES: &str = "\
1 41423342 00000002 | 0000000c 00000004 00000018 000003e8
2 41423343 00000002 | 0000000c 00000004 00000018 000003e8
3 49414233 00000001 | 00000080 0000403d ffffffff fffffff8
4 46494233 00000001 | 00000080 0000403d ffffffff fffffff8
5 524d4233 00000005 | 00000000 00000001 ffffffff fffffffd 00000000 00000000 00000001 00000002 ffffffff fffffffb 00000000 00000000 00000003 00000002 ffffffff fffffffa 00000000 00000000 00000005 00000007 ffffffff fffffffb 00000000 00000000 00000010 00000008 ffffffff fffffff9 00000000 00000000
1025 41423342 00000001 | 0000020c 000001f4
1026 41423343 00000001 | 0000020c 000001f4
1027 49414233 00000000 | 
1028 46494233 00000000 | 
1029 524d4233 00000002 | 00000000 00000006 ffffffff fffffffb 00000000 00000000 00000006 00000206 ffffffff fffffffc 00000000 00000000
";

/// Writes the volume's identifier and the checksum of an object.
pub fn seal(rt: &impl Abort, bytes: &mut [u8], identifier: usize, checksum: usize) {
    sure(rt, identifier < 4096, "an identifier");
    sure(rt, identifier + 16 <= bytes.len(), "an identifier");
    put_part(bytes, identifier, &IDENTIFIER);
    sure(rt, checksum < 4096, "a checksum");
    sure(rt, checksum + 4 <= bytes.len(), "a checksum");
    put_checksum(bytes, checksum);
}

/// Writes the headers of both groups.
fn put_headers(rt: &(impl Abort + AllocGlobal), disk: &mut MemoryDisk) {
    let mut blocks = [[0; BLOCK_SIZE]; 2];
    for i in 0..line_count(HEADERS) {
        let line = line_at(HEADERS, i);
        let mut row = Row::new(line);
        let (place, at) = (row.number::<usize>(rt), row.number::<usize>(rt));
        let (identifier, checksum) = (row.number(rt), row.number(rt));
        let mut sector = [0; 512];
        row.put(rt, &mut sector, 0);
        let further = row.number(rt);
        row.put(rt, &mut sector, further);
        seal(rt, &mut sector, identifier, checksum);
        sure(rt, place < 2048, "a block");
        sure(rt, at <= BLOCK_SIZE - 512, "a sector");
        put_part(&mut blocks[place / 1024], at, &sector);
    }
    put(rt, disk, 0, &blocks[0]);
    put(rt, disk, 1024, &blocks[1]);
}

/// A leaf of a tree that is its root, from the words of its line behind its block.
pub fn leaf(rt: &(impl Abort + AllocGlobal), place: u64, row: &mut Row<'_>) -> [u8; BLOCK_SIZE] {
    let mut block = [0; BLOCK_SIZE];
    row.put(rt, &mut block, 0);
    row.put(rt, &mut block, 56);
    sure(rt, place < 2048, "a block");
    put64(&mut block, 8, u64::MAX);
    put64(&mut block, 16, 8 * place);
    put32(&mut block, 48, place as u32 / 1024);
    seal(rt, &mut block, 32, 52);
    block
}

/// A block whose first slot is that of a file.
fn slots(rt: &impl Abort, ino: u32) -> [u8; BLOCK_SIZE] {
    let mut block = [0; BLOCK_SIZE];
    let mut slot = [0; 512];
    put64(&mut slot, 0, 0x494e_81a4_0302_0000);
    put32(&mut slot, 156, ino);
    seal(rt, &mut slot, 160, 100);
    put_part(&mut block, 0, &slot);
    block
}

/// The volume, without the blocks of some of its trees.
pub fn disk(rt: &(impl Abort + AllocGlobal), alloc: Global, lost: &[u64]) -> MemoryDisk {
    let mut disk = must(rt, MemoryDisk::make(alloc, 2048));
    put_headers(rt, &mut disk);
    for i in 0..line_count(TREES) {
        let line = line_at(TREES, i);
        let mut row = Row::new(line);
        let place = row.number(rt);
        if !lost.contains(&place) {
            put(rt, &mut disk, place, &leaf(rt, place, &mut row));
        }
    }
    disk
}

/// What the groups of a volume are found to be: the blocks that are lost, the groups or the first part that does not read, the clusters, the
/// reserved blocks of both groups.
const CASES: &str = "\
 | 2 groups | [(16, true), (20, true)] | [3, 5, 16, 17, 18, 19, 20, 21, 22, 23] | [1027, 1029]
3 | Part { part: 6, place: 0 } | [(16, true), (20, true), (24, false)] | [5, 16, 17, 18, 19, 20, 21, 22, 23, 24, 28, 29] | [1027, 1029]
3 5 | Part { part: 6, place: 0 } | [(16, true), (24, false)] | [24, 28, 29] | [1027, 1029]
1027 | Part { part: 6, place: 1 } | [(16, true), (20, true)] | [3, 5, 16, 17, 18, 19, 20, 21, 22, 23] | [1029]
";

/// The groups of a disk, seen by two workers, with the steps counted.
pub fn see<R: Threads + Sync, D: Disk, L: Ledger>(
    rt: &R,
    alloc: Global,
    disk: &mut D,
    blank: Blank,
) -> Result<Groups, GroupsFault>
    requires name { blank.name ≡ L.name }
    requires parts { blank.parts ≡ L.parts }
    requires some { 0 < blank.parts }
    requires inside { 2048 ≤ D.size disk.old }
{
    let mut steps = Steps::<L>::from_blank(blank);
    see_groups(
        rt,
        alloc,
        &volume(IDENTIFIER),
        disk,
        true,
        2,
        &NoGate,
        &mut steps,
    )
}

/// Tests that the groups are found to be as the rest of a line says.
fn is_found(rt: &(impl Abort + AllocGlobal), seen: &Groups, row: &mut Row<'_>, line: &str) {
    let due = row.text();
    match &seen.groups {
        Ok(groups) => {
            equal_at(rt, groups.as_slice().len(), 2, line);
            equal_at(rt, "2 groups", due, line);
        }
        Err(found) => tells(rt, found, due, line),
    }
    let clusters = clusters_of(rt, rt.alloc(), seen);
    tells(rt, &clusters, row.text(), line);
    are_reserved(rt, seen, row, line);
}

/// The clusters, and whether they are recorded.
fn clusters_of(rt: &impl Abort, alloc: Global, seen: &Groups) -> Vec<(u64, bool)> {
    let mut clusters = Vec::new(alloc);
    for cluster in seen.clusters.as_slice() {
        must(rt, clusters.push((cluster.block, cluster.recorded)));
    }
    clusters
}

/// Tests that the blocks of both groups are reserved that the rest of a line says.
fn are_reserved(rt: &(impl Abort + AllocGlobal), seen: &Groups, row: &mut Row<'_>, line: &str) {
    equal_at(rt, seen.trees.as_slice().len(), 2, line);
    for trees in seen.trees.as_slice() {
        tells(rt, &trees.reserved.as_slice(), row.text(), line);
    }
}

/// The groups of the disk.
fn seen<R: Abort + Threads + Sync>(
    rt: &R,
    alloc: Global,
    disk: &mut MemoryDisk,
) -> Result<Groups, GroupsFault> {
    assert!(rt; matches!(disk.blocks(), Ok(count) if 2048 <= count));
    see::<R, MemoryDisk, Brand>(rt, alloc, disk, Blank::new(1))
}

#[test]
fn groups(rt: HostRuntime) {
    for i in 0..line_count(CASES) {
        let line = line_at(CASES, i);
        try_lost(&rt, line);
    }
}

fn try_lost<R: Abort + AllocGlobal + Threads + Sync>(rt: &R, line: &str) {
    let alloc = rt.alloc();
    let mut row = Row::new(line);
    let lost = row.numbers::<u64>(rt, alloc);
    let mut disk = disk(rt, alloc, &lost);
    put_unnamed(rt, &mut disk);
    match seen(rt, alloc, &mut disk) {
        Ok(seen) => is_found(rt, &seen, &mut row, line),
        Err(_) => refuse(rt, "the groups are not seen", line),
    }
}

/// Writes two blocks of slots that no tree names, and a leaf that none does.
fn put_unnamed(rt: &(impl Abort + AllocGlobal), disk: &mut MemoryDisk) {
    put(rt, disk, 24, &slots(rt, 192));
    put(rt, disk, 28, &slots(rt, 224));
    let mut unused = Row::new("49414233 00000000 |");
    put(rt, disk, 29, &leaf(rt, 29, &mut unused));
}

#[test]
fn failing_reads(rt: HostRuntime) {
    for call in [1, 3, 8, 12] {
        try_failing(&rt, call);
    }
}

fn try_failing<R: Abort + AllocGlobal + Threads + Sync>(rt: &R, call: u64) {
    let alloc = rt.alloc();
    let mut disk = disk(rt, alloc, &[3, 5]);
    must(rt, disk.fail(call));
    let seen = seen(rt, alloc, &mut disk);
    compare_at(
        rt,
        &matches!(seen, Err(GroupsFault::ReadFault)),
        &true,
        &call,
    );
}
