//! A volume of two allocation groups, of which only what the sessions look at is there.

use crate::checks::{must, sure};
use crate::text::{Row, line_at, line_count};
use std::process::Abort;
use xfs_disk::{BLOCK_SIZE, Disk};
use xfs_memory::MemoryDisk;
use xfs_word::{Seal, SealKind, put_part, seal};

/// The superblock, with a label: in each line stand a field, its byte offset and its bytes. Each other field is 0.
const SUPERBLOCK: &str = "\
magicnum 0 58465342
blocksize 4 00001000
dblocks 8 0000000000000800
uuid 32 00112233445566778899aabbccddeeff
logstart 48 0000000000000406
rootino 56 0000000000000080
rbmino 64 0000000000000081
rsumino 72 0000000000000082
rextsize 80 00000001
agblocks 84 00000400
agcount 88 00000002
logblocks 96 00000200
versionnum 100 b4a5
sectsize 102 0200
inodesize 104 0200
inopblock 106 0008
fname 108 6120622201ff
blocklog 120 0c
sectlog 121 09
inodelog 122 09
inopblog 123 03
agblklog 124 0a
imax_pct 127 19
icount 128 0000000000000040
ifree 136 000000000000003d
fdblocks 144 00000000000005ec
inoalignmt 180 00000008
logsunit 196 00000001
features2 200 0000018a
bad_features2 204 0000018a
features_ro_compat 212 00000003
features_incompat 216 00000003
spino_align 228 00000004
";

/// A header of free space.
const HEADER: &str = "\
magicnum 0 58414746
bnoroot 16 00000001
freeblks 52 000001f4
longest 56 000001f4
";

/// The root of a tree of free runs: a leaf with one run.
const ROOT: &str = "\
numrecs 6 0001
start 56 0000020c
count 60 000001f4
";

/// The disk of the volume: the superblock with a label, both headers of free space, and in the second group the root of
/// the tree of free runs, with one run.
pub fn volume(rt: &(impl Abort + AllocGlobal)) -> MemoryDisk {
    let mut disk = must(rt, MemoryDisk::make(rt.alloc(), 2048));
    let mut block = [0; BLOCK_SIZE];
    put_fields(rt, &mut block[512..], HEADER);
    put(rt, &mut disk, 1024, &block);
    put_part(&mut block, 0, &superblock(rt));
    put(rt, &mut disk, 0, &block);
    block = [0; BLOCK_SIZE];
    put_fields(rt, &mut block, ROOT);
    put(rt, &mut disk, 1025, &block);
    disk
}

/// Writes a block.
fn put(rt: &impl Abort, disk: &mut MemoryDisk, at: u64, block: &[u8; 4096]) {
    let size = must(rt, disk.blocks());
    sure(rt, at < size, "at < size");
    must(rt, disk.write(at, block));
}

/// The superblock.
fn superblock(rt: &(impl Abort + AllocGlobal)) -> [u8; 512] {
    let mut sector = [0; 512];
    put_fields(rt, &mut sector, SUPERBLOCK);
    let what = Seal {
        kind: SealKind::Super,
        place: 0,
        owner: None,
        uuid: [0; 16],
    };
    seal(&what, &mut sector);
    sector
}

/// Puts bytes into the fields of an object: in each line stand a field, its byte offset and its bytes.
fn put_fields(rt: &(impl Abort + AllocGlobal), object: &mut [u8], fields: &str) {
    for i in 0..line_count(fields) {
        let line = line_at(fields, i);
        let mut row = Row::new(line);
        let _name = row.word();
        let at = row.number(rt);
        row.put(rt, object, at);
    }
}
