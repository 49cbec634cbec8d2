//! Directories built by hand, on a disk of which no contract tells what it holds.

ghost use Rattle.std.specs.Prelude.{◌≡◌, ◌<◌, ◌≤◌, ◌^◌, true, None, IsTrue};
ghost use Rattle.xfs_memory.specs.MemoryDisk.{size_of};
ghost use Rattle.xfs_geom.specs.Volumes.{volume_of};
ghost use Rattle.xfs_inode.specs.Files.{are_extents};

mod disks;

use crate::checks::{equal, equal_at, must, sure};
use crate::small_volume::{ROOT, volume};
use crate::text::{Row, line_at, line_count, put_parts, refuse, tells};
use disks::Untold;
use std::alloc::Global;
use std::marker::Brand;
use std::process::Abort;
use std::sync::ledger::{Blank, Ledger};
use xfs_collections::Steps;
use xfs_dirdata::{EntryRec, put_data, put_short};
use xfs_dirs::*;
use xfs_disk::{BLOCK_SIZE, Disk, Word};
use xfs_geom::Geometry;
use xfs_kinds::Bmbt;
use xfs_tree::Kind;
use xfs_volume::{Core, Extents, FileRec, Rest};
use xfs_word::{Extent, Seal, SealKind, put_part, put32, put64, seal};

/// The identifier of the volume.
const IDENTIFIER: [u8; 16] = *b"a volume's bytes";

/// The core of a directory in blocks, of one block.
const CORE: Core = Core {
    format: 2,
    size: 4096,
    nblocks: 1,
    nextents: 1,
    generation: 7,
    ino: 131,
    uuid: IDENTIFIER,
    ..ROOT
};

/// The tail and the index of the single-block form: three pairs and a stale one.
const SINGLE: &str =
    "4056 0000002e00000008 000000610000000c 0000006100000000 0000172e0000000a 0000000400000001";

/// Directory 131 in the first blocks from block 24 on.
fn directory(rt: &impl Abort, alloc: Global, core: Core, count: u64, unwritten: bool) -> FileRec {
    let extent = Extent {
        offset: 0,
        start: 24,
        count,
        unwritten,
    };
    FileRec {
        ino: 131,
        core,
        extents: must(rt, Extents::from_slice(alloc, &[extent])),
        rest: Rest::none(),
    }
}

/// Whether it is one extent, and it lies in the volume.
fn is_lawful(g: &Geometry, extents: &[Extent]) -> bool
    ensures { IsTrue result → are_extents (volume_of g.now) None extents.now ≡ true }
{
    if extents.len() != 1 {
        return false;
    }
    Bmbt { ino: 131 }.lawful(g, None, &extents[0])
}

/// What the directory reads as, with the steps counted.
fn read_counted<L: Ledger>(
    alloc: Global,
    g: &Geometry,
    disk: &mut Untold,
    slot: &[u8; 512],
    file: &FileRec,
    blank: Blank,
) -> Result<DirFound, DirectoryFault>
    requires name { blank.name ≡ L.name }
    requires parts { blank.parts ≡ L.parts }
    requires some { 0 < blank.parts }
    requires inside { g.now.dblocks ≤ size_of disk.old.disk }
    requires extents { are_extents (volume_of g.now) None file.now.extents ≡ true }
{
    let mut steps = Steps::<L>::from_blank(blank);
    read_directory(alloc, g, disk, slot, file, &mut steps)
}

/// What the directory reads as.
fn read(
    rt: &impl Abort,
    alloc: Global,
    disk: &mut Untold,
    slot: &[u8; 512],
    file: &FileRec,
) -> Result<DirFound, DirectoryFault> {
    let g = volume(IDENTIFIER);
    assert!(rt; matches!(disk.blocks(), Ok(2048)));
    sure(rt, is_lawful(&g, file.extents.as_slice()), "lawful extents");
    read_counted::<Brand>(alloc, &g, disk, slot, file, Blank::new(1))
}

/// An entry of directory 131.
fn entry(rt: &impl Abort, alloc: Global, name: &[u8], ino: u32) -> EntryRec
    ensures name { result.name ≡ name.now }
    ensures ino { result.ino ≡ ino }
{
    let Ok(bytes) = Vec::from_slice(alloc, name) else {
        refuse(rt, "memory is wanting", "an entry");
    };
    EntryRec {
        dir: 131,
        name: Word::from_vec(bytes),
        ino: ino as u64,
        ftype: 1,
    }
}

/// Writes a data block with this magic number, sealed at its place for directory 131 but for some parts that are changed before the seal
/// and some after it.
fn put_block(
    rt: &(impl Abort + AllocGlobal),
    disk: &mut Untold,
    place: u64,
    magic: u32,
    (before, after): (&str, &str),
    block: &mut [u8; BLOCK_SIZE],
) {
    sure(rt, place < 2048, "a block");
    put32(block, 0, magic);
    put64(block, 8, 8 * place);
    put_part(block, 24, &IDENTIFIER);
    put64(block, 40, 131);
    put_parts(rt, block, before);
    let wanted = Seal {
        kind: SealKind::DirData,
        place: 8 * place,
        owner: Some(131),
        uuid: IDENTIFIER,
    };
    seal(&wanted, block);
    put_parts(rt, block, after);
    assert!(rt; matches!(disk.blocks(), Ok(2048)) && disk.write(place, block).is_ok());
}

/// What is changed before the seal and after it, whether the directory is whole then, and whether its entry and its parent are kept.
const CHANGED: &str = "\
sound | | | true true
a byte after the seal | | 4000 0001 | false false
another owner | 46 0084 | | false false
another place | 14 00c8 | | false false
the tag of an entry | 110 0000 | | false false
a hash of the index | 4066 0062 | | false true
";

#[test]
fn single_block_form(rt: HostRuntime) {
    for i in 0..line_count(CHANGED) {
        try_single(&rt, i % 2 == 0, line_at(CHANGED, i));
    }
}

/// Tries a single block with its changes, in an extent that is unwritten or not.
fn try_single(rt: &(impl Abort + AllocGlobal), unwritten: bool, line: &str) {
    let alloc = rt.alloc();
    let mut row = Row::new(line);
    let name = row.text();
    let mut disk = Untold::make(rt, alloc);
    put_single(rt, &mut disk, (row.text(), row.text()));
    let file = directory(rt, alloc, CORE, 1, unwritten);
    let found = found_of(rt, &mut disk, &[0; 512], &file, name);
    equal_at(rt, found.whole, row.flag(rt), name);
    tells_kept(rt, &found, row.flag(rt), name);
    drop((found, file));
}

/// Writes block 24 with one entry in the single-block form, with some parts that are changed before the seal and after it.
fn put_single(rt: &(impl Abort + AllocGlobal), disk: &mut Untold, changes: (&str, &str)) {
    let mut block = [0; BLOCK_SIZE];
    let entries = [entry(rt, rt.alloc(), b"a", 140)];
    put_data(&entries, Some((131, 128)), &mut block[..4056]);
    put_parts(rt, &mut block, SINGLE);
    put_block(rt, disk, 24, 0x5844_4233, changes, &mut block);
}

/// What the directory reads as, which has to be read.
fn found_of(
    rt: &(impl Abort + AllocGlobal),
    disk: &mut Untold,
    slot: &[u8; 512],
    file: &FileRec,
    case: &str,
) -> DirFound {
    match read(rt, rt.alloc(), disk, slot, file) {
        Ok(found) => found,
        Err(_) => refuse(rt, "it is not read", case),
    }
}

/// Fails where not one entry and the parent 128 are kept, or nothing.
fn tells_kept(rt: &impl Abort, found: &DirFound, kept: bool, case: &str) {
    equal_at(rt, found.entries.as_slice().len(), kept as usize, case);
    equal_at(rt, found.parent, if kept { 128 } else { 0 }, case);
}

/// Writes the blocks 24 and 25, with an entry, and with `..` and another one.
fn put_two(rt: &(impl Abort + AllocGlobal), disk: &mut Untold) {
    let alloc = rt.alloc();
    let mut block = [0; BLOCK_SIZE];
    let first = [entry(rt, alloc, b"a", 140)];
    put_data(&first, Some((131, 0)), &mut block);
    put_block(rt, disk, 24, 0x5844_4433, ("", ""), &mut block);
    let mut block = [0; BLOCK_SIZE];
    let second = [entry(rt, alloc, b"..", 129), entry(rt, alloc, b"b", 141)];
    put_data(&second, None, &mut block);
    put_block(rt, disk, 25, 0x5844_4433, ("", ""), &mut block);
}

/// The entries that are kept of both blocks.
const TWO: &str = "[EntryRec { dir: 131, name: Word { bytes: [97] }, ino: 140, ftype: 1 }, \
EntryRec { dir: 131, name: Word { bytes: [98] }, ino: 141, ftype: 1 }]";

#[test]
fn two_data_blocks(rt: HostRuntime) {
    let rt = &rt;
    let alloc = rt.alloc();
    let mut disk = Untold::make(rt, alloc);
    put_two(rt, &mut disk);
    let file = directory(rt, alloc, CORE, 2, false);
    let found = found_of(rt, &mut disk, &[0; 512], &file, "two data blocks");
    equal(rt, (found.whole, found.parent), (false, 0));
    tells(rt, &found.entries.as_slice(), TWO, "two data blocks");
    must(rt, disk.disk.fail(2));
    let fault = read(rt, alloc, &mut disk, &[0; 512], &file);
    sure(
        rt,
        matches!(fault, Err(DirectoryFault::ReadFault)),
        "a read that fails",
    );
    drop((fault, found, file));
}

/// The size of a directory of 15 bytes, and whether it is whole.
const SIZES: &str = "\
15 true
14 false
16 false
336 false
0xffffffffffffffff false
";

#[test]
fn short_form(rt: HostRuntime) {
    let rt = &rt;
    let mut slot = [0; 512];
    let entries = [entry(rt, rt.alloc(), b"a", 140)];
    put_short(128, &entries, &mut slot[176..]);
    for i in 0..line_count(SIZES) {
        let line = line_at(SIZES, i);
        try_size(rt, &slot, line);
    }
}

/// Tries a short form with the size of a line.
fn try_size(rt: &(impl Abort + AllocGlobal), slot: &[u8; 512], line: &str) {
    let alloc = rt.alloc();
    let mut row = Row::new(line);
    let core = Core {
        format: 1,
        size: row.number(rt),
        ..CORE
    };
    let whole = row.flag(rt);
    let file = directory(rt, alloc, core, 1, false);
    let mut disk = Untold::make(rt, alloc);
    let found = found_of(rt, &mut disk, slot, &file, line);
    equal_at(rt, found.whole, whole, line);
    tells_kept(rt, &found, whole, line);
    drop((found, file));
}
