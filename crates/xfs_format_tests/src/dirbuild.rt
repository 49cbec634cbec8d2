//! Directories of all forms, built, placed, sealed and checked.

ghost use Rattle.std.specs.Prelude.{◌≡◌, ◌+◌, ◌*◌, ◌<◌, ◌≤◌, ◌^◌, length, All, IfOk, OnOk};
ghost use Rattle.xfs_word.specs.Seal.{layout_of};
ghost use Rattle.xfs_dirindex.specs.Mapped.{OffsetsAscend};
ghost use Rattle.xfs_dirbuild.specs.Names.{HasNameOfSix};

use crate::checks::{compare_at, must, sure};
use crate::dirindex::{assert_ascending, check};
use crate::text::{Row, line_at, line_count, part_at, part_count, tells};
use std::alloc::{AllocError, Global};
use std::process::Abort;
use xfs_collections::BlockBank;
use xfs_dirbuild::*;
use xfs_dirdata::{EntryRec, read_data};
use xfs_dirindex::DirSeen;
use xfs_disk::{NoMemory, Word};
use xfs_word::{Seal, SealKind, get16, get32, put_part, put32, put64, seal, sealed};

/// The inode number of the directories.
const DIR: u64 = 128;

/// How many bytes the data fork may have.
const FORK: usize = 336;

/// A digit of a number.
fn digit(number: u32, power: u32) -> u8
    requires { 1 ≤ power }
{
    b'0' + (number / power % 10) as u8
}

/// An entry with the name n00000, n00001 or so on.
fn entry(alloc: Global, number: u32) -> Result<EntryRec, AllocError>
    ensures name { IfOk result (λ entry. length entry.name ≡ 6) }
    ensures ino { IfOk result (λ entry. entry.ino ≡ 131) }
{
    let name = [
        b'n',
        digit(number, 10000),
        digit(number, 1000),
        digit(number, 100),
        digit(number, 10),
        digit(number, 1),
    ];
    Ok(EntryRec {
        dir: DIR,
        name: Word::from_slice(alloc, &name)?,
        ino: 131,
        ftype: 1,
    })
}

/// So many entries.
fn entries(alloc: Global, count: u32) -> Result<Vec<EntryRec>, AllocError>
    ensures count { IfOk result (λ entries. length entries.items ≡ count) }
    ensures each { IfOk result (λ entries. All HasNameOfSix entries.items) }
{
    let mut entries = Vec::new(alloc);
    for number in 0..count {
        entries.push(entry(alloc, number)?)?;
    }
    Ok(entries)
}

/// A directory with so many entries.
fn built(alloc: Global, count: u32) -> Result<DirImage, NoMemory>
    requires { count ≤ 2 ^ 24 }
{
    let entries = entries(alloc, count)?;
    build(alloc, &entries, DIR, DIR, FORK)
}

/// The file block of a block of a directory with so many data and index blocks.
fn file_block(place: u64, datas: u64, indexes: u64) -> u64
    requires { place ≤ 0x2000000 }
    ensures { result < 2 ^ 32 }
{
    if place < datas {
        place
    } else if place - datas < indexes {
        0x80_0000 + (place - datas)
    } else {
        0x100_0000 + (place - datas - indexes)
    }
}

/// The kind of the block that stands at a file block.
fn kind_of(offset: u64, block: &[u8]) -> SealKind
    requires { 10 ≤ length block.now }
    ensures { (layout_of result).size ≡ 4096 }
{
    if offset < 0x80_0000 {
        SealKind::DirData
    } else if offset < 0x100_0000 {
        SealKind::Index {
            magic: get16(block, 8),
        }
    } else {
        SealKind::DirFree
    }
}

/// Gives a block its place, owner and seal, and says whether it is then sealed.
fn place(offset: u64, block: &mut [u8]) -> bool
    requires long { length block.old ≡ 4096 }
    requires fits { offset < 2 ^ 32 }
{
    let uuid = [0x5a; 16];
    let kind = kind_of(offset, block);
    let seal_start = if kind == SealKind::DirData || kind == SealKind::DirFree {
        4
    } else {
        12
    };
    put64(block, seal_start + 4, 8 * (offset + 1000));
    put64(block, seal_start + 12, 0x1_0000_0002);
    put_part(block, seal_start + 20, &uuid);
    put64(block, seal_start + 36, DIR);
    let stated = Seal {
        kind,
        place: 8 * (offset + 1000),
        owner: Some(DIR),
        uuid,
    };
    seal(&stated, block);
    sealed(&stated, block)
}

/// The directory as it is seen once its blocks are placed and sealed.
fn placed(rt: &impl Abort, alloc: Global, image: DirImage) -> DirSeen
    ensures mapped { length result.blocks ≡ length result.offsets.items }
    ensures ascending { OffsetsAscend 0 result.offsets.items }
{
    let DirImage {
        short: _,
        data_blocks,
        index_blocks,
        free_blocks,
        mut blocks,
    } = image;
    let most = 0x80_0000;
    sure(rt, data_blocks <= most, "data blocks");
    sure(rt, index_blocks <= most, "index blocks");
    sure(rt, free_blocks <= most, "free blocks");
    let count = data_blocks + index_blocks + free_blocks;
    let mut offsets = Vec::new(alloc);
    for i in 0..count {
        let offset = file_block(i, data_blocks, index_blocks);
        sure(rt, (i as usize) < blocks.len(), "a block of the bank");
        compare_at(
            rt,
            &place(offset, blocks.view_mut(i as usize)),
            &true,
            &offset,
        );
        must(rt, offsets.push(offset));
    }
    assert_ascending(rt, 0, offsets.as_slice());
    sure(rt, offsets.len() == blocks.len(), "blocks");
    DirSeen {
        dir: DIR,
        size: 4096 * data_blocks,
        offsets,
        blocks,
    }
}

/// How many names there are, the form, the numbers of data, index and free blocks, the bytes of the short form, how many
/// entries the blocks from one on up to another have each, `.` and `..` among those of the first data block, and where
/// an address of a pair stands: the block, and the byte offset in it.
const ROWS: &str = "\
0 short | (0, 0, 0) | 6 |
23 short | (0, 0, 0) | 328 |
24 single | (1, 0, 0) | 0 | | 0 3892
40 single | (1, 0, 0) | 0 | | 0 3764
400 leaf | (3, 1, 0) | 0 | 0 2 168, 2 3 66 | 3 92
20000 node | (120, 41, 1) | 0 | 0 119 168, 119 120 10, 120 121 40, 121 123 501, 123 161 500 | 125 92
";

/// How many entries a block has: the names of a data block, the pairs of an index block.
fn share(rt: &impl Abort, alloc: Global, image: &DirImage, block: usize) -> usize {
    sure(rt, block < image.blocks.len(), "a block of the image");
    let bytes = image.blocks.view(block);
    if block as u64 >= image.data_blocks {
        return get16(bytes, 56) as usize;
    }
    match read_data(alloc, DIR, bytes, false) {
        Ok(data) => data.entries.len(),
        Err(_) => panic!(rt; "a block is not read"),
    }
}

/// Asserts that the blocks of a directory have the entries that are due.
fn assert_shares(rt: &impl Abort, alloc: Global, image: &DirImage, shares: &str) {
    for i in 0..part_count(shares) {
        assert_share(rt, alloc, image, part_at(shares, i));
    }
}

/// Asserts that the blocks of a part have as many entries as it says.
fn assert_share(rt: &impl Abort, alloc: Global, image: &DirImage, mut row: Row) {
    let (first, end) = (row.number(rt), row.number(rt));
    let due: usize = row.number(rt);
    for block in first..end {
        compare_at(rt, &share(rt, alloc, image, block), &due, &block);
    }
}

/// Asserts that what is built of a row is as the row says, and whole, and is not with another address.
fn assert_row(rt: &(impl Abort + AllocGlobal), line: &str) {
    let alloc = rt.alloc();
    let mut row = Row::new(line);
    let (count, form) = (row.number(rt), row.word());
    sure(rt, count <= 20000, line);
    let image = must(rt, built(alloc, count));
    assert_image(rt, &image, &mut row, line);
    let dir = placed(rt, alloc, image);
    if form != "short" {
        assert_dir(rt, form, dir, row, line);
    }
}

/// Asserts that the numbers of blocks, the short form and the shares of the blocks are as the row says.
fn assert_image(rt: &(impl Abort + AllocGlobal), image: &DirImage, row: &mut Row<'_>, line: &str) {
    let blocks = (image.data_blocks, image.index_blocks, image.free_blocks);
    tells(rt, &blocks, row.text(), line);
    row.tells_number(rt, image.short.len() as u64, line);
    assert_shares(rt, rt.alloc(), image, row.text());
}

/// Asserts that a directory is whole, and is not with another address.
fn assert_dir(
    rt: &(impl Abort + AllocGlobal),
    form: &str,
    mut dir: DirSeen,
    mut row: Row,
    line: &str,
)
    requires mapped { length dir.blocks ≡ length dir.offsets.items }
    requires ascending { OffsetsAscend 0 dir.offsets.items }
{
    let alloc = rt.alloc();
    tells(rt, &check(alloc, form, &dir), "Ok(())", line);
    let (block, at) = (row.number(rt), row.number(rt));
    sure(rt, block < dir.blocks.len(), line);
    sure(rt, at < 4000, line);
    let bytes = dir.blocks.view_mut(block);
    let address = get32(bytes, at);
    put32(bytes, at, address.wrapping_add(1));
    sure(rt, dir.blocks.len() == dir.offsets.len(), line);
    tells(rt, &check(alloc, form, &dir), "Err(Unsound)", line);
    drop(dir);
}

#[test]
fn forms(rt: HostRuntime) {
    for i in 0..line_count(ROWS) {
        let line = line_at(ROWS, i);
        assert_row(&rt, line);
    }
}
