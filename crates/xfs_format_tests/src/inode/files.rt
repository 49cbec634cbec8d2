//! Slots with the blocks that they name.

ghost use Rattle.std.specs.Prelude.{◌≡◌, ◌<◌, length, IfSome};
ghost use Rattle.std.specs.Option.{option_copied};
ghost use Rattle.xfs_word.specs.Seal.{layout_of};

use super::*;
use crate::checks::must;
use crate::text::{Row, line_at, line_count, put_parts, tells};
use std::alloc::Global;
use xfs_disk::{BLOCK_SIZE, NoMemory};
use xfs_kinds::Bmbt;
use xfs_tree::Tree;
use xfs_word::{Extent, Seal, SealKind};

/// How a slot reads.
#[derive(Debug, Drop)]
enum Kind {
    Free,
    File,
    /// A symbolic link to `a/b/c`.
    Link,
    WithoutAttrs,
    Unsupported(u8),
    Unsound,
}

/// The files of a slot alone: the case, how it reads, and the bytes that differ from the fresh file's. Extents name block 24,
/// 25 or 30, at file block 0 or 1.
const OWN: &str = "\
a file | File |
free | Free | 2 0000
another number | Unsound | 159 84
shared blocks | Unsupported(4) | 127 02
one block more | Unsound | 71 02
all blocks | Unsound | 64 ffffffffffffffff
another type | Unsound | 2 31
a negative size | Unsound | 56 80
the greatest size | File | 56 7fffffffffffffff
two extents | File | 71 02, 79 02, 192 00000000000002000000000003200001
a block twice | Unsound | 71 02, 79 02, 192 00000000000002000000000003000001
an extent before | Unsound | 71 02, 79 02, 176 00000000000002000000000003200001, 192 00000000000000000000000003000001
an extent of no block | Unsound | 71 00, 191 00
more extents than fit | Unsound | 82 0102
all extents | Unsound | 76 ffffffff
an empty attribute fork | File | 82 2902
a fork past the slot | Unsound | 82 2a02
a fork far past the slot | Unsound | 82 ff02
attributes of no fork | Unsound | 81 01
a form of no fork | Unsound | 83 01
another form of attributes | WithoutAttrs | 82 1804
short attributes | File | 82 1801, 368 000f010007010473656c696e757878
broken attributes | WithoutAttrs | 82 1801, 368 000e010007010473656c696e757878
broken attributes and one block more | WithoutAttrs | 71 02, 82 1801
a tree that does not read | Unsound | 5 03
a device | File | 2 21, 5 00, 71 00, 79 00
a device with an extent | Unsound | 2 21, 5 00, 71 00
a device with extents | Unsound | 2 21
a directory in short form | File | 2 41, 5 01, 62 0150, 71 00, 79 00
a directory with too short a fork | Unsound | 2 41, 5 01, 62 0006, 71 00, 79 00, 82 0502
";

/// The files with a leaf of attributes in block 30.
const WITH_LEAF: &str = "\
a leaf | File | 71 02, 80 00011802, 368 00000000000000000000000003c00001
one block more | WithoutAttrs | 71 03, 80 00011802, 368 00000000000000000000000003c00001
a leaf behind | WithoutAttrs | 71 02, 80 00011802, 368 00000000000002000000000003c00001
a leaf that is data too | WithoutAttrs | 71 02, 80 00011802, 176 00000000000000000000000003c00001, 368 00000000000000000000000003c00001
all blocks | WithoutAttrs | 64 ffffffffffffffff, 80 00011802, 368 00000000000000000000000003c00001
all leaves | Unsupported(2) | 80 ffff1802, 368 00000000000000000000000003c00001
";

/// A leaf of attributes without any, a node over leaves, and a leaf with an entry whose value lies outside it.
const LEAF: &str = "8 3bee, 23 f0, 32 00112233445566778899aabbccddeeff, 55 83, 60 1000";

const NODE: &str = "8 3ebe, 23 f0, 32 00112233445566778899aabbccddeeff, 55 83, 60 1000";

const REMOTE: &str = "8 3bee, 23 f0, 32 00112233445566778899aabbccddeeff, 55 830001";

/// The files of which block 30 is no leaf, a node over leaves, and a leaf with a value outside it.
const WITHOUT_LEAF: &str = "\
no leaf | WithoutAttrs | 71 02, 80 00011802, 368 00000000000000000000000003c00001
";

const WITH_NODE: &str = "\
a node | Unsupported(2) | 80 00011802, 368 00000000000000000000000003c00001
a node behind | Unsupported(2) | 5 09, 80 00011802, 368 00000000000002000000000003c00001
";

const WITH_REMOTE: &str = "\
a remote value | Unsupported(1) | 80 00011802, 368 00000000000000000000000003c00001
";

/// Symbolic links.
const LINKS: &str = "\
a link of one block | Link | 2 a1, 62 0005, 176 00000000000000000000000003c00001
one byte more | Unsound | 2 a1, 62 0006, 176 00000000000000000000000003c00001
no bytes | Unsound | 2 a1, 62 0000, 176 00000000000000000000000003c00001
a link behind | Unsound | 2 a1, 62 0005, 176 00000000000002000000000003c00001
a short link | Link | 2 a1, 5 01, 62 0005, 71 00, 79 00, 176 612f622f63
a short link of no bytes | Unsound | 2 a1, 5 01, 62 0000, 71 00, 79 00
";

/// The target of a symbolic link, `a/b/c`.
const LINK: &str =
    "0 58534c4d, 11 05, 16 00112233445566778899aabbccddeeff, 39 83, 47 f0, 56 612f622f63";

/// The files with a tree of 300 extents.
const TREES: &str = "\
a tree | File | 5 03, 70 012e, 78 012c
one extent less | Unsound | 5 03, 70 012e, 78 012b
one block less | Unsound | 5 03, 70 012d, 78 012c
";

/// How a slot reads.
fn kind_of(rt: &impl Abort, read: Result<FileRead, NoMemory>) -> Kind {
    match read {
        Ok(FileRead::Free) => Kind::Free,
        Ok(FileRead::File(file)) => {
            if file.as_file().rest.target() == b"a/b/c".as_slice() {
                Kind::Link
            } else {
                Kind::File
            }
        }
        Ok(FileRead::FileWithoutAttrs(_)) => Kind::WithoutAttrs,
        Ok(FileRead::Unsupported { what }) => Kind::Unsupported(what),
        Ok(FileRead::Unsound) => Kind::Unsound,
        Err(_) => panic!(rt; "there is memory"),
    }
}

/// Tests how slots read with an extent tree and the blocks that they name.
fn read_rows(
    rt: &(impl Abort + AllocGlobal),
    rows: &str,
    tree: Option<&Tree<Bmbt>>,
    attr_leaf: Option<&[u8]>,
    link: Option<&[u8]>,
)
    requires attr_leaf { IfSome (option_copied attr_leaf) (λ block. length block ≡ 4096) }
    requires link { IfSome (option_copied link) (λ block. length block ≡ 4096) }
{
    let g = geometry();
    for i in 0..line_count(rows) {
        let line = line_at(rows, i);
        let mut row = Row::new(line);
        let (case, due) = (row.text(), row.text());
        let slot = file_with(rt, row.text());
        let read = decide_file(rt.alloc(), &g, 131, &slot, tree, attr_leaf, link);
        tells(rt, &kind_of(rt, read), due, case);
    }
}

/// Block 30 of inode 131 with these parts, sealed.
fn block_with(rt: &(impl Abort + AllocGlobal), kind: SealKind, parts: &str) -> [u8; BLOCK_SIZE]
    requires { (layout_of kind).size ≡ 4096 }
{
    let mut block = [0; BLOCK_SIZE];
    put_parts(rt, &mut block, parts);
    let wanted = Seal {
        kind,
        place: 240,
        owner: Some(131),
        uuid: IDENTIFIER,
    };
    seal(&wanted, &mut block);
    block
}

/// A tree of 300 extents of one block at every other file block, in blocks from 302 on, with tree blocks 300 and 301.
fn tree(rt: &impl Abort, alloc: Global) -> Tree<Bmbt> {
    let mut records = Vec::new(alloc);
    for i in 0..300 {
        must(rt, records.push(extent(i)));
    }
    let blocks = must(rt, vec![in alloc; 300, 301]);
    Tree { records, blocks }
}

/// The extent of this number.
fn extent(i: u64) -> Extent
    requires { i < 300 }
{
    Extent {
        offset: 2 * i,
        start: 302 + i,
        count: 1,
        unwritten: i == 299,
    }
}

/// Reads the rows with an index block of these parts.
fn read_index_rows(rt: &(impl Abort + AllocGlobal), rows: &str, magic: u16, parts: &str) {
    let block = block_with(rt, SealKind::Index { magic }, parts);
    read_rows(rt, rows, None, Some(&block), None);
}

/// Reads the rows with a block of a symbolic link of these parts.
fn read_link_rows(rt: &(impl Abort + AllocGlobal), rows: &str, parts: &str) {
    let block = block_with(rt, SealKind::Symlink, parts);
    read_rows(rt, rows, None, None, Some(&block));
}

/// Reads the rows with the tree.
fn read_tree_rows(rt: &(impl Abort + AllocGlobal), rows: &str) {
    let tree = tree(rt, rt.alloc());
    read_rows(rt, rows, Some(&tree), None, None);
}

#[test]
fn files(rt: HostRuntime) {
    let rt = &rt;
    read_rows(rt, OWN, None, None, None);
    read_index_rows(rt, WITH_LEAF, 0x3bee, LEAF);
    read_rows(rt, WITHOUT_LEAF, None, Some(&[0; BLOCK_SIZE]), None);
    read_index_rows(rt, WITH_NODE, 0x3ebe, NODE);
    read_index_rows(rt, WITH_REMOTE, 0x3bee, REMOTE);
    read_link_rows(rt, LINKS, LINK);
    read_tree_rows(rt, TREES);
}
