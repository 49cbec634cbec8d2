//! Trees of two levels whose blocks break one rule each.

ghost use Rattle.std.specs.Prelude.{◌≡◌, ◌+◌, ◌<◌, ◌≤◌, length};

use super::volume;
use crate::checks::equal;
use crate::text::refuse;
use std::alloc::Global;
use std::marker::Brand;
use std::sync::ledger::{Blank, Ledger};
use xfs_collections::Steps;
use xfs_disk::{Disk, Failed, NoMemory};
use xfs_kinds::{Ino, Rmap};
use xfs_memory::MemoryDisk;
use xfs_tree::{Kind, Tree, TreeFault, Unread, read_tree};
use xfs_word::{Seal, SealKind, put_part, put16, put32, put64, seal};

/// No sibling.
const NONE: u32 = u32::MAX;

/// A sealed block of a tree of the first group: its magic number, its level and how many it holds, its siblings,
/// and numbers of four bytes at byte offsets.
fn block(
    magic: u32,
    place: u32,
    level: u16,
    count: u16,
    siblings: [u32; 2],
    numbers: &[(usize, u32)],
) -> [u8; 4096] {
    let mut bytes = [0; 4096];
    put32(&mut bytes, 0, magic);
    put16(&mut bytes, 4, level);
    put16(&mut bytes, 6, count);
    put32(&mut bytes, 8, siblings[0]);
    put32(&mut bytes, 12, siblings[1]);
    put64(&mut bytes, 16, 8 * place as u64);
    put_part(&mut bytes, 32, &[7; 16]);
    for (at, number) in numbers {
        if *at <= 4092 {
            put32(&mut bytes, *at, *number);
        }
    }
    let what = Seal {
        kind: SealKind::ShortTree { magic },
        place: 8 * place as u64,
        owner: Some(0),
        uuid: [7; 16],
    };
    seal(&what, &mut bytes);
    bytes
}

/// What the tree with a root at block 20 over a leaf at block 21 reads as.
fn reading<K: Kind, L: Ledger>(
    alloc: Global,
    kind: &K,
    root: &[u8; 4096],
    leaf: &[u8; 4096],
    blank: Blank,
) -> Result<Tree<K>, TreeFault>
    requires name { blank.name ≡ L.name }
    requires parts { blank.parts ≡ L.parts }
    requires some { 0 < blank.parts }
{
    let mut steps = Steps::<L>::from_blank(blank);
    let mut disk = match MemoryDisk::make(alloc, 2048) {
        Ok(disk) => disk,
        Err(NoMemory) => return Err(TreeFault::NoMemory),
    };
    match disk.write(20, root).and(disk.write(21, leaf)) {
        Ok(()) => read_tree(alloc, kind, &volume(), &mut disk, 20, 2, &mut steps),
        Err(Failed) => Err(TreeFault::ReadFault),
    }
}

#[test]
fn one_child_twice(rt: HostRuntime) {
    let rt = &rt;
    let magic = 0x4941_4233;
    let root = block(
        magic,
        20,
        1,
        2,
        [NONE, NONE],
        &[(56, 128), (60, 192), (2076, 21), (2080, 21)],
    );
    let leaf = block(magic, 21, 0, 1, [NONE, 21], &[(56, 128), (60, 0x0000_4000)]);
    match reading::<Ino, Brand>(rt.alloc(), &Ino { ag: 0 }, &root, &leaf, Blank::new(1)) {
        Err(fault) => equal(rt, fault, TreeFault::Unread(Unread { block: 21, rule: 2 })),
        Ok(_) => refuse(rt, "the tree is read", ""),
    }
}

#[test]
fn keys_of_owners(rt: HostRuntime) {
    let rt = &rt;
    let magic = 0x524d_4233;
    let leaf = block(
        magic,
        21,
        0,
        1,
        [NONE, NONE],
        &[(56, 40), (60, 5), (68, 131)],
    );
    for (low, high, rule) in [
        (40, 44, 0),
        (39, 44, 7),
        (41, 44, 7),
        (40, 43, 7),
        (40, 45, 7),
    ] {
        let keys = [
            (56, low),
            (64, 131),
            (76, high),
            (84, 131),
            (92, 4),
            (3696, 21),
        ];
        let root = block(magic, 20, 1, 1, [NONE, NONE], &keys);
        match reading::<Rmap, Brand>(rt.alloc(), &Rmap { ag: 0 }, &root, &leaf, Blank::new(1)) {
            Err(fault) => equal(rt, fault, TreeFault::Unread(Unread { block: 21, rule })),
            Ok(tree) => equal(rt, (tree.records.len(), rule), (1, 0)),
        }
    }
}
