//! The trees of a group's chunks of inodes: of all, and of those with a free inode (chapter "AG Inode
//! Management").

ghost use Rattle.std.specs.Prelude.{◌≡◌, true, false};

use crate::chunks::{ascends_inode, is_chunk, put_chunk, put_startino, read_chunk};
use crate::layouts::inode_chunk::STARTINO;
use std::cmp::Ordering;
use xfs_geom::{Geometry, InoRec};
use xfs_tree::Kind;
use xfs_word::get32;

/// The trees of the chunks of inodes of an allocation group, ordered by inode number.
#[derive(Clone, Copy)]
pub struct Ino {
    pub ag: u32,
}

/// The trees of the chunks of an allocation group that have a free inode, ordered by inode number.
#[derive(Clone, Copy)]
pub struct Fino {
    pub ag: u32,
}

impl Kind for Ino {
    ghost use Rattle.std.proofs.Common.{rules, refl};
    ghost use Rattle.xfs_kinds.specs.InodeTrees.{ino_shape};
    ghost use Rattle.xfs_kinds.specs.InodeTreeLaws.{ino_kind};

    type Record = InoRec;

    type Key = u32;

    const MAGIC: u32 = 0x4941_4233;

    const LONG: bool = false;

    const HIGH: bool = false;

    const RECORD_LEN: usize = 16;

    const KEY_LEN: usize = 4;

    const LEAF_CAP: u64 = 252;

    const NODE_CAP: u64 = 505;

    ghost MAGIC = { 0x4941_4233 };

    ghost LONG = { false };

    ghost HIGH = { false };

    ghost RECORD_LEN = { 16 };

    ghost KEY_LEN = { 4 };

    ghost LEAF_CAP = { 252 };

    ghost NODE_CAP = { 505 };

    ghost shape = { λ k. ino_shape k.ag };

    fn owner(&self) -> u64 {
        self.ag as u64
    }

    fn read_record(&self, bytes: &[u8]) -> InoRec {
        read_chunk(bytes)
    }

    fn put_record(&self, item: &InoRec, bytes: &mut [u8]) {
        put_chunk(item, bytes);
    }

    fn read_key(&self, bytes: &[u8]) -> u32 {
        get32(bytes, STARTINO.offset)
    }

    fn put_key(&self, key: &u32, bytes: &mut [u8]) {
        put_startino(*key, bytes);
    }

    fn low_key(&self, item: &InoRec) -> u32 {
        item.startino
    }

    fn high_key(&self, item: &InoRec) -> u32 {
        item.startino
    }

    fn order(&self, a: &u32, b: &u32) -> Ordering {
        a.cmp(b)
    }

    fn lawful(&self, g: &Geometry, before: Option<&InoRec>, item: &InoRec) -> bool {
        is_chunk(g, self.ag, item) && ascends_inode(before, item)
    }

    ghost numbers = { λ _. refl };

    ghost compared = { λ _ a b. refl };

    ghost same = { Prim.search rules };

    ghost kind = { λ k. ino_kind k.ag };
}

impl Kind for Fino {
    ghost use Rattle.std.proofs.Common.{rules, refl};
    ghost use Rattle.xfs_kinds.specs.InodeTrees.{fino_shape};
    ghost use Rattle.xfs_kinds.specs.InodeTreeLaws.{fino_kind};

    type Record = InoRec;

    type Key = u32;

    const MAGIC: u32 = 0x4649_4233;

    const LONG: bool = false;

    const HIGH: bool = false;

    const RECORD_LEN: usize = 16;

    const KEY_LEN: usize = 4;

    const LEAF_CAP: u64 = 252;

    const NODE_CAP: u64 = 505;

    ghost MAGIC = { 0x4649_4233 };

    ghost LONG = { false };

    ghost HIGH = { false };

    ghost RECORD_LEN = { 16 };

    ghost KEY_LEN = { 4 };

    ghost LEAF_CAP = { 252 };

    ghost NODE_CAP = { 505 };

    ghost shape = { λ k. fino_shape k.ag };

    fn owner(&self) -> u64 {
        self.ag as u64
    }

    fn read_record(&self, bytes: &[u8]) -> InoRec {
        read_chunk(bytes)
    }

    fn put_record(&self, item: &InoRec, bytes: &mut [u8]) {
        put_chunk(item, bytes);
    }

    fn read_key(&self, bytes: &[u8]) -> u32 {
        get32(bytes, STARTINO.offset)
    }

    fn put_key(&self, key: &u32, bytes: &mut [u8]) {
        put_startino(*key, bytes);
    }

    fn low_key(&self, item: &InoRec) -> u32 {
        item.startino
    }

    fn high_key(&self, item: &InoRec) -> u32 {
        item.startino
    }

    fn order(&self, a: &u32, b: &u32) -> Ordering {
        a.cmp(b)
    }

    fn lawful(&self, g: &Geometry, before: Option<&InoRec>, item: &InoRec) -> bool {
        is_chunk(g, self.ag, item) && ascends_inode(before, item)
    }

    ghost numbers = { λ _. refl };

    ghost compared = { λ _ a b. refl };

    ghost same = { Prim.search rules };

    ghost kind = { λ k. fino_kind k.ag };
}
