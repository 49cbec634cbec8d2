//! The tree of the owners of a group's blocks (chapter "Reverse-Mapping B+tree").

ghost use Rattle.std.specs.Prelude.{◌≡◌, true, false};

use crate::owners::{
    RmapKey, follows_end, high_key, is_owned_run, key_order, low_key, put_key, put_owner, read_key,
    read_owner,
};
use std::cmp::Ordering;
use xfs_geom::{Geometry, RmapRec};
use xfs_tree::Kind;

/// The trees of the owners of an allocation group's blocks, ordered by block, owner and offset word.
#[derive(Clone, Copy)]
pub struct Rmap {
    pub ag: u32,
}

impl Kind for Rmap {
    ghost use Rattle.std.proofs.Common.{rules, refl};
    ghost use Rattle.xfs_kinds.specs.OwnerTrees.{rmap_shape};
    ghost use Rattle.xfs_kinds.specs.OwnerTreeLaws.{rmap_kind};

    type Record = RmapRec;

    type Key = RmapKey;

    const MAGIC: u32 = 0x524d_4233;

    const LONG: bool = false;

    const HIGH: bool = true;

    const RECORD_LEN: usize = 24;

    const KEY_LEN: usize = 20;

    const LEAF_CAP: u64 = 168;

    const NODE_CAP: u64 = 91;

    ghost MAGIC = { 0x524d_4233 };

    ghost LONG = { false };

    ghost HIGH = { true };

    ghost RECORD_LEN = { 24 };

    ghost KEY_LEN = { 20 };

    ghost LEAF_CAP = { 168 };

    ghost NODE_CAP = { 91 };

    ghost shape = { λ k. rmap_shape k.ag };

    fn owner(&self) -> u64 {
        self.ag as u64
    }

    fn read_record(&self, bytes: &[u8]) -> RmapRec {
        read_owner(bytes)
    }

    fn put_record(&self, item: &RmapRec, bytes: &mut [u8]) {
        put_owner(item, bytes);
    }

    fn read_key(&self, bytes: &[u8]) -> RmapKey {
        read_key(bytes)
    }

    fn put_key(&self, key: &RmapKey, bytes: &mut [u8]) {
        put_key(key, bytes);
    }

    fn low_key(&self, item: &RmapRec) -> RmapKey {
        low_key(item)
    }

    fn high_key(&self, item: &RmapRec) -> RmapKey {
        high_key(item)
    }

    fn order(&self, a: &RmapKey, b: &RmapKey) -> Ordering {
        key_order(a, b)
    }

    fn lawful(&self, g: &Geometry, before: Option<&RmapRec>, item: &RmapRec) -> bool {
        is_owned_run(g, self.ag, item) && follows_end(before, item)
    }

    ghost numbers = { λ _. refl };

    ghost compared = { λ _ a b. refl };

    ghost same = { Prim.search rules };

    ghost kind = { λ k. rmap_kind k.ag };
}
