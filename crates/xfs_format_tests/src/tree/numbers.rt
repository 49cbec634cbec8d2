//! A kind of tree for tests: ascending numbers of four bytes, each its own key.

ghost use Rattle.std.specs.Prelude.{◌≡◌, ℕ, true, false};

use std::cmp::Ordering;
use xfs_geom::Geometry;
use xfs_tree::Kind;

/// Trees of numbers of an allocation group.
#[derive(Clone, Copy, Debug)]
pub struct Numbers {
    pub ag: u32,
}

impl Kind for Numbers {
    ghost use Rattle.std.proofs.Common.{rules, refl};
    ghost use Rattle.xfs_format_tests.specs.Numbers.{numbers_shape};
    ghost use Rattle.xfs_format_tests.specs.NumberLaws.{numbers_kind};

    type Record = u32;

    type Key = u32;

    const MAGIC: u32 = 7;

    const LONG: bool = false;

    const HIGH: bool = false;

    const RECORD_LEN: usize = 4;

    const KEY_LEN: usize = 4;

    const LEAF_CAP: u64 = 3;

    const NODE_CAP: u64 = 2;

    ghost MAGIC = { 7 };

    ghost LONG = { false };

    ghost HIGH = { false };

    ghost RECORD_LEN = { 4 };

    ghost KEY_LEN = { 4 };

    ghost LEAF_CAP = { 3 };

    ghost NODE_CAP = { 2 };

    ghost shape = { λ k. numbers_shape k.ag };

    fn owner(&self) -> u64 {
        self.ag as u64
    }

    fn read_record(&self, bytes: &[u8]) -> u32 {
        u32::from_be_bytes([bytes[0], bytes[1], bytes[2], bytes[3]])
    }

    fn put_record(&self, item: &u32, bytes: &mut [u8]) {
        bytes.copy_from_slice(&item.to_be_bytes());
    }

    fn read_key(&self, bytes: &[u8]) -> u32 {
        u32::from_be_bytes([bytes[0], bytes[1], bytes[2], bytes[3]])
    }

    fn put_key(&self, key: &u32, bytes: &mut [u8]) {
        bytes.copy_from_slice(&key.to_be_bytes());
    }

    fn low_key(&self, item: &u32) -> u32 {
        *item
    }

    fn high_key(&self, item: &u32) -> u32 {
        *item
    }

    fn order(&self, a: &u32, b: &u32) -> Ordering {
        a.cmp(b)
    }

    fn lawful(&self, g: &Geometry, before: Option<&u32>, item: &u32) -> bool {
        let number = *item;
        match before {
            Some(before) => *before < number,
            None => true,
        }
    }

    ghost numbers = { λ _. refl };

    ghost compared = { λ _ a b. refl };

    ghost same = { Prim.search rules };

    ghost kind = { λ k. numbers_kind k.ag };
}
