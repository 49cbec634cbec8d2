//! The tree of a file's extents (chapter "Data Extents").

ghost use Rattle.std.specs.Prelude.{◌≡◌, ◌^◌, length, true, false, IsTrue};
ghost use Rattle.std.specs.Option.{option_copied};
ghost use Rattle.xfs_word.specs.Extent.{packed};
ghost use Rattle.xfs_geom.specs.Volumes.{volume_of};
ghost use Rattle.xfs_kinds.specs.FileTrees.{extent_of, fits_extent, is_extent, follows_offset, offset_bytes};

use crate::groups::{ends_by, lies_in_one_group};
use crate::layouts::extent_key::OFFSET;
use std::cmp::Ordering;
use xfs_geom::Geometry;
use xfs_tree::Kind;
use xfs_word::{Extent, get64, pack_extent, put64, unpack_extent};

/// The offset at which every extent of a file has to end at the latest, in blocks.
const LAST_END: u64 = (1 << 54) - 1;

/// The trees of the extents of a file, ordered by offset in the file. An extent's start is an address.
#[derive(Clone, Copy)]
pub struct Bmbt {
    pub ino: u64,
}

impl Kind for Bmbt {
    ghost use Rattle.std.proofs.Common.{rules, refl};
    ghost use Rattle.xfs_kinds.specs.FileTrees.{bmbt_shape};
    ghost use Rattle.xfs_kinds.specs.FileTreeLaws.{bmbt_kind};

    type Record = Extent;

    type Key = u64;

    const MAGIC: u32 = 0x424d_4133;

    const LONG: bool = true;

    const HIGH: bool = false;

    const RECORD_LEN: usize = 16;

    const KEY_LEN: usize = 8;

    const LEAF_CAP: u64 = 251;

    const NODE_CAP: u64 = 251;

    ghost MAGIC = { 0x424d_4133 };

    ghost LONG = { true };

    ghost HIGH = { false };

    ghost RECORD_LEN = { 16 };

    ghost KEY_LEN = { 8 };

    ghost LEAF_CAP = { 251 };

    ghost NODE_CAP = { 251 };

    ghost shape = { λ k. bmbt_shape k.ino };

    fn owner(&self) -> u64 {
        self.ino
    }

    fn read_record(&self, bytes: &[u8]) -> Extent {
        read_extent(bytes)
    }

    fn put_record(&self, item: &Extent, bytes: &mut [u8]) {
        put_extent(item, bytes);
    }

    fn read_key(&self, bytes: &[u8]) -> u64 {
        get64(bytes, OFFSET.offset)
    }

    fn put_key(&self, key: &u64, bytes: &mut [u8]) {
        put_offset(*key, bytes);
    }

    fn low_key(&self, item: &Extent) -> u64 {
        item.offset
    }

    fn high_key(&self, item: &Extent) -> u64 {
        item.offset
    }

    fn order(&self, a: &u64, b: &u64) -> Ordering {
        a.cmp(b)
    }

    fn lawful(&self, g: &Geometry, before: Option<&Extent>, item: &Extent) -> bool {
        is_extent(g, item) && follows_offset(before, item)
    }

    ghost numbers = { λ _. refl };

    ghost compared = { λ _ a b. refl };

    ghost same = { Prim.search rules };

    ghost kind = { λ k. bmbt_kind k.ino };
}

/// The extent in its 16 bytes.
fn read_extent(bytes: &[u8]) -> Extent
    requires { length bytes.now ≡ 16 }
    ensures { result ≡ extent_of bytes.now }
{
    let mut packed = [0; 16];
    packed.copy_from_slice(bytes);
    unpack_extent(&packed)
}

/// Writes an extent into its 16 bytes.
fn put_extent(extent: &Extent, bytes: &mut [u8])
    requires size { length bytes.old ≡ 16 }
    requires fits { IsTrue (fits_extent extent.now) }
    ensures { bytes.new ≡ packed extent.now }
{
    bytes.copy_from_slice(&pack_extent(extent));
}

/// Writes an offset into its 8 bytes.
fn put_offset(offset: u64, bytes: &mut [u8])
    requires { length bytes.old ≡ 8 }
    ensures { bytes.new ≡ offset_bytes offset }
{
    put64(bytes, OFFSET.offset, offset);
}

/// Whether an extent's numbers fit its packed form.
fn fits_extent(extent: &Extent) -> bool
    ensures { result ≡ fits_extent extent.now }
{
    extent.offset < 1 << 54 && extent.start < 1 << 52 && extent.count < 1 << 21
}

/// Whether these are some blocks inside one group, at offsets that a file can have.
fn is_extent(g: &Geometry, extent: &Extent) -> bool
    ensures { result ≡ is_extent (volume_of g.now) extent.now }
{
    fits_extent(extent)
        && 1 <= extent.count
        && ends_by(extent.offset, extent.count, LAST_END)
        && lies_in_one_group(g, extent.start, extent.count)
}

/// Whether an extent begins at or behind the offset at which the one before it ends.
fn follows_offset(before: Option<&Extent>, extent: &Extent) -> bool
    ensures { result ≡ follows_offset (option_copied before.entry) extent.now }
{
    match before {
        Some(before) => ends_by(before.offset, before.count, extent.offset),
        None => true,
    }
}
