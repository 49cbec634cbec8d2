//! A kind of tree: what its records and keys are, and when records are lawful.

ghost use Rattle.std.specs.Prelude.{◌≡◌, ℕ, ◌^◌, ◌<◌, Bool, true, false, List, length, IsTrue};
ghost use Rattle.std.specs.Option.{option_copied};
ghost use Rattle.xfs_geom.specs.Volumes.{volume_of};
ghost use Rattle.xfs_tree.specs.Layout.{IsLayout};
ghost use Rattle.xfs_tree.specs.Shape.{Shape, IsKind};

use crate::layout::Layout;
use std::cmp::Ordering;
use xfs_geom::Geometry;

/// A kind of tree. Contracts see its `shape`: its layout, and what its calls answer as functions on lists,
/// among them which records and keys can be put (`fits`, `fits_key`) and how a record that was put is read
/// (`settled`). A key has its unwritten bit 0, and where nodes have no high keys, a record's high key is
/// its low key.
pub trait Kind: Sync {
    type Record: Copy + Send + Sync;

    type Key: Copy + Eq + Send + Sync;

    const MAGIC: u32;

    /// Whether blocks begin with the long header.
    const LONG: bool;

    /// Whether the keys of a node are pairs of a low and a high key.
    const HIGH: bool;

    /// The bytes of a record.
    const RECORD_LEN: usize;

    /// The bytes of a key.
    const KEY_LEN: usize;

    /// The most records of a leaf.
    const LEAF_CAP: u64;

    /// The most children of a node.
    const NODE_CAP: u64;

    ghost MAGIC: { ℕ };

    ghost LONG: { Bool };

    ghost HIGH: { Bool };

    ghost RECORD_LEN: { ℕ };

    ghost KEY_LEN: { ℕ };

    ghost LEAF_CAP: { ℕ };

    ghost NODE_CAP: { ℕ };

    ghost shape: { Self → Shape Self.Record Self.Key };

    /// The allocation group or the inode whose tree it is.
    fn owner(&self) -> u64
        ensures value { result ≡ (shape self.now).owner }
        ensures short { LONG ≡ false → result < 2 ^ 32 };

    /// The record in these bytes.
    fn read_record(&self, bytes: &[u8]) -> Self::Record
        requires { length bytes.now ≡ RECORD_LEN }
        ensures { result ≡ (shape self.now).record_of bytes.now };

    /// Writes a record.
    fn put_record(&self, item: &Self::Record, bytes: &mut [u8])
        requires size { length bytes.old ≡ RECORD_LEN }
        requires fits { IsTrue ((shape self.now).fits item.now) }
        ensures { bytes.new ≡ (shape self.now).record_bytes item.now };

    /// The key in these bytes.
    fn read_key(&self, bytes: &[u8]) -> Self::Key
        requires { length bytes.now ≡ KEY_LEN }
        ensures { result ≡ (shape self.now).key_of bytes.now };

    /// Writes a key.
    fn put_key(&self, key: &Self::Key, bytes: &mut [u8])
        requires size { length bytes.old ≡ KEY_LEN }
        requires fits { IsTrue ((shape self.now).fits_key key.now) }
        ensures { bytes.new ≡ (shape self.now).key_bytes key.now };

    /// The key of a record: of its first block, inode or offset.
    fn low_key(&self, item: &Self::Record) -> Self::Key
        ensures { result ≡ (shape self.now).low item.now };

    /// The key of a record's last block.
    fn high_key(&self, item: &Self::Record) -> Self::Key
        ensures { result ≡ (shape self.now).high item.now };

    /// The order of two keys.
    fn order(&self, a: &Self::Key, b: &Self::Key) -> Ordering
        ensures { result ≡ (shape self.now).order a.now b.now };

    /// Whether a record is lawful behind another, or as the first.
    fn lawful(&self, g: &Geometry, before: Option<&Self::Record>, item: &Self::Record) -> bool
        ensures { result ≡ (shape self.now).lawful (volume_of g.now) (option_copied before.entry) item.now };

    // The constants are those of the shape.
    ghost numbers: { (k : Self) → (shape k).layout ≡ record { magic = MAGIC; long = LONG; high = HIGH; record_len = RECORD_LEN; key_len = KEY_LEN; leaf_cap = LEAF_CAP; node_cap = NODE_CAP } };

    // Keys are compared as the shape says, and keys that compare as equal are equal.
    ghost compared: { (k : Self) (a b : Self.Key) → Self.Key.eq a b ≡ (shape k).same a b };

    ghost same: { (a b : Self.Key) → Self.Key.eq a b ≡ true → a ≡ b };

    // What the shape keeps.
    ghost kind: { (k : Self) → IsKind (shape k) };
}

/// How the blocks of a kind are laid out.
pub fn tree_layout<K: Kind>(kind: &K) -> Layout
    ensures value { result ≡ (K.shape kind.now).layout }
    ensures sound { IsLayout result }
{
    Layout {
        magic: K::MAGIC,
        long: K::LONG,
        high: K::HIGH,
        record_len: K::RECORD_LEN,
        key_len: K::KEY_LEN,
        leaf_cap: K::LEAF_CAP,
        node_cap: K::NODE_CAP,
    }
}
