//! Writes the leaves of a packed tree.

ghost use Rattle.std.specs.Prelude.{◌≡◌, ℕ, ◌+◌, ◌*◌, ◌^◌, ◌<◌, ◌≤◌, length, map, slice_index_or, IsTrue};
ghost use Rattle.std.specs.List.{All};
ghost use Rattle.xfs_word.specs.Field.{KeepsParts};
ghost use Rattle.xfs_geom.specs.Volumes.{volume_of};
ghost use Rattle.xfs_tree.specs.Layout.{header_len};
ghost use Rattle.xfs_tree.specs.Blocks.{record_place, record_at};
ghost use Rattle.xfs_tree.specs.Rules.{can_hold};
ghost use Rattle.xfs_treebuild.specs.Packing.{block_of_part};
ghost use Rattle.xfs_treebuild.specs.Private.Placed.{IsLeafAt};

use crate::blocks::{clear_block, put_block};
use crate::heads::put_head;
use xfs_disk::share_of;
use xfs_geom::Geometry;
use xfs_tree::{Kind, tree_layout};

/// Writes the leaves of these records into the first blocks of `part`, which are to lie at the places of
/// `row`.
pub(crate) fn write_leaves<K: Kind>(
    kind: &K,
    g: &Geometry,
    records: &[K::Record],
    row: &[u64],
    part: &mut [u8],
)
    requires fits { All (λ r. IsTrue ((K.shape kind.now).fits r)) records.now }
    requires few { length records.now < 2 ^ 62 }
    requires room { length records.now ≤ length row.now * (K.shape kind.now).layout.leaf_cap }
    requires part { 4096 * length row.now ≤ length part.old }
    requires can_hold { All (λ place. IsTrue (can_hold (volume_of g.now) (K.shape kind.now).layout (K.shape kind.now).owner place)) row.now }
    ensures leaves { (i : ℕ) → i < length row.now → IsLeafAt (K.shape kind.now) (volume_of g.now) (map (K.shape kind.now).settled records.now) row.now i (block_of_part part.new i) }
{
    let mut first = 0;
    for i in 0..row.len() {
        let share = share_of(records.len(), row.len(), i);
        let mut block = clear_block();
        put_records(kind, &records[first..first + share], &mut block);
        put_head(kind, g, 0, share, row, i, &mut block);
        put_block(part, i, &block);
        first += share;
    }
}

/// Writes the records of a leaf.
fn put_records<K: Kind>(kind: &K, records: &[K::Record], block: &mut [u8])
    requires block { length block.old ≡ 4096 }
    requires fits { All (λ r. IsTrue ((K.shape kind.now).fits r)) records.now }
    requires room { length records.now ≤ (K.shape kind.now).layout.leaf_cap }
    ensures put { (k : ℕ) (d : K.Record) → k < length records.now
        → record_at (K.shape kind.now) block.new k ≡ (K.shape kind.now).settled (slice_index_or records.now k d) }
    ensures keeps_parts { KeepsParts block.old block.new (header_len (K.shape kind.now).layout) (length records.now * (K.shape kind.now).layout.record_len) }
{
    for (i, item) in records.iter().enumerate() {
        put_record_at(kind, item, i, block);
    }
}

/// Writes a record of a leaf.
fn put_record_at<K: Kind>(kind: &K, item: &K::Record, i: usize, block: &mut [u8])
    requires block { length block.old ≡ 4096 }
    requires inside { i < (K.shape kind.now).layout.leaf_cap }
    requires fits { IsTrue ((K.shape kind.now).fits item.now) }
    ensures put { record_at (K.shape kind.now) block.new i ≡ (K.shape kind.now).settled item.now }
    ensures keeps_parts { KeepsParts block.old block.new (record_place (K.shape kind.now).layout i) (K.shape kind.now).layout.record_len }
{
    let layout = tree_layout(kind);
    let at = layout.record_place(i);
    kind.put_record(item, &mut block[at..at + layout.record_len]);
}
