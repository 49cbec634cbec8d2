//! Packs records into a tree of as few blocks as hold them.

ghost use Rattle.std.specs.Prelude.{◌≡◌, ℕ, ◌+◌, ◌*◌, ◌^◌, ◌<◌, ◌≤◌, [], ◌∷◌, Ok, length, map, take, drop, None, IsTrue};
ghost use Rattle.std.specs.List.{All, sum};
ghost use Rattle.xfs_disk.specs.Blocks.{Image};
ghost use Rattle.xfs_geom.specs.Volumes.{volume_of};
ghost use Rattle.xfs_treebuild.specs.Size.{rows_of};
ghost use Rattle.xfs_tree.specs.Reading.{root_seat, reading};
ghost use Rattle.xfs_tree.specs.Rules.{are_lawful, can_hold};
ghost use Rattle.xfs_treebuild.specs.Exact.{IsExact};
ghost use Rattle.xfs_treebuild.specs.Packing.{block_of_part, lsn_of, are_different, root_of, rows_at, top_down, height_of, HoldsParts, IsPacked};

use crate::leaves::write_leaves;
use crate::nodes::write_nodes;
use crate::size::blocks_for;
use xfs_geom::Geometry;
use xfs_tree::{Kind, tree_layout};

/// Packs records into the blocks of a tree, which are to lie at these places: the leaves from the left, then
/// each level above. What a level holds is shared out among its blocks so that their counts differ by at
/// most one, larger ones first. `part` has 4096 bytes for each place. From the last place on, with the levels
/// that it has, what is packed is read back.
pub fn pack<K: Kind>(kind: &K, g: &Geometry, records: &[K::Record], places: &[u64], part: &mut [u8])
    requires lawful { IsTrue (are_lawful (K.shape kind.now) (volume_of g.now) None records.now) }
    requires few { length records.now < 2 ^ 62 }
    requires size { length places.now ≡ sum (rows_of (K.shape kind.now).layout.leaf_cap (K.shape kind.now).layout.node_cap (length records.now)) }
    requires part { length part.old ≡ 4096 * length places.now }
    requires can_hold { All (λ place. IsTrue (can_hold (volume_of g.now) (K.shape kind.now).layout (K.shape kind.now).owner place)) places.now }
    requires different { IsTrue (are_different places.now) }
    ensures len { length part.new ≡ length part.old }
    ensures lsns { (j : ℕ) → j < length places.now → lsn_of (K.shape kind.now).layout (block_of_part part.new j) ≡ 0 }
    ensures exact { (j : ℕ) → j < length places.now → IsExact (K.shape kind.now) (block_of_part part.new j) }
    ensures packed { (image : Image) → HoldsParts image places.now part.new
        → IsPacked (K.shape kind.now) (volume_of g.now) image (map (K.shape kind.now).settled records.now) places.now }
    ensures reads { (image : Image) → HoldsParts image places.now part.new
        → reading (K.shape kind.now) (volume_of g.now) image (root_seat (root_of places.now) ∷ []) (height_of (K.shape kind.now).layout (length records.now))
        ≡ Ok (record { records = map (K.shape kind.now).settled records.now; blocks = top_down (rows_at (K.shape kind.now).layout (length records.now) places.now) }) }
{
    let layout = tree_layout(kind);
    let mut level = 0;
    let mut first = 0;
    let mut count = blocks_for(layout.leaf_cap, records.len() as u64) as usize;
    write_leaves(kind, g, records, row_of(places, 0, count), part);
    while count > 1 {
        let above = blocks_for(layout.node_cap, count as u64) as usize;
        let below = row_of(places, first, count);
        let row = row_of(places, first + count, above);
        write_nodes(kind, g, level, first, below, row, part);
        level += 1;
        first += count;
        count = above;
    }
}

/// The places of the blocks from a number on.
fn row_of(places: &[u64], first: usize, count: usize) -> &[u64]
    requires { first + count ≤ length places.now }
    ensures value { result.now ≡ take count (drop first places.now) }
    ensures len { length result.now ≡ count }
{
    &places[first..first + count]
}
