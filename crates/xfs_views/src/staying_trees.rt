//! Laws about trees that stay. The function does nothing; its contract is the law.

ghost use Rattle.std.specs.Prelude.{◌≡◌, ℕ, List, Ok};
ghost use Rattle.xfs_disk.specs.Blocks.{Image};
ghost use Rattle.xfs_geom.specs.Volumes.{Volume};
ghost use Rattle.xfs_tree.specs.Reading.{Contents, reading};
ghost use Rattle.xfs_tree.specs.Shape.{Shape};
ghost use Rattle.xfs_tree.specs.declared.seats.Seat.{Seat};
ghost use Rattle.xfs_views.specs.Same.{HoldSameBytes};

/// A tree reads as it did where its own blocks hold the same bytes, whatever the rest of the image holds.
pub fn trees_stay<R, K>()
    ensures stays { (s : Shape R K) (v : Volume) (image now : Image) (tops : List (Seat K)) (height : ℕ) (tree : Contents R)
        → reading s v image tops height ≡ Ok tree → HoldSameBytes image now tree.blocks → reading s v now tops height ≡ Ok tree }
{}
