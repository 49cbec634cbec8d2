//! A law about the blocks that are taken. The function does nothing; its contract is the law.

ghost use Rattle.std.specs.Prelude.{ℕ, List};
ghost use Rattle.xfs_geom.specs.Volumes.{volume_of};
ghost use Rattle.xfs_geom.specs.declared.geometry.Geometry.{Geometry};
ghost use Rattle.xfs_volume.specs.declared.clusters.ClusterRec.{ClusterRec};
ghost use Rattle.xfs_volume.specs.declared.files.FileRec.{FileRec};
ghost use Rattle.xfs_place.specs.Wanted.{CanBeKept, kept_runs};
ghost use Rattle.xfs_request.specs.xfs_salvage.Claimable.{CanBeSalvaged};
ghost use Rattle.xfs_request.specs.xfs_salvage.declared.found.Salvaged.{Salvaged};
ghost use Rattle.xfs_request.specs.Requests.{volume_wanted};
ghost use Rattle.xfs_made.specs.Handed.{IsKeptOf};

/// The blocks that a request takes are blocks of the volume, none of them fixed and none of two runs: so `place` can place beside
/// them.
pub fn requests_can_be_placed()
    ensures { (g : Geometry) (clusters : List ClusterRec) (files : List FileRec) (kept : Salvaged) (reserved : List ℕ)
        → CanBeSalvaged (volume_of g) clusters files → IsKeptOf (volume_of g) clusters files kept
        → CanBeKept (volume_of g) (kept_runs (volume_wanted g kept reserved)) }
{}
