//! Laws about the blocks of what is kept. Each function does nothing; its contract is the law.

ghost use Rattle.std.specs.Prelude.{List};
ghost use Rattle.xfs_geom.specs.Volumes.{volume_of};
ghost use Rattle.xfs_geom.specs.declared.geometry.Geometry.{Geometry};
ghost use Rattle.xfs_volume.specs.declared.clusters.ClusterRec.{ClusterRec};
ghost use Rattle.xfs_volume.specs.declared.files.FileRec.{FileRec};
ghost use Rattle.xfs_place.specs.Wanted.{CanBeKept};
ghost use Rattle.xfs_request.specs.xfs_salvage.Claimable.{CanBeSalvaged};
ghost use Rattle.xfs_request.specs.xfs_salvage.Kept.{taken_in};

/// The runs of the kept clusters and files are blocks of the volume, with owners as a lawful owner record has them; none
/// of them has a fixed use, and none is of two of the runs.
pub fn kept_claims_are_apart()
    ensures { (g : Geometry) (clusters : List ClusterRec) (files : List FileRec) → CanBeSalvaged (volume_of g) clusters files → CanBeKept (volume_of g) (taken_in (volume_of g) clusters files) }
{}
