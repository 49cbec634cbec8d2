//! A law about the order of what is kept. The function does nothing; its contract is the law.

ghost use Rattle.std.specs.Prelude.{List};
ghost use Rattle.std.specs.List.{All};
ghost use Rattle.xfs_geom.specs.Volumes.{Volume};
ghost use Rattle.xfs_volume.specs.declared.clusters.ClusterRec.{ClusterRec};
ghost use Rattle.xfs_volume.specs.declared.files.FileRec.{FileRec};
ghost use Rattle.xfs_naming.specs.Naming.{NumbersAscend, numbers_of};
ghost use Rattle.xfs_space.specs.Parts.{HasLawfulForks};
ghost use Rattle.xfs_request.specs.xfs_salvage.Claimable.{CanBeSalvaged};
ghost use Rattle.xfs_request.specs.xfs_salvage.Kept.{kept_clusters, kept_files};

/// The kept clusters ascend by block and the kept files by number, and the extents of each kept file lie in the volume: so what
/// is kept can be handed to whoever asks what the volume then needs.
pub fn what_is_kept_ascends()
    ensures clusters { (v : Volume) (clusters : List ClusterRec) (files : List FileRec) → NumbersAscend 0 (kept_clusters v clusters files) }
    ensures files { (v : Volume) (clusters : List ClusterRec) (files : List FileRec) → CanBeSalvaged v clusters files → NumbersAscend 0 (numbers_of (kept_files v clusters files)) }
    ensures forks { (v : Volume) (clusters : List ClusterRec) (files : List FileRec) → CanBeSalvaged v clusters files → All (HasLawfulForks v) (kept_files v clusters files) }
{}
