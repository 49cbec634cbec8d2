//! Laws about what stays whatever else is claimed. Each function does nothing; its contract is the law.

ghost use Rattle.std.specs.Prelude.{◌≡◌, ℕ, true, List};
ghost use Rattle.std.specs.List.{Contains};
ghost use Rattle.xfs_disk.specs.Lists.{is_among};
ghost use Rattle.xfs_disk.specs.Blocks.{Image};
ghost use Rattle.xfs_geom.specs.Volumes.{volume_of};
ghost use Rattle.xfs_geom.specs.declared.geometry.Geometry.{Geometry};
ghost use Rattle.xfs_volume.specs.declared.clusters.ClusterRec.{ClusterRec};
ghost use Rattle.xfs_volume.specs.declared.files.FileRec.{FileRec};
ghost use Rattle.xfs_image.specs.Candidates.{candidates};
ghost use Rattle.xfs_image.specs.Claims.{candidate_files};
ghost use Rattle.xfs_image.specs.Clusters.{cluster_of, root_cluster};
ghost use Rattle.xfs_image.specs.Keeping.{Protected};
ghost use Rattle.xfs_request.specs.xfs_salvage.Kept.{kept_clusters, kept_files};

/// A protected file of an image is one of the files that are kept of its candidates, as it is, and its cluster is one of the
/// kept ones.
pub fn protected_files_stay()
    ensures file { (g : Geometry) (image : Image) (ino : ℕ) (is : Protected (volume_of g) image ino)
        → Contains (kept_files (volume_of g) (candidates (volume_of g) image) (candidate_files (volume_of g) image)) is.file }
    ensures cluster { (g : Geometry) (image : Image) (ino : ℕ) → Protected (volume_of g) image ino
        → is_among (kept_clusters (volume_of g) (candidates (volume_of g) image) (candidate_files (volume_of g) image)) (cluster_of (volume_of g) ino) ≡ true }
{}

/// The cluster of the root is kept, whatever was found.
pub fn root_clusters_are_kept()
    ensures { (g : Geometry) (clusters : List ClusterRec) (files : List FileRec) → is_among (kept_clusters (volume_of g) clusters files) (root_cluster (volume_of g)) ≡ true }
{}
