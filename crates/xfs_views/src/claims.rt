//! Laws about what is kept of the claims on blocks. Each function does nothing; its contract is the law.

ghost use Rattle.std.specs.Prelude.{◌≡◌, ◌↔◌, ℕ, true, [], ◌∷◌};
ghost use Rattle.std.specs.List.{Contains};
ghost use Rattle.xfs_disk.specs.Lists.{is_among};
ghost use Rattle.xfs_disk.specs.Blocks.{Image};
ghost use Rattle.xfs_geom.specs.Volumes.{Volume, volume_of};
ghost use Rattle.xfs_geom.specs.declared.geometry.Geometry.{Geometry};
ghost use Rattle.xfs_collections.specs.Blocks.{is_in};
ghost use Rattle.xfs_claims.specs.Keeping.{kept_of};
ghost use Rattle.xfs_claims.specs.Ranks.{is_recorded_cluster};
ghost use Rattle.xfs_claims.specs.Spans.{spans_of};
ghost use Rattle.xfs_claims.specs.declared.claimants.Claims.{Claims};
ghost use Rattle.xfs_claims.specs.declared.claimants.FileClaim.{FileClaim};
ghost use Rattle.xfs_image.specs.Candidates.{ClustersAscend};
ghost use Rattle.xfs_image.specs.Clusters.{cluster_of};
ghost use Rattle.xfs_image.specs.Directories.{directories};
ghost use Rattle.xfs_image.specs.Keeping.{Protected};
ghost use Rattle.xfs_views.specs.Claimed.{IsGuardedFile, image_claims};
ghost use Rattle.xfs_views.specs.Guarded.{IsGuarded, has_cluster};
ghost use Rattle.xfs_views.specs.Standing.{stands};

/// A file is protected just where it is a candidate that reads whole, is no directory, root or system inode, and is
/// guarded in the lists of the candidate clusters and of the claims of the candidate files.
pub fn protected_files_by_lists()
    ensures { (v : Volume) (image : Image) (ino : ℕ) → Protected v image ino ↔ IsGuardedFile v image ino }
{}

/// Of all claims the cluster of a guarded file and the file are kept, whatever else is claimed: the clusters
/// ascend, that of the root is a recorded one, the file and its cluster are among the claims.
pub fn guarded_files_are_kept()
    ensures cluster { (claims : Claims) (file : FileClaim) → is_recorded_cluster claims.clusters claims.root ≡ true → ClustersAscend 0 claims.clusters → Contains claims.files file
        → has_cluster claims.clusters file.cluster ≡ true → IsGuarded (is_in (spans_of claims.fixed)) claims.clusters claims.files file
        → is_among (kept_of claims).clusters file.cluster ≡ true }
    ensures file { (claims : Claims) (file : FileClaim) → is_recorded_cluster claims.clusters claims.root ≡ true → ClustersAscend 0 claims.clusters → Contains claims.files file
        → has_cluster claims.clusters file.cluster ≡ true → IsGuarded (is_in (spans_of claims.fixed)) claims.clusters claims.files file
        → is_among (kept_of claims).files file.ino ≡ true }
{}

/// Of the claims of an image a protected file is kept with its cluster; it stays among what is kept, as a root or a
/// system inode might not; and it is none of the directories, of which what is kept may be written anew.
pub fn protected_files_are_kept()
    ensures cluster { (g : Geometry) (image : Image) (ino : ℕ) → Protected (volume_of g) image ino → is_among (kept_of (image_claims (volume_of g) image)).clusters (cluster_of (volume_of g) ino) ≡ true }
    ensures file { (g : Geometry) (image : Image) (ino : ℕ) → Protected (volume_of g) image ino → is_among (kept_of (image_claims (volume_of g) image)).files ino ≡ true }
    ensures stands { (v : Volume) (image : Image) (ino : ℕ) (is : Protected v image ino) → stands v.rootino is.file ≡ true }
    ensures other { (v : Volume) (image : Image) (ino : ℕ) (is : Protected v image ino) → directories (is.file ∷ []) ≡ [] }
{}
