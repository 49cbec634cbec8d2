//! Laws about consistent images. Each function does nothing; its contract is the law.

ghost use Rattle.std.specs.Prelude.{◌≡◌, ◌≢◌, ℕ, ◌+◌, true, false};
ghost use Rattle.std.specs.List.{Contains};
ghost use Rattle.xfs_disk.specs.Blocks.{Image, IsImage};
ghost use Rattle.xfs_geom.specs.Volumes.{volume_of};
ghost use Rattle.xfs_geom.specs.declared.geometry.Geometry.{Geometry};
ghost use Rattle.xfs_volume.specs.Names.{is_directory};
ghost use Rattle.xfs_volume.specs.declared.clusters.ClusterRec.{ClusterRec};
ghost use Rattle.xfs_volume.specs.declared.files.FileRec.{FileRec};
ghost use Rattle.xfs_laws.specs.Lawful.{broken_law};
ghost use Rattle.xfs_image.specs.Candidates.{candidates};
ghost use Rattle.xfs_image.specs.Consistent.{IsConsistent};
ghost use Rattle.xfs_image.specs.Files.{clusters_of};
ghost use Rattle.xfs_image.specs.Keeping.{Protected};

/// In a consistent image each file that is no directory and neither the root nor a system inode is protected:
/// regular files, symbolic links, devices, pipes and sockets. The candidate clusters of such an image are just
/// those of its chunks.
pub fn files_of_consistent_images_are_protected()
    ensures protected { (g : Geometry) (image : Image) (blocks : ℕ) (is : IsConsistent broken_law g image) (file : FileRec) → IsImage blocks image → Contains is.catalog.files file → is_directory file ≡ false
        → file.ino ≢ g.rootino → file.ino ≢ g.rootino + 1 → file.ino ≢ g.rootino + 2 → Protected (volume_of g) image file.ino }
    ensures clusters { (g : Geometry) (image : Image) (is : IsConsistent broken_law g image) (c : ClusterRec) → Contains (candidates (volume_of g) image) c → Contains (clusters_of (volume_of g) is.catalog.groups) c.block }
{}
