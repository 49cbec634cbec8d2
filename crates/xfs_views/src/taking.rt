//! Laws about files that are not protected. Each function does nothing; its contract is the law.

ghost use Rattle.std.specs.Prelude.{◌≡◌, ◌≢◌, ℕ, ◌+◌, true, false};
ghost use Rattle.xfs_disk.specs.Blocks.{Image};
ghost use Rattle.xfs_geom.specs.Conversions.{is_fixed};
ghost use Rattle.xfs_geom.specs.Volumes.{Volume};
ghost use Rattle.xfs_volume.specs.Names.{is_directory};
ghost use Rattle.xfs_volume.specs.declared.files.FileRec.{FileRec};
ghost use Rattle.xfs_image.specs.Claims.{claims, is_candidate_inode, is_claimed, is_claimed_beside, is_of_candidate, is_of_cluster};
ghost use Rattle.xfs_image.specs.Clusters.{cluster_of};
ghost use Rattle.xfs_image.specs.Keeping.{Protected};
ghost use Rattle.xfs_image.specs.Slots.{reads_as};

use xfs_inode::FileRead;

/// One block takes the protection of a file away: one that it claims and that is fixed, of a candidate cluster or
/// claimed by another candidate file; or one of its cluster that is fixed or that a candidate file claims.
pub fn claims_take_protection()
    ensures fixed { (v : Volume) (image : Image) (ino block : ℕ) (file : FileRec) → reads_as v image ino ≡ FileRead.File file → claims v file block ≡ true → is_fixed v block ≡ true → Protected v image ino → ⊥ }
    ensures cluster { (v : Volume) (image : Image) (ino block : ℕ) (file : FileRec) → reads_as v image ino ≡ FileRead.File file → claims v file block ≡ true → is_of_candidate v image block ≡ true → Protected v image ino → ⊥ }
    ensures other { (v : Volume) (image : Image) (ino block : ℕ) (file : FileRec) → reads_as v image ino ≡ FileRead.File file → claims v file block ≡ true → is_claimed_beside v image ino block ≡ true → Protected v image ino → ⊥ }
    ensures fixed_cluster { (v : Volume) (image : Image) (ino block : ℕ) → is_of_cluster (cluster_of v ino) block ≡ true → is_fixed v block ≡ true → Protected v image ino → ⊥ }
    ensures claimed_cluster { (v : Volume) (image : Image) (ino block : ℕ) → is_of_cluster (cluster_of v ino) block ≡ true → is_claimed v image block ≡ true → Protected v image ino → ⊥ }
{}

/// No inode of other than the candidate clusters is protected, none that does not read as a file with all its
/// attributes, no directory, not the root, and neither of the two system inodes behind it.
pub fn kinds_take_protection()
    ensures elsewhere { (v : Volume) (image : Image) (ino : ℕ) → is_candidate_inode v image ino ≡ false → Protected v image ino → ⊥ }
    ensures unread { (v : Volume) (image : Image) (ino : ℕ) → ((file : FileRec) → reads_as v image ino ≢ FileRead.File file) → Protected v image ino → ⊥ }
    ensures directory { (v : Volume) (image : Image) (ino : ℕ) (file : FileRec) → reads_as v image ino ≡ FileRead.File file → is_directory file ≡ true → Protected v image ino → ⊥ }
    ensures root { (v : Volume) (image : Image) → Protected v image v.rootino → ⊥ }
    ensures bitmap { (v : Volume) (image : Image) → Protected v image (v.rootino + 1) → ⊥ }
    ensures summary { (v : Volume) (image : Image) → Protected v image (v.rootino + 2) → ⊥ }
{}
