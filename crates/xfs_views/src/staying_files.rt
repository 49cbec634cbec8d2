//! Laws about files that stay. Each function does nothing; its contract is the law.

ghost use Rattle.std.specs.Prelude.{◌≡◌, ℕ, true, List, None, Ok};
ghost use Rattle.std.specs.List.{All, Contains, flat_map};
ghost use Rattle.xfs_disk.specs.Blocks.{Image};
ghost use Rattle.xfs_geom.specs.Volumes.{Volume, volume_of};
ghost use Rattle.xfs_geom.specs.declared.geometry.Geometry.{Geometry};
ghost use Rattle.xfs_volume.specs.declared.files.FileRec.{FileRec};
ghost use Rattle.xfs_volume.specs.declared.groups.GroupRec.{GroupRec};
ghost use Rattle.xfs_inode.specs.Named.{named_attr, named_link, named_top};
ghost use Rattle.xfs_image.specs.Claims.{candidate_files, candidate_inodes, claims};
ghost use Rattle.xfs_image.specs.Files.{clusters_of, files_read, inodes_of};
ghost use Rattle.xfs_image.specs.Keeping.{Keeps, Protected, file_bytes};
ghost use Rattle.xfs_image.specs.Slots.{cluster_blocks, reads_as, slot_bytes};
ghost use Rattle.xfs_views.specs.NamedBlocks.{named_blocks};
ghost use Rattle.xfs_views.specs.Same.{HoldSameBytes};
ghost use Rattle.xfs_views.specs.SameFiles.{HasSameClaims, HasSameSlot};

use xfs_inode::FileRead;

/// A slot reads as it did where it holds the same bytes, whatever else changes: it is free still; it is that of the same
/// file, if the blocks that this file claims hold the same bytes too; it reads as whatever it did, if the blocks that it names do;
/// and so it does if it names none.
pub fn files_stay()
    ensures free { (v : Volume) (image now : Image) (ino : ℕ) → HasSameSlot v image now ino → reads_as v image ino ≡ FileRead.Free → reads_as v now ino ≡ FileRead.Free }
    ensures file { (v : Volume) (image now : Image) (ino : ℕ) (file : FileRec) → HasSameSlot v image now ino → HasSameClaims v image now file → reads_as v image ino ≡ FileRead.File file → reads_as v now ino ≡ FileRead.File file }
    ensures alone { (v : Volume) (image now : Image) (ino : ℕ) → HasSameSlot v image now ino → named_top v ino (slot_bytes v image ino) ≡ None → named_attr v ino (slot_bytes v image ino) ≡ None → named_link v ino (slot_bytes v image ino) ≡ None
        → reads_as v now ino ≡ reads_as v image ino }
    ensures named { (v : Volume) (image now : Image) (ino : ℕ) → HasSameSlot v image now ino → HoldSameBytes image now (named_blocks v image ino) → reads_as v now ino ≡ reads_as v image ino }
{}

/// A file claims each block that its slot names.
pub fn files_claim_what_they_name()
    ensures claimed { (v : Volume) (image : Image) (ino : ℕ) (file : FileRec) → reads_as v image ino ≡ FileRead.File file → (block : ℕ) → Contains (named_blocks v image ino) block → claims v file block ≡ true }
{}

/// The files of some groups are the same where the slots of all their chunks hold the same bytes, or the blocks of their clusters,
/// and so do the blocks that each file claims. Whatever is read of these slots, a file or a fault, is the same where they hold
/// the same bytes and the blocks that they name do; so are the candidate files, of the same candidate inodes.
pub fn all_files_stay()
    ensures files { (v : Volume) (image now : Image) (groups : List GroupRec) (files : List FileRec) → files_read v image groups ≡ Ok files
        → All (HasSameSlot v image now) (inodes_of v groups) → All (HasSameClaims v image now) files → files_read v now groups ≡ Ok files }
    ensures clusters { (g : Geometry) (image now : Image) (groups : List GroupRec) (files : List FileRec) → files_read (volume_of g) image groups ≡ Ok files
        → HoldSameBytes image now (flat_map cluster_blocks (clusters_of (volume_of g) groups)) → All (HasSameClaims (volume_of g) image now) files → files_read (volume_of g) now groups ≡ Ok files }
    ensures named { (v : Volume) (image now : Image) (groups : List GroupRec) → All (HasSameSlot v image now) (inodes_of v groups)
        → All (λ (ino : ℕ). HoldSameBytes image now (named_blocks v image ino)) (inodes_of v groups) → files_read v now groups ≡ files_read v image groups }
    ensures candidates { (v : Volume) (image now : Image) → candidate_inodes v now ≡ candidate_inodes v image → All (HasSameSlot v image now) (candidate_inodes v image)
        → All (λ (ino : ℕ). HoldSameBytes image now (named_blocks v image ino)) (candidate_inodes v image) → candidate_files v now ≡ candidate_files v image }
{}

/// The bytes of a file are the same where the blocks that it claims hold the same bytes.
pub fn bytes_stay()
    ensures bytes { (v : Volume) (image now : Image) (f : FileRec) → HasSameClaims v image now f → file_bytes v now f ≡ file_bytes v image f }
{}

/// A file is kept where its slot and the blocks that it claims hold the same bytes; so is each protected file.
pub fn unchanged_files_are_kept()
    ensures file { (v : Volume) (image now : Image) (ino : ℕ) (file : FileRec) → HasSameSlot v image now ino → HasSameClaims v image now file → reads_as v image ino ≡ FileRead.File file → Keeps v image now ino }
    ensures protected { (v : Volume) (image now : Image) (ino : ℕ) (is : Protected v image ino) → HasSameSlot v image now ino → HasSameClaims v image now is.file → Keeps v image now ino }
{}
