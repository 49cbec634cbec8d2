//! Laws about files that are kept. Each function does nothing; its contract is the law.

ghost use Rattle.std.specs.Prelude.{◌≡◌, ◌≢◌, ℕ, ◌<◌};
ghost use Rattle.xfs_disk.specs.Blocks.{Image};
ghost use Rattle.xfs_geom.specs.Volumes.{Volume};
ghost use Rattle.xfs_volume.specs.declared.files.FileRec.{FileRec};
ghost use Rattle.xfs_image.specs.Keeping.{Keeps};
ghost use Rattle.xfs_image.specs.Slots.{reads_as};
ghost use Rattle.xfs_views.specs.KeptInWords.{IsKeptAs};

use xfs_inode::FileRead;

/// A file is kept from one image to another just where it reads whole in both, and all its bytes and attributes,
/// its target, its device and each field of its core but the number of names, the chain of unlinked inodes and the
/// checksum are equal.
pub fn kept_files_in_words()
    ensures words { (v : Volume) (before after : Image) (ino : ℕ) (file kept : FileRec) → reads_as v before ino ≡ FileRead.File file → reads_as v after ino ≡ FileRead.File kept → Keeps v before after ino → IsKeptAs v before after file kept }
    ensures kept { (v : Volume) (before after : Image) (ino : ℕ) (file kept : FileRec) → reads_as v before ino ≡ FileRead.File file → reads_as v after ino ≡ FileRead.File kept → IsKeptAs v before after file kept → Keeps v before after ino }
    ensures unread { (v : Volume) (before after : Image) (ino : ℕ) → ((file : FileRec) → reads_as v before ino ≢ FileRead.File file) → Keeps v before after ino → ⊥ }
    ensures lost { (v : Volume) (before after : Image) (ino : ℕ) → ((file : FileRec) → reads_as v after ino ≢ FileRead.File file) → Keeps v before after ino → ⊥ }
{}

/// What reads as a file keeps itself where nothing changes; what is kept twice is kept; and what is kept would be
/// kept by the way back.
pub fn keeping_is_an_order()
    ensures itself { (v : Volume) (image : Image) (ino : ℕ) (file : FileRec) → reads_as v image ino ≡ FileRead.File file → Keeps v image image ino }
    ensures onward { (v : Volume) (a b c : Image) (ino : ℕ) → Keeps v a b ino → Keeps v b c ino → Keeps v a c ino }
    ensures back { (v : Volume) (a b : Image) (ino : ℕ) → Keeps v a b ino → Keeps v b a ino }
{}
