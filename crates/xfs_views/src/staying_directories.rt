//! Laws about directories that stay. Each function does nothing; its contract is the law.

ghost use Rattle.std.specs.Prelude.{◌≡◌, List};
ghost use Rattle.std.specs.List.{All};
ghost use Rattle.xfs_disk.specs.Blocks.{Image};
ghost use Rattle.xfs_geom.specs.Volumes.{Volume};
ghost use Rattle.xfs_volume.specs.declared.files.FileRec.{FileRec};
ghost use Rattle.xfs_image.specs.Directories.{directories, dirs_read, entries_of, entries_read, is_whole, parent_of};
ghost use Rattle.xfs_views.specs.SameFiles.{HasSameClaims, HasSameSlot};

/// A directory has the same entries and the same parent, and is whole or not, as it was, where its slot and the blocks that it
/// claims hold the same bytes.
pub fn directories_stay()
    ensures entries { (v : Volume) (image now : Image) (f : FileRec) → HasSameSlot v image now f.ino → HasSameClaims v image now f → entries_of v now f ≡ entries_of v image f }
    ensures parent { (v : Volume) (image now : Image) (f : FileRec) → HasSameSlot v image now f.ino → HasSameClaims v image now f → parent_of v now f ≡ parent_of v image f }
    ensures whole { (v : Volume) (image now : Image) (f : FileRec) → HasSameSlot v image now f.ino → HasSameClaims v image now f → is_whole v now f ≡ is_whole v image f }
{}

/// The same of all directories among some files, whatever happens to the other files.
pub fn all_directories_stay()
    ensures entries { (v : Volume) (image now : Image) (files : List FileRec) → All (λ (f : FileRec). HasSameSlot v image now f.ino) (directories files) → All (HasSameClaims v image now) (directories files)
        → entries_read v now files ≡ entries_read v image files }
    ensures dirs { (v : Volume) (image now : Image) (files : List FileRec) → All (λ (f : FileRec). HasSameSlot v image now f.ino) (directories files) → All (HasSameClaims v image now) (directories files)
        → dirs_read v now files ≡ dirs_read v image files }
{}
