//! Laws about the slots of kept clusters. Each function does nothing; its contract is the laws.

ghost use Rattle.std.specs.Prelude.{◌≡◌, ℕ, false, List};
ghost use Rattle.std.specs.List.{Contains};
ghost use Rattle.xfs_disk.specs.Blocks.{Image};
ghost use Rattle.xfs_disk.specs.Lists.{is_among};
ghost use Rattle.xfs_disk.specs.declared.stamp.Stamp.{Stamp};
ghost use Rattle.xfs_geom.specs.Volumes.{Volume, volume_of};
ghost use Rattle.xfs_geom.specs.declared.geometry.Geometry.{Geometry};
ghost use Rattle.xfs_image.specs.Claims.{candidate_inodes};
ghost use Rattle.xfs_image.specs.Slots.{reads_as};
ghost use Rattle.xfs_naming.specs.Naming.{is_in_use};
ghost use Rattle.xfs_rename.specs.xfs_slots.Facts.{slot_fact};
ghost use Rattle.xfs_rename.specs.xfs_slots.Gathered.{bare_inodes};
ghost use Rattle.xfs_volume.specs.declared.files.FileRec.{FileRec};
ghost use Rattle.xfs_salvage.specs.declared.found.Salvaged.{Salvaged};
ghost use Rattle.xfs_rename.specs.xfs_request.declared.seen.SlotSeen.{SlotSeen};
ghost use Rattle.xfs_restored.specs.DueFiles.{due_file, fresh_file, kept_inodes, stated_crc};
ghost use Rattle.xfs_restored.specs.Kept.{HasKept, state_by, state_read};

use xfs_inode::FileRead;

/// Where each slot of the kept clusters is what is wanted of it, that of a kept file reads as the file with as many links as it
/// has names and, where its attributes did not read, without any (`kept`); that of a root or system inode that is made anew reads
/// as its new file (`fresh`); and each other one reads as free (`free`).
pub fn changed_slots_read()
    ensures kept { (g : Geometry) (s : Stamp) (image now : Image) (kept : Salvaged) (seen : List SlotSeen) (f : FileRec) → HasKept g s image now kept seen → Contains kept.files f
        → reads_as (volume_of g) now f.ino ≡ FileRead.File (due_file g.rootino kept seen (stated_crc (volume_of g) now) f) }
    ensures fresh { (g : Geometry) (s : Stamp) (image now : Image) (kept : Salvaged) (seen : List SlotSeen) (ino : ℕ) → HasKept g s image now kept seen → Contains kept.fresh ino
        → reads_as (volume_of g) now ino ≡ FileRead.File (fresh_file (volume_of g) s (stated_crc (volume_of g) now) ino) }
    ensures free { (g : Geometry) (s : Stamp) (image now : Image) (kept : Salvaged) (seen : List SlotSeen) (ino : ℕ) → HasKept g s image now kept seen → Contains (kept_inodes (volume_of g) kept) ino
        → is_in_use kept.files ino ≡ false → is_among kept.fresh ino ≡ false → reads_as (volume_of g) now ino ≡ FileRead.Free }
{}

/// What is known of the slot of a candidate inode by what was kept of it in place of its bytes, and by whether its file is one whose
/// attributes do not read, is what it reads as.
pub fn slots_are_known_by_facts()
    ensures { (v : Volume) (image : Image) (ino : ℕ) → Contains (candidate_inodes v image) ino
        → state_read (reads_as v image ino) ≡ state_by (is_among (bare_inodes v image) ino) (slot_fact v image ino).reading }
{}
