//! A law about what is gathered of an image. The function does nothing; its contract is the law.

ghost use Rattle.std.specs.Prelude.{◌≡◌, ◌≤◌, ◌+◌, ℕ, List, map};
ghost use Rattle.std.specs.List.{AllByRecursion};
ghost use Rattle.xfs_dirdata.specs.declared.records.EntryRec.{EntryRec};
ghost use Rattle.xfs_disk.specs.Blocks.{Image};
ghost use Rattle.xfs_geom.specs.Volumes.{volume_of};
ghost use Rattle.xfs_geom.specs.declared.geometry.Geometry.{Geometry};
ghost use Rattle.xfs_image.specs.Candidates.{candidates};
ghost use Rattle.xfs_image.specs.Claims.{candidate_files, candidate_inodes};
ghost use Rattle.xfs_image.specs.Directories.{entries_read};
ghost use Rattle.xfs_request.specs.xfs_salvage.Kept.{entries_of_kept, kept_clusters};
ghost use Rattle.xfs_request.specs.Slots.{StandByNumber};
ghost use Rattle.xfs_request.specs.declared.seen.SlotSeen.{SlotSeen};

/// What is gathered of any image passes the tests that `ask` makes of its order: the entries of the kept directories stand by
/// directory, what is known of the slots of all candidate clusters stands by inode, and each kept cluster ends in the volume.
pub fn images_stand_in_order()
    ensures entries { (g : Geometry) (image : Image)
        → StandByNumber (λ (e : EntryRec). e.dir) 0
        (entries_of_kept (volume_of g) (candidates (volume_of g) image) (candidate_files (volume_of g) image) (entries_read (volume_of g) image (candidate_files (volume_of g) image))) }
    ensures slots { (g : Geometry) (image : Image) (slots : List SlotSeen)
        → map (λ (slot : SlotSeen). slot.ino) slots ≡ candidate_inodes (volume_of g) image → StandByNumber (λ (slot : SlotSeen). slot.ino) 0 slots }
    ensures clusters { (g : Geometry) (image : Image)
        → AllByRecursion (λ block. block + 4 ≤ g.dblocks) (kept_clusters (volume_of g) (candidates (volume_of g) image) (candidate_files (volume_of g) image)) }
{}
