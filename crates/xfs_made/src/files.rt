//! Laws about the first files of a volume. Each function does nothing; its contract is the law.

ghost use Rattle.std.specs.Prelude.{◌≡◌, ℕ, List, [], ◌∷◌, Ok};
ghost use Rattle.std.specs.List.{All, flat_map, range_with_len};
ghost use Rattle.xfs_disk.specs.Blocks.{Image};
ghost use Rattle.xfs_disk.specs.declared.stamp.Stamp.{Stamp};
ghost use Rattle.xfs_geom.specs.Volumes.{Volume, volume_of};
ghost use Rattle.xfs_geom.specs.declared.geometry.Geometry.{Geometry};
ghost use Rattle.xfs_kinds.specs.InodeTrees.{ino_shape};
ghost use Rattle.xfs_volume.specs.Laws.{AreKept};
ghost use Rattle.xfs_volume.specs.declared.groups.GroupRec.{GroupRec};
ghost use Rattle.xfs_naming.specs.Naming.{naming_laws};
ghost use Rattle.xfs_laws.specs.Counting.{chunk_number, due_chunk};
ghost use Rattle.xfs_image.specs.Directories.{dirs_read, entries_read};
ghost use Rattle.xfs_image.specs.Files.{clusters_of, files_read, inodes_of};
ghost use Rattle.xfs_image.specs.Lsns.{LsnPlace, cluster_places, file_places, lsn_at};
ghost use Rattle.xfs_place.specs.declared.placed.GroupPlaced.{GroupPlaced};
ghost use Rattle.xfs_made.specs.Groups.{due_groups};
ghost use Rattle.xfs_made.specs.Keeping.{KeepsJust};
ghost use Rattle.xfs_empty.specs.Geometry.{HasFirstChunk};
ghost use Rattle.xfs_empty.specs.Placing.{all_inodes, chunk_run, first_chunk};
ghost use Rattle.xfs_made.specs.Files.{HasFirstSlots, first_dirs, first_files, slot_crc};

/// The inodes of the first chunk are 128 to 191; where its slots are made, they read as the root, two system inodes, and free ones,
/// and the root is a whole directory without entries.
pub fn first_files_read()
    ensures inodes { (g : Geometry) (groups : List GroupPlaced) (agf_crc agi_crc : ℕ → ℕ) → HasFirstChunk (volume_of g)
        → inodes_of (volume_of g) (due_groups (volume_of g) (all_inodes g.agcount) groups agf_crc agi_crc) ≡ range_with_len 128 64 }
    ensures files { (g : Geometry) (s : Stamp) (image : Image) (groups : List GroupRec) → HasFirstChunk (volume_of g) → HasFirstSlots (volume_of g) s image
        → inodes_of (volume_of g) groups ≡ range_with_len 128 64
        → files_read (volume_of g) image groups ≡ Ok (first_files (volume_of g) s (slot_crc (volume_of g) image)) }
    ensures entries { (g : Geometry) (s : Stamp) (image : Image) → HasFirstChunk (volume_of g) → HasFirstSlots (volume_of g) s image
        → entries_read (volume_of g) image (first_files (volume_of g) s (slot_crc (volume_of g) image)) ≡ [] }
    ensures dirs { (g : Geometry) (s : Stamp) (image : Image) → HasFirstChunk (volume_of g) → HasFirstSlots (volume_of g) s image
        → dirs_read (volume_of g) image (first_files (volume_of g) s (slot_crc (volume_of g) image)) ≡ first_dirs }
{}

/// The names of an empty volume keep their laws.
pub fn first_names_are_lawful()
    ensures { (v : Volume) (s : Stamp) (crc : ℕ → ℕ) → AreKept (naming_laws 128 (first_files v s crc) [] first_dirs) }
{}

/// The first chunk says which of its inodes are in use, and its two clusters are what is kept of an empty volume.
pub fn first_chunk_is_kept()
    ensures chunk { (v : Volume) (s : Stamp) (crc : ℕ → ℕ) → chunk_number (due_chunk v (first_files v s crc) 0 ((ino_shape 0).settled first_chunk)) ≡ chunk_number ((ino_shape 0).settled first_chunk) }
    ensures kept { (g : Geometry) (s : Stamp) (crc : ℕ → ℕ) → HasFirstChunk (volume_of g) → KeepsJust (volume_of g) (chunk_run ∷ []) (all_inodes g.agcount) (first_files (volume_of g) s crc) }
{}

/// The slots of the first chunk state no log sequence number, and its files have no other place for one.
pub fn first_lsns_are_zero()
    ensures slots { (g : Geometry) (s : Stamp) (image : Image) (groups : List GroupPlaced) (agf_crc agi_crc : ℕ → ℕ) → HasFirstChunk (volume_of g) → HasFirstSlots (volume_of g) s image
        → All (λ (place : LsnPlace). (lsn_at image place).lsn ≡ 0) (flat_map cluster_places (clusters_of (volume_of g) (due_groups (volume_of g) (all_inodes g.agcount) groups agf_crc agi_crc))) }
    ensures files { (v : Volume) (s : Stamp) (crc : ℕ → ℕ) → flat_map (file_places v) (first_files v s crc) ≡ [] }
{}
