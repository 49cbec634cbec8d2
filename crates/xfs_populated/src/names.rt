//! Laws about the names of a new volume with files. Each function does nothing; its contract is the law.

ghost use Rattle.std.specs.Prelude.{◌≡◌, ℕ, ◌<◌, true, List, length};
ghost use Rattle.xfs_disk.specs.Blocks.{Image};
ghost use Rattle.xfs_disk.specs.declared.stamp.Stamp.{Stamp};
ghost use Rattle.xfs_geom.specs.Volumes.{Volume, volume_of};
ghost use Rattle.xfs_geom.specs.declared.geometry.Geometry.{Geometry};
ghost use Rattle.xfs_geom.specs.declared.records.Run.{Run};
ghost use Rattle.xfs_image.specs.Directories.{dirs_read, entries_read};
ghost use Rattle.xfs_naming.specs.Naming.{naming_laws};
ghost use Rattle.xfs_volume.specs.Laws.{AreKept};
ghost use Rattle.xfs_proto.specs.declared.protofile.ProtoNode.{ProtoNode};
ghost use Rattle.xfs_render.specs.declared.plan.Plan.{Plan};
ghost use Rattle.xfs_empty.specs.Geometry.{HasFirstChunk};
ghost use Rattle.xfs_filled.specs.Chunks.{chunk_starts};
ghost use Rattle.xfs_filled.specs.Entries.{entries_at, parent_of_place};
ghost use Rattle.xfs_filled.specs.FileTrees.{AreProtoNodes, is_directory_node};
ghost use Rattle.xfs_filled.specs.Numbers.{chunk_count};
ghost use Rattle.xfs_filled.specs.Planning.{HoldsFiles};
ghost use Rattle.xfs_populated.specs.Names.{AreDirectoriesBuilt, HasFileSlots, HasFileNumbers, HasShortForms, ReadsDirectory};
ghost use Rattle.xfs_populated.specs.Populated.{IsPopulated, dirs_due, filled_entries, filled_file, filled_files};

/// The files of a new volume that has room for them are numbered in the order of their places, from the root's 128 on.
pub fn filled_numbers_stand()
    ensures { (g : Geometry) (ns : List ProtoNode) (contents : List (List ℕ)) → AreProtoNodes ns → HasFirstChunk (volume_of g) → HoldsFiles g ns contents
        → HasFileNumbers (volume_of g) (chunk_starts g (length ns)) (length ns) }
{}

/// The files, the entries and the directories that a new volume is due to have break no law of names.
pub fn filled_names_are_lawful()
    ensures { (v : Volume) (s : Stamp) (starts : List ℕ) (ns : List ProtoNode) (contents : List (List ℕ)) (runs : List Run) (crc : ℕ → ℕ) → AreProtoNodes ns
        → HasFileNumbers v starts (length ns) → AreKept (naming_laws 128 (filled_files v s starts ns contents runs crc) (filled_entries v starts ns) (dirs_due v starts ns)) }
{}

/// Where the directories were built and the slots of those without blocks have their short forms, each directory of a new volume reads as
/// whole, with the entries of the protofile and its parent (`each`); so of all files are read the entries (`entries`) and the directories
/// (`dirs`) that are due.
pub fn filled_directories_read()
    ensures each { (g : Geometry) (sector : List ℕ) (s : Stamp) (ns : List ProtoNode) (contents : List (List ℕ)) (plan : Plan) (blocks : ℕ) (image : Image) (crc : ℕ → ℕ)
        → (is : IsPopulated g sector s ns contents plan blocks image) → AreDirectoriesBuilt (volume_of g) (chunk_starts g (length ns)) ns → HasShortForms (volume_of g) (chunk_starts g (length ns)) ns image
        → (k : ℕ) → k < length ns → is_directory_node ns k ≡ true
        → ReadsDirectory (volume_of g) image (filled_file (volume_of g) s (chunk_starts g (length ns)) ns contents is.filled.placed.runs crc k)
        (entries_at (volume_of g) (chunk_starts g (length ns)) ns k) (parent_of_place (volume_of g) (chunk_starts g (length ns)) ns k) }
    ensures entries { (g : Geometry) (sector : List ℕ) (s : Stamp) (ns : List ProtoNode) (contents : List (List ℕ)) (plan : Plan) (blocks : ℕ) (image : Image) (crc : ℕ → ℕ)
        → (is : IsPopulated g sector s ns contents plan blocks image) → AreDirectoriesBuilt (volume_of g) (chunk_starts g (length ns)) ns → HasShortForms (volume_of g) (chunk_starts g (length ns)) ns image
        → entries_read (volume_of g) image (filled_files (volume_of g) s (chunk_starts g (length ns)) ns contents is.filled.placed.runs crc)
        ≡ filled_entries (volume_of g) (chunk_starts g (length ns)) ns }
    ensures dirs { (g : Geometry) (sector : List ℕ) (s : Stamp) (ns : List ProtoNode) (contents : List (List ℕ)) (plan : Plan) (blocks : ℕ) (image : Image) (crc : ℕ → ℕ)
        → (is : IsPopulated g sector s ns contents plan blocks image) → AreDirectoriesBuilt (volume_of g) (chunk_starts g (length ns)) ns → HasShortForms (volume_of g) (chunk_starts g (length ns)) ns image
        → dirs_read (volume_of g) image (filled_files (volume_of g) s (chunk_starts g (length ns)) ns contents is.filled.placed.runs crc)
        ≡ dirs_due (volume_of g) (chunk_starts g (length ns)) ns }
{}

/// Where the slots of files are what was wanted of them, those of directories without blocks have their short forms.
pub fn filled_short_forms_stand()
    ensures { (v : Volume) (s : Stamp) (starts : List ℕ) (ns : List ProtoNode) (contents : List (List ℕ)) (runs : List Run) (image : Image)
        → HasFileSlots v s starts ns contents runs image → HasShortForms v starts ns image }
{}
