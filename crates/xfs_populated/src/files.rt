//! Laws about the files of a new volume. Each function does nothing; its contract is the law.

ghost use Rattle.std.specs.Prelude.{◌≡◌, ℕ, ◌*◌, ◌<◌, List, length, map, Ok};
ghost use Rattle.std.specs.List.{range_with_len};
ghost use Rattle.xfs_disk.specs.Blocks.{Image};
ghost use Rattle.xfs_disk.specs.declared.stamp.Stamp.{Stamp};
ghost use Rattle.xfs_geom.specs.Volumes.{volume_of};
ghost use Rattle.xfs_geom.specs.declared.geometry.Geometry.{Geometry};
ghost use Rattle.xfs_image.specs.Files.{files_read, inodes_of};
ghost use Rattle.xfs_place.specs.declared.placed.Placed.{Placed};
ghost use Rattle.xfs_render.specs.declared.plan.Plan.{Plan};
ghost use Rattle.xfs_empty.specs.Geometry.{HasFirstChunk};
ghost use Rattle.xfs_made.specs.Files.{slot_crc};
ghost use Rattle.xfs_proto.specs.declared.protofile.ProtoNode.{ProtoNode};
ghost use Rattle.xfs_filled.specs.Chunks.{chunk_starts};
ghost use Rattle.xfs_filled.specs.Numbers.{inode_at};
ghost use Rattle.xfs_populated.specs.FilledSlots.{HasFilledSlots, ReadAsDue};
ghost use Rattle.xfs_populated.specs.Populated.{IsPopulated, filled_files, filled_groups};

/// The inodes of the groups that are due are those of the chunks, in order, and their numbers ascend.
pub fn chunks_have_inodes()
    ensures inodes { (g : Geometry) (ns : List ProtoNode) (p : Placed) (agf agi : ℕ → ℕ) → HasFirstChunk (volume_of g)
        → inodes_of (volume_of g) (filled_groups g ns p agf agi)
        ≡ map (inode_at (volume_of g) (chunk_starts g (length ns))) (range_with_len 0 (64 * length (chunk_starts g (length ns)))) }
    ensures ascend { (g : Geometry) (ns : List ProtoNode) (i j : ℕ) → HasFirstChunk (volume_of g) → i < j → j < 64 * length (chunk_starts g (length ns))
        → inode_at (volume_of g) (chunk_starts g (length ns)) i < inode_at (volume_of g) (chunk_starts g (length ns)) j }
{}

/// Each slot of the chunks is what was wanted of it.
pub fn filled_slots_are_made()
    ensures { (g : Geometry) (sector : List ℕ) (s : Stamp) (ns : List ProtoNode) (contents : List (List ℕ)) (plan : Plan) (blocks : ℕ) (image : Image)
        → (is : IsPopulated g sector s ns contents plan blocks image)
        → HasFilledSlots (volume_of g) s (chunk_starts g (length ns)) ns contents is.filled.placed.runs image }
{}

/// The slots read as the files that are due, as the two system inodes, and as free inodes.
pub fn filled_slots_read()
    ensures { (g : Geometry) (sector : List ℕ) (s : Stamp) (ns : List ProtoNode) (contents : List (List ℕ)) (plan : Plan) (blocks : ℕ) (image : Image)
        → (is : IsPopulated g sector s ns contents plan blocks image)
        → ReadAsDue (volume_of g) s (chunk_starts g (length ns)) ns contents is.filled.placed.runs image }
{}

/// The files of the volume are those that are due.
pub fn filled_files_read()
    ensures { (g : Geometry) (sector : List ℕ) (s : Stamp) (ns : List ProtoNode) (contents : List (List ℕ)) (plan : Plan) (blocks : ℕ) (image : Image) (agf agi : ℕ → ℕ)
        → (is : IsPopulated g sector s ns contents plan blocks image)
        → files_read (volume_of g) image (filled_groups g ns is.filled.placed agf agi)
        ≡ Ok (filled_files (volume_of g) s (chunk_starts g (length ns)) ns contents is.filled.placed.runs (slot_crc (volume_of g) image)) }
{}
