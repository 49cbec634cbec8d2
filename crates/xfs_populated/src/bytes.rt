//! Laws about the contents of the files of a new volume. Each function does nothing; its contract is the law.

ghost use Rattle.std.specs.Prelude.{ℕ, List, length};
ghost use Rattle.xfs_disk.specs.Blocks.{Image};
ghost use Rattle.xfs_disk.specs.declared.stamp.Stamp.{Stamp};
ghost use Rattle.xfs_geom.specs.Volumes.{volume_of};
ghost use Rattle.xfs_geom.specs.declared.geometry.Geometry.{Geometry};
ghost use Rattle.xfs_render.specs.declared.plan.Plan.{Plan};
ghost use Rattle.xfs_proto.specs.declared.protofile.ProtoNode.{ProtoNode};
ghost use Rattle.xfs_filled.specs.Chunks.{chunk_starts};
ghost use Rattle.xfs_populated.specs.Bytes.{HaveTheirBytes};
ghost use Rattle.xfs_populated.specs.Populated.{IsPopulated};

/// Each regular file of a new volume has the bytes that it was given.
pub fn filled_files_have_their_bytes()
    ensures { (g : Geometry) (sector : List ℕ) (s : Stamp) (ns : List ProtoNode) (contents : List (List ℕ)) (plan : Plan) (blocks : ℕ) (image : Image) (crc : ℕ → ℕ)
        → (is : IsPopulated g sector s ns contents plan blocks image)
        → HaveTheirBytes (volume_of g) s (chunk_starts g (length ns)) ns contents is.filled.placed.runs crc image }
{}
