//! Laws about a whole volume with files. Each function does nothing; its contract is the law.

ghost use Rattle.std.specs.Prelude.{ℕ, List};
ghost use Rattle.xfs_disk.specs.Blocks.{Image};
ghost use Rattle.xfs_disk.specs.declared.stamp.Stamp.{Stamp};
ghost use Rattle.xfs_geom.specs.declared.geometry.Geometry.{Geometry};
ghost use Rattle.xfs_render.specs.declared.plan.Plan.{Plan};
ghost use Rattle.xfs_proto.specs.declared.protofile.ProtoNode.{ProtoNode};
ghost use Rattle.xfs_populated.specs.Populated.{IsPopulated};
ghost use Rattle.xfs_populated.specs.Volumes.{IsFilledVolume};

/// An image that has the plan of a new volume with files says these files, their names and what was placed,
/// and nothing else; it is consistent; and each regular file has its bytes.
pub fn filled_volumes_are_consistent()
    ensures { (g : Geometry) (sector : List ℕ) (s : Stamp) (ns : List ProtoNode) (contents : List (List ℕ)) (plan : Plan) (blocks : ℕ) (image : Image)
        → IsPopulated g sector s ns contents plan blocks image → IsFilledVolume g s ns contents image }
{}
