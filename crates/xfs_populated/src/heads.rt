//! Laws about the headers, the counts and the log of a new volume with files. Each function does nothing; its contract is the law.

ghost use Rattle.std.specs.Prelude.{◌≡◌, ℕ, ◌+◌, ◌^◌, ◌<◌, ◌≤◌, true, List, Ok};
ghost use Rattle.xfs_disk.specs.Blocks.{Image};
ghost use Rattle.xfs_disk.specs.declared.stamp.Stamp.{Stamp};
ghost use Rattle.xfs_geom.specs.Volumes.{volume_of};
ghost use Rattle.xfs_geom.specs.declared.geometry.Geometry.{Geometry};
ghost use Rattle.xfs_log.specs.xfs_heads.declared.log_state.LogState.TheVariants.{Clean};
ghost use Rattle.xfs_image.specs.Consistent.{IsElected, backup_agrees};
ghost use Rattle.xfs_image.specs.Groups.{groups_read};
ghost use Rattle.xfs_image.specs.View.{counts_of, log_of};
ghost use Rattle.xfs_proto.specs.declared.protofile.ProtoNode.{ProtoNode};
ghost use Rattle.xfs_render.specs.declared.plan.Plan.{Plan};
ghost use Rattle.xfs_made.specs.Standing.{agf_crc_at, agi_crc_at};
ghost use Rattle.xfs_populated.specs.Populated.{IsPopulated, filled_groups};

/// An image that has the whole plan of a new volume with files has its groups as they are due, its primary superblock elected, which states
/// the volume, all backups in agreement with it, the counts that were placed, and a blank log of cycle 1.
pub fn filled_heads_read()
    ensures groups { (g : Geometry) (sector : List ℕ) (s : Stamp) (ns : List ProtoNode) (contents : List (List ℕ)) (plan : Plan) (blocks : ℕ) (image : Image)
        → (is : IsPopulated g sector s ns contents plan blocks image)
        → groups_read (volume_of g) image ≡ Ok (filled_groups g ns is.filled.placed (agf_crc_at (volume_of g) image) (agi_crc_at (volume_of g) image)) }
    ensures primary { (g : Geometry) (sector : List ℕ) (s : Stamp) (ns : List ProtoNode) (contents : List (List ℕ)) (plan : Plan) (blocks : ℕ) (image : Image)
        → IsPopulated g sector s ns contents plan blocks image → (elects : IsElected (volume_of g) image) × (elects.vote.place ≡ 0) }
    ensures backups { (g : Geometry) (sector : List ℕ) (s : Stamp) (ns : List ProtoNode) (contents : List (List ℕ)) (plan : Plan) (blocks : ℕ) (image : Image)
        → IsPopulated g sector s ns contents plan blocks image → (ag : ℕ) → 1 ≤ ag → ag < g.agcount → backup_agrees (volume_of g) image ag ≡ true }
    ensures counts { (g : Geometry) (sector : List ℕ) (s : Stamp) (ns : List ProtoNode) (contents : List (List ℕ)) (plan : Plan) (blocks : ℕ) (image : Image)
        → (is : IsPopulated g sector s ns contents plan blocks image) → counts_of image ≡ is.filled.placed.counts }
    ensures log { (g : Geometry) (sector : List ℕ) (s : Stamp) (ns : List ProtoNode) (contents : List (List ℕ)) (plan : Plan) (blocks : ℕ) (image : Image)
        → IsPopulated g sector s ns contents plan blocks image → log_of (volume_of g) image ≡ Clean (2 ^ 32 + 2) }
{}
