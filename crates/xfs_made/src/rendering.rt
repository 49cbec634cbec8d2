//! Laws about what is asked, where it is to be written. The function does nothing; its contract is the laws.

ghost use Rattle.std.specs.Prelude.{◌<◌, ℕ, List};
ghost use Rattle.std.specs.List.Sorted.{IsNonDecreasingBy};
ghost use Rattle.xfs_disk.specs.Blocks.{Image, bytes_of_block};
ghost use Rattle.xfs_disk.specs.declared.stamp.Stamp.{Stamp};
ghost use Rattle.xfs_geom.specs.Volumes.{volume_of};
ghost use Rattle.xfs_geom.specs.declared.geometry.Geometry.{Geometry};
ghost use Rattle.xfs_volume.specs.declared.clusters.ClusterRec.{ClusterRec};
ghost use Rattle.xfs_volume.specs.declared.files.FileRec.{FileRec};
ghost use Rattle.xfs_image.specs.Candidates.{candidates};
ghost use Rattle.xfs_image.specs.Claims.{candidate_files};
ghost use Rattle.xfs_made.specs.xfs_render.Clusters.{CanCluster};
ghost use Rattle.xfs_made.specs.xfs_render.Readiness.{IsWritable};
ghost use Rattle.xfs_made.specs.xfs_render.declared.wanted_slots.SlotWanted.{SlotWanted};
ghost use Rattle.xfs_request.specs.xfs_salvage.Claimable.{CanBeSalvaged};
ghost use Rattle.xfs_request.specs.xfs_salvage.declared.found.Salvaged.{Salvaged};
ghost use Rattle.xfs_request.specs.Requests.{volume_wanted};
ghost use Rattle.xfs_request.specs.Slots.{wanted_slots};
ghost use Rattle.xfs_request.specs.declared.seen.SlotSeen.{SlotSeen};
ghost use Rattle.xfs_made.specs.Handed.{IsKeptOf};

/// What is placed for a request can be rendered: its chunks are lawful records in their order, all that is taken has an owner, and
/// the root's cluster is taken (`wanted`). Its slots stand by inode (`slots`), and what is wanted of the slots of an image can be
/// made of what stands there (`made`).
pub fn requests_can_be_rendered()
    ensures wanted { (g : Geometry) (clusters : List ClusterRec) (files : List FileRec) (kept : Salvaged) (reserved : List ℕ)
        → CanBeSalvaged (volume_of g) clusters files → IsKeptOf (volume_of g) clusters files kept
        → IsWritable (volume_wanted g kept reserved) }
    ensures slots { (g : Geometry) (s : Stamp) (clusters : List ClusterRec) (files : List FileRec) (kept : Salvaged) (slots : List SlotSeen)
        → CanBeSalvaged (volume_of g) clusters files → IsKeptOf (volume_of g) clusters files kept
        → IsNonDecreasingBy (λ (w : SlotWanted). w.ino) (wanted_slots (volume_of g) s kept slots) }
    ensures made { (g : Geometry) (image : Image) (s : Stamp) (kept : Salvaged) (slots : List SlotSeen) (block : ℕ)
        → IsKeptOf (volume_of g) (candidates (volume_of g) image) (candidate_files (volume_of g) image) kept → block < g.dblocks
        → CanCluster (volume_of g) (wanted_slots (volume_of g) s kept slots) block (bytes_of_block image block) }
{}
