//! Laws about what is gathered of an image: it passes the tests that a rebuild makes; and about what is known where names change.
//! The functions do nothing; their contracts are the laws.

ghost use Rattle.std.specs.Prelude.{◌≡◌, ◌+◌, ◌<◌, ◌≤◌, ℕ, List, length, map};
ghost use Rattle.std.specs.List.{All};
ghost use Rattle.std.specs.List.Sorted.{IsNonDecreasingBy};
ghost use Rattle.xfs_disk.specs.Blocks.{Image, bytes_of_block};
ghost use Rattle.xfs_disk.specs.declared.stamp.Stamp.{Stamp};
ghost use Rattle.xfs_geom.specs.Volumes.{volume_of};
ghost use Rattle.xfs_geom.specs.declared.geometry.Geometry.{Geometry};
ghost use Rattle.xfs_image.specs.Candidates.{candidates};
ghost use Rattle.xfs_image.specs.Claims.{candidate_files, candidate_inodes};
ghost use Rattle.xfs_image.specs.Directories.{dirs_read, entries_read};
ghost use Rattle.xfs_naming.specs.Naming.{AreNamed, NumbersAscend, numbers_of};
ghost use Rattle.xfs_space.specs.Parts.{HasLawfulForks};
ghost use Rattle.xfs_place.specs.Pool.{IsRunOf};
ghost use Rattle.xfs_place.specs.Wanted.{CanBeKept, kept_runs};
ghost use Rattle.xfs_render.specs.Readiness.{IsWritable};
ghost use Rattle.xfs_render.specs.declared.wanted_slots.SlotWanted.{SlotWanted};
ghost use Rattle.xfs_scan.specs.xfs_slots.Facts.{slot_facts};
ghost use Rattle.xfs_scan.specs.xfs_slots.Gathered.{bare_inodes};
ghost use Rattle.xfs_scan.specs.Evidence.{IsEvidence};
ghost use Rattle.xfs_scan.specs.declared.evidence.Evidence.{Evidence};
ghost use Rattle.xfs_salvage.specs.Kept.{entries_of_kept, kept_dirs, kept_files};
ghost use Rattle.xfs_salvage.specs.declared.found.Salvaged.{Salvaged};
ghost use Rattle.xfs_request.specs.Slots.{wanted_slots};
ghost use Rattle.xfs_request.specs.declared.seen.SlotSeen.{SlotSeen};
ghost use Rattle.xfs_made.specs.Handed.{IsKeptOf};
ghost use Rattle.xfs_rebuild.specs.Changes.{CanChange};
ghost use Rattle.xfs_rebuild.specs.Names.{due_dirs, due_files};
ghost use Rattle.xfs_rebuild.specs.Rebuilds.{Ground, HasNamesDue, IsGround, slots_asked};
ghost use Rattle.xfs_rebuild.specs.Refusals.{IsRefused};
ghost use Rattle.xfs_rebuild.specs.declared.faults.RebuildFault.TheVariants as faults;
ghost use Rattle.xfs_rebuild.specs.declared.names_due.NamesDue.{NamesDue};
ghost use Rattle.xfs_rebuild.specs.Seen.{inodes_of_clusters, slots_seen};

/// Of each image there are as many facts as slots (`facts`), the inodes of files whose attributes do not read ascend (`bare`), what is
/// known of the slots stands by inode (`seen`), the kept files, entries and directories are in order (`named`), so are those that the
/// volume then has (`due`), and what is wanted of slots can be made of what stands there (`slots`).
pub fn images_can_be_rebuilt()
    ensures facts { (g : Geometry) (image : Image)
        → length (slot_facts (volume_of g) image) ≡ length (inodes_of_clusters (volume_of g) (candidates (volume_of g) image)) }
    ensures bare { (g : Geometry) (image : Image) → NumbersAscend 0 (bare_inodes (volume_of g) image) }
    ensures seen { (g : Geometry) (image : Image)
        → map (λ (slot : SlotSeen). slot.ino) (slots_seen (volume_of g) (candidates (volume_of g) image) (slot_facts (volume_of g) image) (bare_inodes (volume_of g) image))
        ≡ candidate_inodes (volume_of g) image }
    ensures named { (g : Geometry) (image : Image)
        → AreNamed (kept_files (volume_of g) (candidates (volume_of g) image) (candidate_files (volume_of g) image))
        (entries_of_kept (volume_of g) (candidates (volume_of g) image) (candidate_files (volume_of g) image) (entries_read (volume_of g) image (candidate_files (volume_of g) image)))
        (kept_dirs (volume_of g) (candidates (volume_of g) image) (candidate_files (volume_of g) image) (dirs_read (volume_of g) image (candidate_files (volume_of g) image))) }
    ensures due { (g : Geometry) (image : Image) (s : Stamp) (e : Evidence) (on : Ground) → IsEvidence g image e → IsGround (volume_of g) e on
        → AreNamed (due_files g.rootino on.kept (slots_asked g s on)) on.kept.entries (due_dirs g.rootino on.kept) }
    ensures slots { (g : Geometry) (image : Image) (s : Stamp) (kept : Salvaged) (slots : List SlotSeen) (block : ℕ)
        → IsKeptOf (volume_of g) (candidates (volume_of g) image) (candidate_files (volume_of g) image) kept → block < g.dblocks
        → CanChange (volume_of g) (wanted_slots (volume_of g) s kept slots) block (bytes_of_block image block) }
{}

/// Of a volume in which a name has to change all that is refused is known (`refused`); the files that it then has stand by number
/// (`files`), with forks that lie in it (`forks`); the kept clusters ascend (`clusters`) and lie in it (`inside`); what is wanted
/// of slots stands by inode (`slots`); and the runs that are taken lie in it (`taken`), can be kept (`kept`) and be written round
/// (`writable`).
pub fn known_names_are_in_order()
    ensures refused { (g : Geometry) (s : Stamp) (e : Evidence) (n : NamesDue) → IsRefused g s e (faults.Names n) → HasNamesDue g s n }
    ensures files { (g : Geometry) (s : Stamp) (n : NamesDue) → HasNamesDue g s n → NumbersAscend 0 (numbers_of n.files) }
    ensures forks { (g : Geometry) (s : Stamp) (n : NamesDue) → HasNamesDue g s n → All (HasLawfulForks (volume_of g)) n.files }
    ensures clusters { (g : Geometry) (s : Stamp) (n : NamesDue) → HasNamesDue g s n → NumbersAscend 0 n.clusters }
    ensures inside { (g : Geometry) (s : Stamp) (n : NamesDue) → HasNamesDue g s n → All (λ cluster. cluster + 4 ≤ g.dblocks) n.clusters }
    ensures slots { (g : Geometry) (s : Stamp) (n : NamesDue) → HasNamesDue g s n → IsNonDecreasingBy (λ (w : SlotWanted). w.ino) n.slots }
    ensures taken { (g : Geometry) (s : Stamp) (n : NamesDue) → HasNamesDue g s n → All (IsRunOf g.dblocks) n.wanted.taken }
    ensures kept { (g : Geometry) (s : Stamp) (n : NamesDue) → HasNamesDue g s n → CanBeKept (volume_of g) (kept_runs n.wanted) }
    ensures writable { (g : Geometry) (s : Stamp) (n : NamesDue) → HasNamesDue g s n → IsWritable n.wanted }
{}
