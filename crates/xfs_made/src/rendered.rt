//! Laws about images that have what was rendered. Each function does nothing; its contract is the law.

ghost use Rattle.std.specs.Prelude.{◌≡◌, ℕ, ◌+◌, ◌*◌, ◌^◌, ◌≤◌, ◌<◌, true, false, List, ◌∷◌, length, Ok, Some};
ghost use Rattle.std.specs.List.{All};
ghost use Rattle.xfs_disk.specs.Blocks.{Image};
ghost use Rattle.xfs_geom.specs.Conversions.{inode_of};
ghost use Rattle.xfs_log.specs.xfs_heads.declared.log_state.LogState.{LogState};
ghost use Rattle.xfs_place.specs.declared.placed.Placed.{Placed};
ghost use Rattle.xfs_place.specs.declared.wanted.Wanted.{Wanted};
ghost use Rattle.xfs_image.specs.Consistent.{IsElected, backup_agrees};
ghost use Rattle.xfs_image.specs.Groups.{groups_read};
ghost use Rattle.xfs_image.specs.Lsns.{LsnPlace, at, groups_places, lsn_at};
ghost use Rattle.xfs_image.specs.Slots.{slot_bytes};
ghost use Rattle.xfs_image.specs.View.{counts_of, log_of};
ghost use Rattle.xfs_render.specs.Clusters.{slot_in};
ghost use Rattle.xfs_render.specs.Rendering.{is_head, old_at, byte_place, volume};
ghost use Rattle.xfs_render.specs.Slots.{IsSlotDue};
ghost use Rattle.xfs_render.specs.declared.bytes.Bytes.{Bytes};
ghost use Rattle.xfs_made.specs.Groups.{due_groups};
ghost use Rattle.xfs_made.specs.Standing.{IsStanding, agf_crc_at, agi_crc_at};

/// All groups read, with their headers and trees as they were placed, and the log is clean where it was to be blank.
pub fn rendered_groups_read()
    ensures groups { (w : Wanted) (p : Placed) (b : Bytes) (super : List ℕ) (image : Image) → IsStanding w p b super image
        → groups_read (volume w) image ≡ Ok (due_groups (volume w) w.inodes p.groups (agf_crc_at (volume w) image) (agi_crc_at (volume w) image)) }
    ensures log { (w : Wanted) (p : Placed) (b : Bytes) (super : List ℕ) (image : Image) (cycle : ℕ) → IsStanding w p b super image → b.cycle ≡ Some cycle
        → log_of (volume w) image ≡ LogState.Clean (cycle * 2 ^ 32 + 2) }
{}

/// The primary superblock is elected and states the volume, all backups agree with it, and it has the counters of what was placed.
pub fn rendered_super_is_elected()
    ensures elected { (w : Wanted) (p : Placed) (b : Bytes) (super : List ℕ) (image : Image) → IsStanding w p b super image
        → (is : IsElected (volume w) image) × (is.vote.place ≡ 0) }
    ensures backups { (w : Wanted) (p : Placed) (b : Bytes) (super : List ℕ) (image : Image) → IsStanding w p b super image
        → (ag : ℕ) → 1 ≤ ag → ag < w.geometry.agcount → backup_agrees (volume w) image ag ≡ true }
    ensures counts { (w : Wanted) (p : Placed) (b : Bytes) (super : List ℕ) (image : Image) → IsStanding w p b super image → counts_of image ≡ p.counts }
{}

/// The superblock, the headers of all groups and the blocks of their trees state no log sequence number.
pub fn rendered_lsns_are_zero()
    ensures { (w : Wanted) (p : Placed) (b : Bytes) (super : List ℕ) (image : Image) (agf_crc agi_crc : ℕ → ℕ) → IsStanding w p b super image
        → All (λ (place : LsnPlace). (lsn_at image place).lsn ≡ 0) (at 240 0 ∷ groups_places (volume w) 0 (due_groups (volume w) w.inodes p.groups agf_crc agi_crc)) }
{}

/// Each slot of a block whose bytes were at hand is what was wanted of it, or as it was.
pub fn rendered_slots_stand()
    ensures { (w : Wanted) (p : Placed) (b : Bytes) (super : List ℕ) (image : Image) → IsStanding w p b super image
        → (i k : ℕ) → i < length b.places → k < 8 → is_head (volume w) (byte_place b i) ≡ false → byte_place b i < w.geometry.dblocks
        → IsSlotDue (volume w) b.stamp.generation b.slots (inode_of (volume w) (byte_place b i) k) (slot_in (old_at b i) k)
        (slot_bytes (volume w) image (inode_of (volume w) (byte_place b i) k)) }
{}
