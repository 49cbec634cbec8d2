//! Laws about what is placed in a volume. Each function does nothing; its contract is the law.

ghost use Rattle.std.specs.Prelude.{◌≡◌, ℕ, ◌<◌, List, length, map};
ghost use Rattle.std.specs.List.{All};
ghost use Rattle.xfs_geom.specs.Volumes.{Volume, volume_of};
ghost use Rattle.xfs_geom.specs.declared.geometry.Geometry.{Geometry};
ghost use Rattle.xfs_geom.specs.declared.records.Counts.{Counts};
ghost use Rattle.xfs_geom.specs.declared.records.InoRec.{InoRec};
ghost use Rattle.xfs_geom.specs.declared.records.Run.{Run};
ghost use Rattle.xfs_kinds.specs.InodeTrees.{ino_shape};
ghost use Rattle.xfs_volume.specs.declared.files.FileRec.{FileRec};
ghost use Rattle.xfs_volume.specs.Laws as Laws;
ghost use Rattle.xfs_space.specs.SpaceLaws.{IsSpaceLawful};
ghost use Rattle.xfs_laws.specs.Counting.{by_group, chunk_laws, chunk_number, counter_laws, due_chunk, group_chains, list_laws};
ghost use Rattle.xfs_place.specs.Counts.{placed_counts};
ghost use Rattle.xfs_place.specs.Standing.{AreOfPool};
ghost use Rattle.xfs_place.specs.Wanted.{CanBeKept, ArePlaced, inodes_in_group};
ghost use Rattle.xfs_place.specs.declared.placed.GroupPlaced.{GroupPlaced};
ghost use Rattle.xfs_place.specs.declared.wanted.GroupInodes.{GroupInodes};
ghost use Rattle.xfs_made.specs.Groups.{due_groups};
ghost use Rattle.xfs_made.specs.Keeping.{KeepsJust};

/// The groups of a volume in which all is placed beside what is kept: no block has two owners, the trees of free space are
/// just the blocks without one, and the trees of owners just the owners, where what is kept is what clusters and files own.
pub fn placed_space_is_lawful()
    ensures { (g : Geometry) (kept : List Run) (reserved : List ℕ) (inodes : List GroupInodes) (groups : List GroupPlaced) (files : List FileRec) (agf_crc agi_crc : ℕ → ℕ)
        → CanBeKept (volume_of g) kept → ArePlaced (volume_of g) kept reserved inodes g.agcount groups → AreOfPool (volume_of g) kept reserved inodes g.agcount groups
        → KeepsJust (volume_of g) kept inodes files
        → IsSpaceLawful (volume_of g) (due_groups (volume_of g) inodes groups agf_crc agi_crc) files }
{}

/// The counters of such a volume are the sums of its groups, its free lists name each block once, no inode waits to be removed, and
/// its chunks say which inodes are in use, where each of those that were placed does.
pub fn placed_counts_are_lawful()
    ensures counters { (g : Geometry) (kept : List Run) (reserved : List ℕ) (inodes : List GroupInodes) (groups : List GroupPlaced) (counts : Counts) (agf_crc agi_crc : ℕ → ℕ)
        → length inodes ≡ g.agcount → ArePlaced (volume_of g) kept reserved inodes g.agcount groups → counts ≡ placed_counts inodes groups
        → Laws.AreKept (counter_laws (volume_of g) (due_groups (volume_of g) inodes groups agf_crc agi_crc) counts) }
    ensures lists { (g : Geometry) (kept : List Run) (reserved : List ℕ) (inodes : List GroupInodes) (groups : List GroupPlaced) (agf_crc agi_crc : ℕ → ℕ)
        → ArePlaced (volume_of g) kept reserved inodes g.agcount groups → AreOfPool (volume_of g) kept reserved inodes g.agcount groups
        → Laws.AreKept (list_laws (due_groups (volume_of g) inodes groups agf_crc agi_crc)) }
    ensures chains { (g : Geometry) (inodes : List GroupInodes) (groups : List GroupPlaced) (agf_crc agi_crc : ℕ → ℕ)
        → Laws.AreKept (by_group group_chains 0 (due_groups (volume_of g) inodes groups agf_crc agi_crc)) }
    ensures chunks { (g : Geometry) (kept : List Run) (reserved : List ℕ) (inodes : List GroupInodes) (groups : List GroupPlaced) (files : List FileRec) (agf_crc agi_crc : ℕ → ℕ)
        → ArePlaced (volume_of g) kept reserved inodes g.agcount groups
        → ((ag : ℕ) → ag < g.agcount → All (λ (r : InoRec). chunk_number (due_chunk (volume_of g) files ag ((ino_shape ag).settled r)) ≡ chunk_number ((ino_shape ag).settled r)) (inodes_in_group inodes ag))
        → Laws.AreKept (chunk_laws (volume_of g) files (due_groups (volume_of g) inodes groups agf_crc agi_crc)) }
{}
