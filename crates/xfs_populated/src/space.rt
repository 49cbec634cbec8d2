//! Laws about the space of a new volume with files, its chunks, its counters and its log. Each function does nothing; its contract is the law.

ghost use Rattle.std.specs.Prelude.{◌≡◌, ℕ, ◌+◌, ◌^◌, List, length, map};
ghost use Rattle.std.specs.List.{All};
ghost use Rattle.xfs_disk.specs.Blocks.{Image};
ghost use Rattle.xfs_disk.specs.declared.stamp.Stamp.{Stamp};
ghost use Rattle.xfs_geom.specs.Volumes.{volume_of};
ghost use Rattle.xfs_geom.specs.declared.geometry.Geometry.{Geometry};
ghost use Rattle.xfs_log.specs.xfs_heads.declared.log_state.LogState.TheVariants.{Clean};
ghost use Rattle.xfs_image.specs.Lsns.{LsnPlace, lsn_at, lsn_places, lsn_places_in_order, lsns_read};
ghost use Rattle.xfs_laws.specs.Counting.{chunk_laws, counter_laws, list_laws, log_laws};
ghost use Rattle.xfs_made.specs.Volumes.{no_lsn};
ghost use Rattle.xfs_proto.specs.declared.protofile.ProtoNode.{ProtoNode};
ghost use Rattle.xfs_render.specs.declared.plan.Plan.{Plan};
ghost use Rattle.xfs_space.specs.SpaceLaws.{space_laws};
ghost use Rattle.xfs_volume.specs.Laws.{AreKept};
ghost use Rattle.xfs_filled.specs.Chunks.{chunk_starts};
ghost use Rattle.xfs_populated.specs.Names.{AreDirectoriesBuilt};
ghost use Rattle.xfs_populated.specs.Populated.{IsPopulated, filled_files, filled_groups};

/// The groups and the files that a new volume is due to have break no law of space: no block has two owners, the trees of free space are just
/// the blocks without one, and the trees of owners just the owners (`space`); its chunks say which inodes are in use (`chunks`), its counters
/// are sums (`counters`), and its free lists name each block once (`lists`).
pub fn filled_space_is_lawful()
    ensures space { (g : Geometry) (sector : List ℕ) (s : Stamp) (ns : List ProtoNode) (contents : List (List ℕ)) (plan : Plan) (blocks : ℕ) (image : Image) (crc agf agi : ℕ → ℕ)
        → (is : IsPopulated g sector s ns contents plan blocks image)
        → AreKept (space_laws (volume_of g) (filled_groups g ns is.filled.placed agf agi) (filled_files (volume_of g) s (chunk_starts g (length ns)) ns contents is.filled.placed.runs crc)) }
    ensures chunks { (g : Geometry) (sector : List ℕ) (s : Stamp) (ns : List ProtoNode) (contents : List (List ℕ)) (plan : Plan) (blocks : ℕ) (image : Image) (crc agf agi : ℕ → ℕ)
        → (is : IsPopulated g sector s ns contents plan blocks image)
        → AreKept (chunk_laws (volume_of g) (filled_files (volume_of g) s (chunk_starts g (length ns)) ns contents is.filled.placed.runs crc) (filled_groups g ns is.filled.placed agf agi)) }
    ensures counters { (g : Geometry) (sector : List ℕ) (s : Stamp) (ns : List ProtoNode) (contents : List (List ℕ)) (plan : Plan) (blocks : ℕ) (image : Image) (agf agi : ℕ → ℕ)
        → (is : IsPopulated g sector s ns contents plan blocks image)
        → AreKept (counter_laws (volume_of g) (filled_groups g ns is.filled.placed agf agi) is.filled.placed.counts) }
    ensures lists { (g : Geometry) (sector : List ℕ) (s : Stamp) (ns : List ProtoNode) (contents : List (List ℕ)) (plan : Plan) (blocks : ℕ) (image : Image) (agf agi : ℕ → ℕ)
        → (is : IsPopulated g sector s ns contents plan blocks image)
        → AreKept (list_laws (filled_groups g ns is.filled.placed agf agi)) }
{}

/// Where its directories were built, a new volume states no log sequence number at any place (`places`), so just these zeros are read
/// (`read`), and with them no law of the log is broken (`log`).
pub fn filled_lsns_are_zero()
    ensures places { (g : Geometry) (sector : List ℕ) (s : Stamp) (ns : List ProtoNode) (contents : List (List ℕ)) (plan : Plan) (blocks : ℕ) (image : Image) (crc agf agi : ℕ → ℕ)
        → (is : IsPopulated g sector s ns contents plan blocks image) → AreDirectoriesBuilt (volume_of g) (chunk_starts g (length ns)) ns
        → All (λ (place : LsnPlace). (lsn_at image place).lsn ≡ 0)
        (lsn_places (volume_of g) (filled_groups g ns is.filled.placed agf agi) (filled_files (volume_of g) s (chunk_starts g (length ns)) ns contents is.filled.placed.runs crc)) }
    ensures read { (g : Geometry) (sector : List ℕ) (s : Stamp) (ns : List ProtoNode) (contents : List (List ℕ)) (plan : Plan) (blocks : ℕ) (image : Image) (crc agf agi : ℕ → ℕ)
        → (is : IsPopulated g sector s ns contents plan blocks image) → AreDirectoriesBuilt (volume_of g) (chunk_starts g (length ns)) ns
        → lsns_read (volume_of g) image (filled_groups g ns is.filled.placed agf agi) (filled_files (volume_of g) s (chunk_starts g (length ns)) ns contents is.filled.placed.runs crc)
        ≡ map no_lsn
        (lsn_places_in_order
        (lsn_places (volume_of g) (filled_groups g ns is.filled.placed agf agi) (filled_files (volume_of g) s (chunk_starts g (length ns)) ns contents is.filled.placed.runs crc))) }
    ensures log { (g : Geometry) (sector : List ℕ) (s : Stamp) (ns : List ProtoNode) (contents : List (List ℕ)) (plan : Plan) (blocks : ℕ) (image : Image) (agf agi : ℕ → ℕ) (places : List LsnPlace)
        → (is : IsPopulated g sector s ns contents plan blocks image)
        → AreKept (log_laws (filled_groups g ns is.filled.placed agf agi) (Clean (2 ^ 32 + 2)) (map no_lsn places)) }
{}
