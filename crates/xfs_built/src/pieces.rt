//! Laws about the runs of asks. Each function does nothing; its contract is the laws.

ghost use Rattle.std.specs.Prelude.{◌≡◌, ℕ, ◌+◌, ◌^◌, ◌<◌, ◌≤◌, List, ◌++◌, map};
ghost use Rattle.std.specs.List.{AllByRecursion, flat_map, range_with_len};
ghost use Rattle.xfs_disk.specs.Blocks.{Image};
ghost use Rattle.xfs_geom.specs.Volumes.{Volume};
ghost use Rattle.xfs_geom.specs.declared.records.Run.{Run};
ghost use Rattle.xfs_image.specs.Directories.{blocks_of_extent};
ghost use Rattle.xfs_place.specs.Objects.{AreJoined, ServeAsks};
ghost use Rattle.xfs_place.specs.declared.wanted.RunAsk.{RunAsk};
ghost use Rattle.xfs_render.specs.declared.object_blocks.ObjectAsk.{ObjectAsk};
ghost use Rattle.xfs_built.specs.Extents.{extent_of_run};
ghost use Rattle.xfs_built.specs.Pieces.{IsFrontOfAsks, IsPlainAsk, offsets_in, placed_blocks, places_of_runs};

/// The runs of an ask of a file, one behind the other, have the file blocks that were asked for, in order.
pub fn runs_of_asks_join()
    ensures { (ask : RunAsk) (runs : List Run) → ask.owner < 2 ^ 63 → ask.offset_word + ask.blocks < 2 ^ 61 → AreJoined ask runs
        → offsets_in runs ≡ range_with_len ask.offset_word ask.blocks }
{}

/// The first of some asks have the first runs, with the file blocks that they ask for, and the others those behind them.
pub fn asks_share_runs()
    ensures { (ino : ℕ) (front rest : List RunAsk) (others : List ObjectAsk) (cuts : List ℕ) (runs : List Run) → ino < 2 ^ 63
        → AllByRecursion (IsPlainAsk ino) front → ServeAsks (front ++ rest) cuts runs → IsFrontOfAsks ino front rest others cuts runs }
{}

/// The extents of runs map the blocks of these in order.
pub fn runs_map_in_order()
    ensures { (v : Volume) (image : Image) → 1 ≤ v.agblocks → v.agblocks ≤ 2 ^ v.agblklog → (runs : List Run)
        → flat_map (blocks_of_extent v image) (map (extent_of_run v) runs) ≡ placed_blocks image (places_of_runs runs) (offsets_in runs) }
{}
