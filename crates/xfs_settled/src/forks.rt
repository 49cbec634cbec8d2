//! Laws about the forks of directories that are built anew. The function does nothing; its contract is the laws.

ghost use Rattle.xfs_settled.specs.Laws.Forks.{PlacedDirectoriesFindTheirRunsCounts, PlacedDirectoriesFindTheirRunsInside, PlacedDirectoriesFindTheirRunsLow, PlacedDirectoriesFindTheirRunsServed};

/// Directories that are built of the names that are wanted have fewer than 2^21 blocks of each kind (`counts`). Where the runs of their
/// asks are placed, each finds as many cuts and runs as it asks for (`served`); a run is of fewer than 2^21 blocks, all before file block
/// 2^54 (`low`), and starts in the volume (`inside`).
pub fn placed_directories_find_their_runs()
    ensures counts { PlacedDirectoriesFindTheirRunsCounts }
    ensures served { PlacedDirectoriesFindTheirRunsServed }
    ensures low { PlacedDirectoriesFindTheirRunsLow }
    ensures inside { PlacedDirectoriesFindTheirRunsInside }
{}
