//! Laws about the slots of a volume in which names change. Each function does nothing; its contract is the laws.

ghost use Rattle.xfs_restored.specs.Laws.Slots.{ChangesJoinSlots, ClusterChangesAreWantedFree, ClusterChangesAreWantedLost, ForkedDirectoriesReadBlocks, ForkedDirectoriesReadShort, ForksAreWantedAlone, ForksAreWantedAny, ForksAreWantedBeside, ForksReadBack, FreshDirectoriesReadBlocks, FreshDirectoriesReadBytes, FreshDirectoriesReadShort, PlacedRunsAreExtentsCount, PlacedRunsAreExtentsExtents, PlacedRunsAreExtentsFit, RebuiltSlotsReadBlocks, RebuiltSlotsReadBytes, RebuiltSlotsReadShort, SlotsHaveBuiltFilesFresh, SlotsHaveBuiltFilesFreshShort, SlotsHaveBuiltFilesRebuilt, SlotsHaveBuiltFilesRebuiltShort};

/// What is then wanted of a slot is what was wanted of it before, with what names change in it.
pub fn changes_join_slots()
    ensures { ChangesJoinSlots }
{}

/// The extents of a fork that has the bytes of runs are those of the runs.
pub fn forks_read_back()
    ensures { ForksReadBack }
{}

/// Of a new cluster the first inode is lost+found: of its slot its core, its fork and its links are wanted (`lost`). The slots of
/// the others, of which nothing was wanted before, are free (`free`).
pub fn cluster_changes_are_wanted()
    ensures lost { ClusterChangesAreWantedLost }
    ensures free { ClusterChangesAreWantedFree }
{}

/// The slot of a directory that is made anew reads as a file in use: in short form (`short`), whose bytes it has (`bytes`), or in
/// blocks, whose extents are those of the runs (`blocks`). So reads lost+found where it is new, and a root that is made anew.
pub fn fresh_directories_read()
    ensures bytes { FreshDirectoriesReadBytes }
    ensures short { FreshDirectoriesReadShort }
    ensures blocks { FreshDirectoriesReadBlocks }
{}

/// Runs of a directory that stand on blocks of the volume without a fixed use, no two of which have a block in common, at file blocks
/// that ascend, have extents that lie in the volume in file order (`extents`), and fit the packed form (`fit`).
pub fn placed_runs_are_extents()
    ensures fit { PlacedRunsAreExtentsFit }
    ensures extents { PlacedRunsAreExtentsExtents }
    ensures count { PlacedRunsAreExtentsCount }
{}

/// The slot of a directory that is kept and built anew reads in the new image as the directory with the fork that was built, with the
/// attributes that it had or without them, and with its number of names: its extents are those of its runs (`blocks`), or it has none
/// and is in short form (`short`). It has the bytes of the fork (`bytes`).
pub fn rebuilt_slots_read()
    ensures blocks { RebuiltSlotsReadBlocks }
    ensures short { RebuiltSlotsReadShort }
    ensures bytes { RebuiltSlotsReadBytes }
{}

/// The slot of a directory whose data fork was replaced reads in another image as the directory with that fork, and the attributes
/// that it had: with the extents of the runs (`blocks`), or in short form (`short`), where the block of its attributes is as it was
/// and the new fork stands beside them.
pub fn forked_directories_read()
    ensures blocks { ForkedDirectoriesReadBlocks }
    ensures short { ForkedDirectoriesReadShort }
{}

/// Of the slot of a directory that is built anew its fork is wanted, beside what was wanted before (`any`): where the directory is no
/// new lost+found and nothing was wanted, just the fork and its links (`alone`), else that too (`beside`).
pub fn forks_are_wanted()
    ensures any { ForksAreWantedAny }
    ensures alone { ForksAreWantedAlone }
    ensures beside { ForksAreWantedBeside }
{}

/// The files that slots then read as are those that the directories were built for: kept ones (`rebuilt`, `rebuilt_short`), and those
/// that are made anew (`fresh`, `fresh_short`).
pub fn slots_have_built_files()
    ensures rebuilt { SlotsHaveBuiltFilesRebuilt }
    ensures rebuilt_short { SlotsHaveBuiltFilesRebuiltShort }
    ensures fresh { SlotsHaveBuiltFilesFresh }
    ensures fresh_short { SlotsHaveBuiltFilesFreshShort }
{}
