//! Laws about directories that were built anew. Each function does nothing; its contract is the laws.

ghost use Rattle.xfs_restored.specs.Laws.Directories.{BuiltForksFitShort, BuiltForksFitTold, DirectoriesFindTheirForks, DirectoriesStandInTheirRuns, RebuiltDirectoriesReadHeld, RebuiltDirectoriesReadReads, RebuiltDirectoriesReadStands, RebuiltRunsAreExtentsExtents, RebuiltRunsAreExtentsFew};

/// An image that has the blocks of directories as objects has those of each directory in the runs of its own, in the order of its
/// file blocks, however many runs these are.
pub fn directories_stand_in_their_runs()
    ensures { DirectoriesStandInTheirRuns }
{}

/// In an image that holds the plan of a rebuild in which names change, the blocks of each directory that is built anew stand in its
/// runs, in the order of its file blocks, each as it was built and sealed for it at its place (`stands`). A file with its number that
/// has these runs as its extents, or its short form in its slot, reads as whole, with the entries that are wanted, in their order, and
/// the parent that is wanted (`reads`). All this of what a plan says of directories, which an image that holds it has (`held`).
pub fn rebuilt_directories_read()
    ensures held { RebuiltDirectoriesReadHeld }
    ensures stands { RebuiltDirectoriesReadStands }
    ensures reads { RebuiltDirectoriesReadReads }
{}

/// Each directory that is built anew finds its own fork among those of all: that of its runs, or its short form.
pub fn directories_find_their_forks()
    ensures { DirectoriesFindTheirForks }
{}

/// The runs of each directory with blocks, where they were placed for the plan, are extents of a file: they lie in the volume, in file
/// order, no two with a block in common, and have the blocks that the directory was built with (`extents`). They are no more than its
/// fork has room for extents of 16 bytes (`few`).
pub fn rebuilt_runs_are_extents()
    ensures extents { RebuiltRunsAreExtentsExtents }
    ensures few { RebuiltRunsAreExtentsFew }
{}

/// A directory that was built in short form has no more bytes than there is room in its fork (`short`), and the room that is told of
/// the fork of a file that is built anew is that up to its attributes (`told`).
pub fn built_forks_fit()
    ensures short { BuiltForksFitShort }
    ensures told { BuiltForksFitTold }
{}
