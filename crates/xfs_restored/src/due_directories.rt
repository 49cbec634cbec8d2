//! A law about the directories of a volume in which names were changed. The function does nothing; its contract is the law.

ghost use Rattle.xfs_restored.specs.Laws.DueDirectories.{RenamedDirectoriesReadDirs, RenamedDirectoriesReadEntries};

/// The directories among the files that are due read with the entries that are due (`entries`), each whole, with its parent (`dirs`):
/// those that were built anew as they were wanted, the others as they were found.
pub fn renamed_directories_read()
    ensures entries { RenamedDirectoriesReadEntries }
    ensures dirs { RenamedDirectoriesReadDirs }
{}
