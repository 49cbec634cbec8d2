//! A law about the directories of a rebuilt volume. The function does nothing; its contract is the laws.

ghost use Rattle.xfs_restored.specs.Laws.KeptDirectories.{RewrittenDirectoriesReadDirs, RewrittenDirectoriesReadEntries};

/// The entries of the due files are those that are kept of the image (`entries`), and so are the directories, but for a root that is
/// made anew, which is whole, without entries, and its own parent (`dirs`).
pub fn rewritten_directories_read()
    ensures entries { RewrittenDirectoriesReadEntries }
    ensures dirs { RewrittenDirectoriesReadDirs }
{}
