//! A law about the files of a volume in which names were changed. The function does nothing; its contract is the law.

ghost use Rattle.xfs_restored.specs.Laws.Files.{RenamedFilesRead};

/// Where the inodes of the chunks are those of the clusters that the volume then has, the files that read are the due ones: one for each
/// file that there is to be, by number.
pub fn renamed_files_read()
    ensures { RenamedFilesRead }
{}
