//! Laws about the files of a rebuilt volume. Each function does nothing; its contract is the laws.

ghost use Rattle.xfs_restored.specs.Laws.KeptFiles.{RebuiltFilesOwnWhatIsKeptRuns, RebuiltFilesOwnWhatIsKeptUsed, RewrittenChunksAreKeptClusters, RewrittenChunksAreKeptInodes, RewrittenFilesRead};

/// The clusters of the chunks that are asked for what is kept of an image are the kept ones, however the rest is placed
/// (`clusters`), so their inodes are those of the kept clusters (`inodes`).
pub fn rewritten_chunks_are_kept()
    ensures clusters { RewrittenChunksAreKeptClusters }
    ensures inodes { RewrittenChunksAreKeptInodes }
{}

/// Where the inodes of the chunks are those of the kept clusters, the files that read are the due ones: the kept files and those
/// that are made anew, by number.
pub fn rewritten_files_read()
    ensures { RewrittenFilesRead }
{}

/// The rebuilt files own just the blocks that the kept files own (`runs`), and have the numbers of these and of those that are made anew
/// (`used`).
pub fn rebuilt_files_own_what_is_kept()
    ensures runs { RebuiltFilesOwnWhatIsKeptRuns }
    ensures used { RebuiltFilesOwnWhatIsKeptUsed }
{}
