//! A law about the log sequence numbers of a volume in which names were changed. The function does nothing; its contract is the law.

ghost use Rattle.xfs_restored.specs.Laws.Lsns.{RenamedLsnsAreBehind};

/// The log is clean, and no log sequence number is above its head: each of those that stay is one by which the log was judged, and what
/// is made anew has none. This where the numbers of links are those of the files, slots and the blocks of files that were there before
/// stay but where they are made anew, and files that are built anew are directories.
pub fn renamed_lsns_are_behind()
    ensures { RenamedLsnsAreBehind }
{}
