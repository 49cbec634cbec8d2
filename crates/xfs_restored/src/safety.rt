//! A law about protected files. The function does nothing; its contract is the law.

ghost use Rattle.xfs_restored.specs.Laws.Safety.{RestoredVolumesKeepProtectedFiles};

/// Once a rebuild is written, each file that was protected is kept: it has the same bytes, attributes, target and device, and the same
/// core but for its number of names, the chain of inodes that wait to be removed, and its checksum.
pub fn restored_volumes_keep_protected_files()
    ensures { RestoredVolumesKeepProtectedFiles }
{}
