//! Laws about the groups, the superblocks and the log of a volume that was rebuilt. Each function does nothing; its contract is the
//! laws.

ghost use Rattle.xfs_restored.specs.Laws.RewrittenHeads.{RebuiltGroupsRead, RebuiltLogsAreCleanBlank, RebuiltLogsAreCleanClean, RebuiltLogsAreCleanDue, RebuiltLogsAreCleanStays, RebuiltSupersAreElectedBackups, RebuiltSupersAreElectedCounts, RebuiltSupersAreElectedElected};

/// All groups read, with the chunks of the kept clusters and what was placed in each.
pub fn rebuilt_groups_read()
    ensures { RebuiltGroupsRead }
{}

/// The primary superblock is elected and states the volume (`elected`), all backups agree with it (`backups`), and it has the counters
/// of what was placed (`counts`).
pub fn rebuilt_supers_are_elected()
    ensures elected { RebuiltSupersAreElectedElected }
    ensures backups { RebuiltSupersAreElectedBackups }
    ensures counts { RebuiltSupersAreElectedCounts }
{}

/// The log is clean: of the cycle that is due to it where it is to be blank (`blank`), else as it was (`stays`), which was clean
/// then; so it is in any case (`clean`). Which of both goes by the numbers that stay (`due`).
pub fn rebuilt_logs_are_clean()
    ensures blank { RebuiltLogsAreCleanBlank }
    ensures stays { RebuiltLogsAreCleanStays }
    ensures clean { RebuiltLogsAreCleanClean }
    ensures due { RebuiltLogsAreCleanDue }
{}
