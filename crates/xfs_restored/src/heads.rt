//! Laws about the groups, the superblocks and the log of a volume in which names were changed. The function does nothing; its contract
//! is the laws.

ghost use Rattle.xfs_restored.specs.Laws.Heads.{RenamedHeadsReadBackups, RenamedHeadsReadCounts, RenamedHeadsReadElected, RenamedHeadsReadGroups, RenamedHeadsReadLog};

/// All groups read, with the chunks of the clusters that the volume then has and what was placed in each (`groups`). The primary
/// superblock is elected and states the volume (`elected`), all backups agree with it (`backups`), and it has the counters of what was
/// placed (`counts`). The log is the one that is due to the numbers that stay (`log`).
pub fn renamed_heads_read()
    ensures groups { RenamedHeadsReadGroups }
    ensures elected { RenamedHeadsReadElected }
    ensures backups { RenamedHeadsReadBackups }
    ensures counts { RenamedHeadsReadCounts }
    ensures log { RenamedHeadsReadLog }
{}
