//! Laws about a volume that was rebuilt. Each function does nothing; its contract is the law.

ghost use Rattle.xfs_restored.specs.Laws.Volumes.{DueVolumesAreLawful, RestoredVolumesAreConsistent, RestoredVolumesHaveWhatTheyNamed, RestoredVolumesSayWhatIsDue};

/// An image in which a rebuild was written says just what was due: the groups with what was placed in each, the kept files and those
/// that are made anew, the kept entries and directories, and its log.
pub fn restored_volumes_say_what_is_due()
    ensures { RestoredVolumesSayWhatIsDue }
{}

/// So it has the names that are kept.
pub fn restored_volumes_have_what_they_named()
    ensures { RestoredVolumesHaveWhatTheyNamed }
{}

/// What was due breaks no law: space, counters, free lists, chunks, names and the log.
pub fn due_volumes_are_lawful()
    ensures { DueVolumesAreLawful }
{}

/// So the image is consistent.
pub fn restored_volumes_are_consistent()
    ensures { RestoredVolumesAreConsistent }
{}
