//! A law about the names of a volume in which names were changed. The function does nothing; its contract is the law.

ghost use Rattle.xfs_restored.specs.Laws.DueNames.{RenamedNamesAreLawful};

/// The files, the entries and the directories that a volume is due to have once its names are changed break no law of names.
pub fn renamed_names_are_lawful()
    ensures { RenamedNamesAreLawful }
{}
