//! A law about the names of a volume that was rebuilt. The function does nothing; its contract is the law.

ghost use Rattle.xfs_restored.specs.Laws.Names.{RestoredNamesAreLawful};

/// Where no name has to change, the files that the volume then has, with their checksums and attributes, break no law of names.
pub fn restored_names_are_lawful()
    ensures { RestoredNamesAreLawful }
{}
