//! Laws about the numbers of a volume in which names were changed. The function does nothing; its contract is the laws.

ghost use Rattle.xfs_restored.specs.Laws.Numbers.{RenamedNumbersAreKnownDirectories, RenamedNumbersAreKnownNumbered, RenamedNumbersAreKnownStaying};

/// The numbers of links are those of the files (`numbered`). Each slot of the clusters is made anew or stays, and the blocks of the files
/// that were there before stay, but for those of data that is built anew (`staying`). What is built anew are directories (`directories`).
pub fn renamed_numbers_are_known()
    ensures numbered { RenamedNumbersAreKnownNumbered }
    ensures staying { RenamedNumbersAreKnownStaying }
    ensures directories { RenamedNumbersAreKnownDirectories }
{}
