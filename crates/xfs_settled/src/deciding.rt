//! Laws about the files and entries by which names are decided. The function does nothing; its contract is the laws.

ghost use Rattle.xfs_settled.specs.Laws.Deciding.{GatheredNamesCanBeDecidedEntries, GatheredNamesCanBeDecidedFiles, GatheredNamesCanBeDecidedRoot};

/// Of what is gathered of any image names can be decided: its files ascend by numbers below 2^32 and are fewer (`files`), its entries
/// stand by directory, each of a directory among the files (`entries`), and its root is a directory (`root`).
pub fn gathered_names_can_be_decided()
    ensures files { GatheredNamesCanBeDecidedFiles }
    ensures entries { GatheredNamesCanBeDecidedEntries }
    ensures root { GatheredNamesCanBeDecidedRoot }
{}
