//! Laws about the space of a volume in which names were changed. Each function does nothing; its contract is the laws.

ghost use Rattle.xfs_restored.specs.Laws.Space.{RenamedChunksAreSettledClusters, RenamedChunksAreSettledInodes, RenamedSpaceIsLawfulChains, RenamedSpaceIsLawfulChunks, RenamedSpaceIsLawfulCounters, RenamedSpaceIsLawfulLists, RenamedSpaceIsLawfulSpace};

/// The chunks of the groups, whatever is placed in these, have the kept clusters, and a new one where lost+found has one (`clusters`);
/// so their inodes are those of these clusters (`inodes`).
pub fn renamed_chunks_are_settled()
    ensures clusters { RenamedChunksAreSettledClusters }
    ensures inodes { RenamedChunksAreSettledInodes }
{}

/// Where the numbers of links are those of the files (`AreNumbered`): each block has the owner that the groups record, those that have
/// none are free (`space`), the counters count what is there (`counters`), chunks say which inodes are in use (`chunks`), free lists
/// have each block once (`lists`), and no inode waits to be removed (`chains`).
pub fn renamed_space_is_lawful()
    ensures space { RenamedSpaceIsLawfulSpace }
    ensures counters { RenamedSpaceIsLawfulCounters }
    ensures chunks { RenamedSpaceIsLawfulChunks }
    ensures lists { RenamedSpaceIsLawfulLists }
    ensures chains { RenamedSpaceIsLawfulChains }
{}
