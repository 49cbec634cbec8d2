//! Laws about a volume in which names were changed. Each function does nothing; its contract is the law.

ghost use Rattle.xfs_restored.specs.Laws.Relinking.{RelinkedVolumesAreConsistentConsistent, RelinkedVolumesAreConsistentKeeps, RelinkedVolumesAreConsistentNames};

/// The image in which names were changed is consistent (`consistent`), each file that was protected is kept (`keeps`), and it has the
/// names that are wanted (`names`).
pub fn relinked_volumes_are_consistent()
    ensures consistent { RelinkedVolumesAreConsistentConsistent }
    ensures keeps { RelinkedVolumesAreConsistentKeeps }
    ensures names { RelinkedVolumesAreConsistentNames }
{}
