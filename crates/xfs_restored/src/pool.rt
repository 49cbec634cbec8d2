//! Laws about the blocks that a rebuild takes. The function does nothing; its contract is the laws.

ghost use Rattle.xfs_restored.specs.Laws.Pool.{RebuildsUseThePoolClaimed, RebuildsUseThePoolFresh, RebuildsUseThePoolInPlace, RebuildsUseThePoolInside, RebuildsUseThePoolLog};

/// The first blocks of the plan of a rebuild are blocks that nothing kept has, without a fixed use and not reserved (`fresh`);
/// written in place are first blocks of groups, blocks of kept clusters, and the log (`in_place`), which is left alone where it stays
/// (`log`). All lie in the volume (`inside`), and no kept file claims one (`claimed`).
pub fn rebuilds_use_the_pool()
    ensures fresh { RebuildsUseThePoolFresh }
    ensures in_place { RebuildsUseThePoolInPlace }
    ensures log { RebuildsUseThePoolLog }
    ensures inside { RebuildsUseThePoolInside }
    ensures claimed { RebuildsUseThePoolClaimed }
{}
