//! Laws about the blocks of a plan. The function does nothing; its contract is the laws.

ghost use Rattle.xfs_restored.specs.Laws.Once.{RebuildsPlanEachBlockOnceLeft, RebuildsPlanEachBlockOnceRebuilds};

/// No block is planned twice in the plan of a rebuild (`rebuilds`), nor in what is left of it to write (`left`).
pub fn rebuilds_plan_each_block_once()
    ensures rebuilds { RebuildsPlanEachBlockOnceRebuilds }
    ensures left { RebuildsPlanEachBlockOnceLeft }
{}
