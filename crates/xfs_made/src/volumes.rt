//! Laws about a whole volume. Each function does nothing; its contract is the law.

ghost use Rattle.std.specs.Prelude.{ℕ, ◌≤◌, List};
ghost use Rattle.xfs_disk.specs.Blocks.{Image, IsImage};
ghost use Rattle.xfs_disk.specs.declared.stamp.Stamp.{Stamp};
ghost use Rattle.xfs_geom.specs.Volumes.{volume_of};
ghost use Rattle.xfs_geom.specs.declared.geometry.Geometry.{Geometry};
ghost use Rattle.xfs_render.specs.Plans.{HoldsPlan, IsOnce, planned};
ghost use Rattle.xfs_render.specs.declared.plan.Plan.{Plan};
ghost use Rattle.xfs_empty.specs.Geometry.{HasFirstChunk};
ghost use Rattle.xfs_empty.specs.Planning.{IsEmptyPlan};
ghost use Rattle.xfs_made.specs.Volumes.{IsMadeVolume};

/// No block is planned twice.
pub fn made_plans_plan_each_block_once()
    ensures { (g : Geometry) (sector : List ℕ) (s : Stamp) (plan : Plan) → IsEmptyPlan g sector s plan → HasFirstChunk (volume_of g) → IsOnce (planned plan) }
{}

/// An image that has the plan of an empty volume says what was placed, and nothing else, and it is consistent.
pub fn made_volumes_are_consistent()
    ensures { (g : Geometry) (sector : List ℕ) (s : Stamp) (plan : Plan) (blocks : ℕ) (image : Image) → IsEmptyPlan g sector s plan → HasFirstChunk (volume_of g)
        → IsImage blocks image → g.dblocks ≤ blocks → HoldsPlan image plan → IsMadeVolume g s image }
{}
