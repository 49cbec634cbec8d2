//! Laws about the blocks of a plan. The function does nothing; its contract is the laws.

ghost use Rattle.std.specs.List.{All};
ghost use Rattle.xfs_empty.specs.Planning.{StandsFor};
ghost use Rattle.xfs_place.specs.Wanted.{kept_runs};
ghost use Rattle.xfs_place.specs.declared.placed.Placed.{Placed};
ghost use Rattle.xfs_place.specs.declared.wanted.Wanted.{Wanted};
ghost use Rattle.xfs_render.specs.Drafts.{row_places};
ghost use Rattle.xfs_render.specs.Plans.{IsOnce, planned};
ghost use Rattle.xfs_render.specs.Rendering.{IsRendered, volume};
ghost use Rattle.xfs_render.specs.declared.bytes.Bytes.{Bytes};
ghost use Rattle.xfs_render.specs.declared.plan.Plan.{Plan};
ghost use Rattle.xfs_made.specs.Unused.{AreHeadsOrKept, IsFreshFor};

/// In a plan that renders what is placed beside some runs, the first blocks are blocks that nothing had, or blocks of new chunks and of
/// objects (`fresh`). Where the places whose bytes are at hand are first blocks of groups and blocks of these runs, each once, no block
/// is planned twice (`once`).
pub fn plans_have_blocks_of_their_own()
    ensures once { (w : Wanted) (p : Placed) (b : Bytes) (plan : Plan) → StandsFor w p → IsRendered w p b plan → AreHeadsOrKept (volume w) (kept_runs w) b.places
        → IsOnce (planned plan) }
    ensures fresh { (w : Wanted) (p : Placed) (b : Bytes) (plan : Plan) → StandsFor w p → IsRendered w p b plan → All (IsFreshFor w p) (row_places plan.fresh) }
{}
