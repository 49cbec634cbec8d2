//! A law about the blocks that directories give up. The function does nothing; its contract is the law.

ghost use Rattle.xfs_settled.specs.Laws.Replaced.{GatheredExtentsLieInside};

/// The extents of the files that are gathered of any image lie in the volume, so that a directory that is built anew gives up blocks of
/// it.
pub fn gathered_extents_lie_inside()
    ensures { GatheredExtentsLieInside }
{}
