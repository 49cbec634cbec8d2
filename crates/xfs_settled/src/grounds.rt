//! Laws about what a rebuild goes by. Each function does nothing; its contract is the law.

ghost use Rattle.xfs_settled.specs.Laws.Grounds.{BytesAtHandAreOne, GroundsAreOne};

/// An image gives a rebuild one thing to go by, whatever evidence was gathered of it.
pub fn grounds_are_one()
    ensures { GroundsAreOne }
{}

/// What a plan is made of, beside what is placed, is given by the superblock, the stamp, the clusters, what is wanted of their slots, the
/// numbers that stay, the log, and the image.
pub fn bytes_at_hand_are_one()
    ensures { BytesAtHandAreOne }
{}
