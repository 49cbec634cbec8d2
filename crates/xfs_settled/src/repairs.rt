//! Laws about repairs. Each function does nothing; its contract is the laws.

ghost use Rattle.xfs_settled.specs.Laws.Repairs.{OutcomesAreOneImage, OutcomesAreOneOutcome, RepairsAreOneBlocks, RepairsAreOneImage};

/// Two repairs that rebuild one image, with one stamp, leave the same image, block by block (`image`), and have written as many blocks
/// (`blocks`), whatever was found first.
pub fn repairs_are_one()
    ensures image { RepairsAreOneImage }
    ensures blocks { RepairsAreOneBlocks }
{}

/// Two repairs of one image of which the same is asked, with one stamp, have the same outcome (`outcome`) and leave the same image
/// (`image`), where neither meets a fault of the disk or want of memory: how the work is shared out decides nothing.
pub fn outcomes_are_one()
    ensures outcome { OutcomesAreOneOutcome }
    ensures image { OutcomesAreOneImage }
{}
