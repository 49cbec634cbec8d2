//! Laws about what is wanted of slots once names are settled. The function does nothing; its contract is the laws.

ghost use Rattle.xfs_settled.specs.Laws.GatheredSlots.{SettledSlotsStandByNumber};

/// With what names change of any image, what is wanted of slots stands by inode, whatever forks directories are given.
pub fn settled_slots_stand_by_number()
    ensures { SettledSlotsStandByNumber }
{}
