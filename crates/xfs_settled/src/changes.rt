//! A law about what names change in slots. The function does nothing; its contract is the law.

ghost use Rattle.xfs_settled.specs.Laws.Changes.{SettledSlotsCanBeMade};

/// What is wanted of slots once names are settled can be made of what stands there, in each block of the volume, whatever place the
/// directories found that are built anew.
pub fn settled_slots_can_be_made()
    ensures { SettledSlotsCanBeMade }
{}
