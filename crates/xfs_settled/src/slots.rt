//! Laws about the slots of inodes. Each function does nothing; its contract is the laws.

ghost use Rattle.xfs_settled.specs.Laws.Slots.{ChangedSlotsAreOneAttrs, ChangedSlotsAreOneFork, ChangedSlotsAreOneLinks, MadeSlotsAreOneFree, MadeSlotsAreOneFresh, WantedSlotsAreOneBlock, WantedSlotsAreOneSlot};

/// There is one free slot of an inode and a generation, and one slot of a core whose data fork is empty.
pub fn made_slots_are_one()
    ensures free { MadeSlotsAreOneFree }
    ensures fresh { MadeSlotsAreOneFresh }
{}

/// Of one old slot, whose attribute fork begins inside it, there is one without its attributes, one with a data fork that fits in front
/// of them, and one with a number of links.
pub fn changed_slots_are_one()
    ensures attrs { ChangedSlotsAreOneAttrs }
    ensures fork { ChangedSlotsAreOneFork }
    ensures links { ChangedSlotsAreOneLinks }
{}

/// Of one old slot there is one that is what is wanted of it, change by change, whatever stood there on the way; and of one old block of
/// a cluster there is one whose slots are.
pub fn wanted_slots_are_one()
    ensures slot { WantedSlotsAreOneSlot }
    ensures block { WantedSlotsAreOneBlock }
{}
