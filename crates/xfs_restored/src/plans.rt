//! Laws about an image that holds the plan of a rebuild in which names change. Each function does nothing; its contract is the laws.

ghost use Rattle.xfs_restored.specs.Laws.Plans.{LinksLeaveRoom, NewClustersReadFew, NewClustersReadFirst, NewClustersReadFree, NewClustersReadInodes, NewClustersReadLost, RenamedImagesHoldThePlanHeld, RenamedImagesHoldThePlanInside, RenamedImagesHoldThePlanOnce, RenamedImagesHoldThePlanOthers, RenamedSlotsAreDueSlots, RenamedSlotsAreDueStands};

/// In an image as large as the volume that holds the plan stands what was rendered (`stands`), and each slot of the clusters that the
/// volume then has, a new one among them, is what was wanted of it, made of what stood there (`slots`), where the blocks that are not
/// planned stay: a block of which nothing is wanted is not.
pub fn renamed_slots_are_due()
    ensures stands { RenamedSlotsAreDueStands }
    ensures slots { RenamedSlotsAreDueSlots }
{}

/// At most one cluster is new (`few`). Where one is, its 32 inodes follow each other (`inodes`), and the first is lost+found, which is
/// then made (`lost`): its slot is made as one (`first`). The 31 others are free (`free`).
pub fn new_clusters_read()
    ensures few { NewClustersReadFew }
    ensures lost { NewClustersReadLost }
    ensures inodes { NewClustersReadInodes }
    ensures first { NewClustersReadFirst }
    ensures free { NewClustersReadFree }
{}

/// No block is planned twice (`once`), and all lie in the volume (`inside`). So an image in which what was to be written was written
/// holds the whole plan (`held`), and each block that is not planned is as it was (`others`).
pub fn renamed_images_hold_the_plan()
    ensures once { RenamedImagesHoldThePlanOnce }
    ensures inside { RenamedImagesHoldThePlanInside }
    ensures held { RenamedImagesHoldThePlanHeld }
    ensures others { RenamedImagesHoldThePlanOthers }
{}

/// Where files ascend by number, none of them is lost+found where that is new, nor one of the other inodes of its new cluster, the
/// files that there are to be, with lost+found, leave room for these.
pub fn links_leave_room()
    ensures { LinksLeaveRoom }
{}
