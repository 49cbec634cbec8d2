//! Laws about the image of a volume that was rebuilt. Each function does nothing; its contract is the laws.

ghost use Rattle.xfs_restored.specs.Laws.RewrittenImages.{KeptFilesStayBytes, KeptFilesStayClaims, KeptFilesStayProtected, RebuiltImagesHoldThePlanHeld, RebuiltImagesHoldThePlanOthers, RebuiltImagesHoldThePlanSize, RebuiltImagesHoldThePlanStands, RebuiltSlotsAreDue};

/// The image then holds the whole plan of the rebuild, of which nothing is written that it held before (`held`). Each block that is
/// not planned is as it was (`others`), and so is the size (`size`). So what was rendered stands in it (`stands`).
pub fn rebuilt_images_hold_the_plan()
    ensures held { RebuiltImagesHoldThePlanHeld }
    ensures others { RebuiltImagesHoldThePlanOthers }
    ensures size { RebuiltImagesHoldThePlanSize }
    ensures stands { RebuiltImagesHoldThePlanStands }
{}

/// The blocks that a kept file claims hold what they held (`claims`), and so the file has the same bytes (`bytes`). Each protected
/// file is one of these (`protected`).
pub fn kept_files_stay()
    ensures claims { KeptFilesStayClaims }
    ensures bytes { KeptFilesStayBytes }
    ensures protected { KeptFilesStayProtected }
{}

/// Each slot of the kept clusters is what was wanted of it, made of what stood there.
pub fn rebuilt_slots_are_due()
    ensures { RebuiltSlotsAreDue }
{}
