//! Laws about images in which a rebuild was written. Each function does nothing; its contract is the law.

ghost use Rattle.xfs_settled.specs.Laws.Images.{RebuiltImagesAreOne, RelinkedImagesAreOne, RewritesAreOne};

/// Where no name changes, two images in which a rebuild of one image was written are the same, block by block, whatever evidence
/// each rebuild goes by.
pub fn rebuilt_images_are_one()
    ensures { RebuiltImagesAreOne }
{}

/// And so are two in which a rebuild was written that changes names.
pub fn relinked_images_are_one()
    ensures { RelinkedImagesAreOne }
{}

/// So all images in which some rebuild of one image was written are the same, whatever evidence it goes by and whether names change or
/// not, which the image decides: each block that is planned has the same bytes, and all others are as they were.
pub fn rewrites_are_one()
    ensures { RewritesAreOne }
{}
