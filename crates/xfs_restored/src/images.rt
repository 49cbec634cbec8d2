//! A law about images in which a rebuild was written. The function does nothing; its contract is the laws.

ghost use Rattle.xfs_restored.specs.Laws.Images.{RebuiltImagesHaveWhatIsKeptKept, RebuiltImagesHaveWhatIsKeptSize};

/// An image is as large as the volume that it elects (`size`). Where what is planned of it was written, it has what is kept of it:
/// what is wanted of the slots of kept clusters, and the blocks that kept files claim (`kept`).
pub fn rebuilt_images_have_what_is_kept()
    ensures size { RebuiltImagesHaveWhatIsKeptSize }
    ensures kept { RebuiltImagesHaveWhatIsKeptKept }
{}
