//! Laws about what is found in an image. Each function does nothing; its contract is the law.

ghost use Rattle.xfs_disk.specs.Blocks.{Image};
ghost use Rattle.xfs_geom.specs.Volumes.{volume_of};
ghost use Rattle.xfs_geom.specs.declared.geometry.Geometry.{Geometry};
ghost use Rattle.xfs_image.specs.Candidates.{candidates};
ghost use Rattle.xfs_image.specs.Claims.{candidate_files};
ghost use Rattle.xfs_request.specs.xfs_salvage.Claimable.{CanBeSalvaged};

/// The candidate clusters and files of any image, which are those of its evidence, can claim their blocks.
pub fn candidates_can_be_kept()
    ensures { (g : Geometry) (image : Image) → CanBeSalvaged (volume_of g) (candidates (volume_of g) image) (candidate_files (volume_of g) image) }
{}
