//! Laws about what is tested of extents. The function does nothing; its contract is the law.

ghost use Rattle.std.specs.Prelude.{◌≡◌, ◌+◌, ◌^◌, ◌<◌, true};
ghost use Rattle.xfs_word.specs.declared.extents.Extent.{Extent};
ghost use Rattle.xfs_geom.specs.Groups.{block_of_address};
ghost use Rattle.xfs_geom.specs.Volumes.{volume_of};
ghost use Rattle.xfs_geom.specs.declared.geometry.Geometry.{Geometry};
ghost use Rattle.xfs_kinds.specs.FileTrees.{is_extent};

/// Eight bytes hold the block number and the offset behind each extent of a volume. Such are all extents of a file that an image
/// has, in both forks (`parts_are_lawful` of `xfs_views`).
pub fn extents_have_sums()
    ensures blocks { (g : Geometry) (e : Extent) → is_extent (volume_of g) e ≡ true → block_of_address g.agblocks g.agblklog e.start + e.count < 2 ^ 64 }
    ensures offsets { (g : Geometry) (e : Extent) → is_extent (volume_of g) e ≡ true → e.offset + e.count < 2 ^ 64 }
{}
