//! Laws about groups that stay. The function does nothing; its contract is the law.

ghost use Rattle.std.specs.Prelude.{◌≡◌, List, Ok};
ghost use Rattle.xfs_disk.specs.Blocks.{Image};
ghost use Rattle.xfs_geom.specs.Volumes.{Volume};
ghost use Rattle.xfs_volume.specs.declared.groups.GroupRec.{GroupRec};
ghost use Rattle.xfs_image.specs.Groups.{groups_read};
ghost use Rattle.xfs_views.specs.Backups.{AreGroupsSame};

/// The groups of a volume read as they did where their headers are the same, which stand behind the first sector of each group, and
/// the blocks of their trees.
pub fn groups_stay()
    ensures stay { (v : Volume) (image now : Image) (groups : List GroupRec) → groups_read v image ≡ Ok groups → AreGroupsSame v image now 0 groups → groups_read v now ≡ Ok groups }
{}
