//! Laws about whole views that stay. Each function does nothing; its contract is the law.

ghost use Rattle.std.specs.Prelude.{◌≡◌, ℕ, List, All, None, Ok};
ghost use Rattle.std.specs.List.{range_with_len};
ghost use Rattle.xfs_disk.specs.Blocks.{Image};
ghost use Rattle.xfs_geom.specs.Volumes.{Volume, volume_of};
ghost use Rattle.xfs_geom.specs.declared.geometry.Geometry.{Geometry};
ghost use Rattle.xfs_volume.specs.declared.catalogs.Catalog.{Catalog};
ghost use Rattle.xfs_volume.specs.declared.files.FileRec.{FileRec};
ghost use Rattle.xfs_volume.specs.declared.groups.GroupRec.{GroupRec};
ghost use Rattle.xfs_laws.specs.Lawful.{broken_law};
ghost use Rattle.xfs_image.specs.Keeping.{Keeps, Protected};
ghost use Rattle.xfs_image.specs.Lsns.{lsn_at, lsn_places, lsns_read};
ghost use Rattle.xfs_image.specs.View.{log_of, view};
ghost use Rattle.xfs_views.specs.Backups.{DifferInBackups};
ghost use Rattle.xfs_views.specs.Same.{HoldSameBytes};

/// The log says the same where its blocks are the same.
pub fn log_stays()
    ensures stays { (v : Volume) (image now : Image) → HoldSameBytes image now (range_with_len v.log v.logblocks) → log_of v now ≡ log_of v image }
{}

/// The log sequence numbers of these groups and files are the same where what stands at each of their places is.
pub fn lsns_stay()
    ensures stay { (v : Volume) (image now : Image) (groups : List GroupRec) (files : List FileRec) → All (λ p. lsn_at now p ≡ lsn_at image p) (lsn_places v groups files)
        → lsns_read v now groups files ≡ lsns_read v image groups files }
{}

/// Where backup superblocks alone differ, a view that breaks no law is that of both images: no block of it but the first of a group
/// has the group's headers, since no block has two owners. And a protected file is kept, whatever laws are broken.
pub fn views_stay()
    ensures view { (g : Geometry) (image now : Image) (c : Catalog) → view g image ≡ Ok c → broken_law c ≡ None → DifferInBackups (volume_of g) image now → view g now ≡ Ok c }
    ensures keeps { (g : Geometry) (image now : Image) (ino : ℕ) → DifferInBackups (volume_of g) image now → Protected (volume_of g) image ino → Keeps (volume_of g) image now ino }
{}
