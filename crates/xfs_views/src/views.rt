//! Laws about views and the trees that they are read from. Each function does nothing; its contract is the law.

ghost use Rattle.std.specs.Prelude.{◌≡◌, ◌≢◌, ◌≤◌, ◌<◌, ℕ, true, false, List, length, Some, None, Ok, Err, IsTrue};
ghost use Rattle.std.specs.List.{list_all};
ghost use Rattle.xfs_disk.specs.Blocks.{Image};
ghost use Rattle.xfs_geom.specs.Volumes.{Volume, volume_of};
ghost use Rattle.xfs_geom.specs.declared.geometry.Geometry.{Geometry};
ghost use Rattle.xfs_tree.specs.Reading.{Contents, reading};
ghost use Rattle.xfs_tree.specs.Rules.{are_lawful, can_hold};
ghost use Rattle.xfs_tree.specs.Shape.{Shape};
ghost use Rattle.xfs_tree.specs.declared.seats.Seat.{Seat};
ghost use Rattle.xfs_volume.specs.declared.catalogs.Catalog.{Catalog};
ghost use Rattle.xfs_volume.specs.declared.files.FileRec.{FileRec};
ghost use Rattle.xfs_volume.specs.declared.findings.Law.{Law};
ghost use Rattle.xfs_volume.specs.declared.groups.GroupRec.{GroupRec};
ghost use Rattle.xfs_laws.specs.xfs_space.Parts.{AreGroups, HasLawfulForks, IsLawfulGroup};
ghost use Rattle.xfs_laws.specs.xfs_naming.Naming.{NumbersAscend};
ghost use Rattle.xfs_laws.specs.Lawful.{IsCatalog, broken_law};
ghost use Rattle.xfs_image.specs.Consistent.{IsElected, backup_agrees, finding};
ghost use Rattle.xfs_image.specs.Files.{inodes_of};
ghost use Rattle.xfs_image.specs.GroupParts.{IsGroupRead};
ghost use Rattle.xfs_image.specs.Slots.{reads_as};
ghost use Rattle.xfs_image.specs.View.{view};

use xfs_image::Finding;
use xfs_inode::FileRead;

/// What the view of an image says is a catalog of its volume whose laws can be judged, whatever the image holds.
pub fn views_are_catalogs()
    ensures geometry { (g : Geometry) (image : Image) (c : Catalog) → view g image ≡ Ok c → c.geometry ≡ g }
    ensures catalog { (g : Geometry) (image : Image) (c : Catalog) → view g image ≡ Ok c → IsCatalog c }
{}

/// The same part by part: of a group that reads, of a file that reads, and of the inodes of all chunks of such groups, which
/// ascend.
pub fn parts_are_lawful()
    ensures group { (v : Volume) (image : Image) (ag : ℕ) (g : GroupRec) → IsGroupRead v image ag g → IsLawfulGroup v ag g }
    ensures file { (v : Volume) (image : Image) (ino : ℕ) (file : FileRec) → reads_as v image ino ≡ FileRead.File file → HasLawfulForks v file }
    ensures inodes { (g : Geometry) (groups : List GroupRec) → length groups ≡ g.agcount → AreGroups (volume_of g) 0 groups → NumbersAscend 0 (inodes_of (volume_of g) groups) }
{}

/// Of a tree that reads the records are lawful, each behind the one in front of it, and each block can be one of the tree.
pub fn trees_are_lawful<R, K>()
    ensures records { (s : Shape R K) (v : Volume) (image : Image) (tops : List (Seat K)) (height : ℕ) (tree : Contents R) → reading s v image tops height ≡ Ok tree → IsTrue (are_lawful s v None tree.records) }
    ensures blocks { (s : Shape R K) (v : Volume) (image : Image) (tops : List (Seat K)) (height : ℕ) (tree : Contents R) → reading s v image tops height ≡ Ok tree → list_all (can_hold v s.layout s.owner) tree.blocks ≡ true }
{}

/// What is found of an image, by the geometry that it elects: where that comes from a backup, just this; else the part that does
/// not read; or the first law that its view breaks; or the first backup that does not agree; or nothing.
pub fn findings_by_cases()
    ensures elsewhere { (g : Geometry) (image : Image) (is : IsElected (volume_of g) image) → is.vote.place ≢ 0 → finding broken_law g image ≡ Some (Finding.Part 0 0) }
    ensures part { (g : Geometry) (image : Image) (is : IsElected (volume_of g) image) → is.vote.place ≡ 0 → (found : Finding) → view g image ≡ Err found → finding broken_law g image ≡ Some found }
    ensures law { (g : Geometry) (image : Image) (is : IsElected (volume_of g) image) → is.vote.place ≡ 0 → (c : Catalog) (law : Law) → view g image ≡ Ok c → broken_law c ≡ Some law → finding broken_law g image ≡ Some (Finding.Law law) }
    ensures backup { (g : Geometry) (image : Image) (is : IsElected (volume_of g) image) → is.vote.place ≡ 0 → (c : Catalog) (ag : ℕ) → view g image ≡ Ok c → broken_law c ≡ None → 1 ≤ ag → ag < g.agcount → backup_agrees (volume_of g) image ag ≡ false → ((before : ℕ) → 1 ≤ before → before < ag → backup_agrees (volume_of g) image before ≡ true) → finding broken_law g image ≡ Some (Finding.Part 10 ag) }
    ensures none { (g : Geometry) (image : Image) (is : IsElected (volume_of g) image) → is.vote.place ≡ 0 → (c : Catalog) → view g image ≡ Ok c → broken_law c ≡ None → ((ag : ℕ) → 1 ≤ ag → ag < g.agcount → backup_agrees (volume_of g) image ag ≡ true) → finding broken_law g image ≡ None }
{}
