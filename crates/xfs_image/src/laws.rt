//! Laws about the definitions. Each function does nothing; its contract is the law.

ghost use Rattle.std.specs.Prelude.{◌≡◌, ◌≢◌, ◌⊎◌, ℕ, true, false, List, [], ◌∷◌, length, slice_index_or, Option, Some, None, Ok, Err};
ghost use Rattle.std.specs.List.{range_with_len};
ghost use Rattle.std.specs.List.Sorted.{IsPermutation};
ghost use Rattle.xfs_disk.specs.Blocks.{Image, bytes_of_block};
ghost use Rattle.xfs_geom.specs.Volumes.{Volume, volume_of};
ghost use Rattle.xfs_geom.specs.declared.geometry.Geometry.{Geometry};
ghost use Rattle.xfs_volume.specs.declared.catalogs.Catalog.{Catalog};
ghost use Rattle.xfs_volume.specs.declared.findings.Law.{Law};
ghost use Rattle.xfs_volume.specs.declared.files.FileRec.{FileRec};
ghost use Rattle.xfs_volume.specs.declared.groups.GroupRec.{GroupRec};
ghost use Rattle.xfs_image.specs.Claims.{AreDisjointSets, claims};
ghost use Rattle.xfs_image.specs.Candidates.{ClustersAscend, candidates, is_candidate, lies_in_chunk};
ghost use Rattle.xfs_image.specs.Clusters.{chunk_clusters, cluster_of, clusters_in, given_clusters, is_recorded, named_by_chunks, named_by_owners, root_cluster};
ghost use Rattle.xfs_image.specs.Consistent.{HasBackupFault, HasFinding, IsConsistent, IsConsistentImage, IsElected, IsPartOf, finding};
ghost use Rattle.xfs_image.specs.Examples.{chunk, extents, given, lsn_place, small_example};
ghost use Rattle.xfs_image.specs.Files.{AreFilesRead, files_read, inodes_of};
ghost use Rattle.xfs_image.specs.GroupParts.{AreGroupsRead, IsGroupRead};
ghost use Rattle.xfs_image.specs.Groups.{groups_read};
ghost use Rattle.xfs_image.specs.Keeping.{Keeps, Protected, byte_over, file_bytes};
ghost use Rattle.xfs_image.specs.Lsns.{PlacesInOrder, LsnPlace, lsn_places_in_order};
ghost use Rattle.xfs_image.specs.Slots.{cluster_inodes};
ghost use Rattle.xfs_image.specs.View.{IsRead, view};

use crate::findings::Finding;

/// An image is consistent exactly where nothing is found. A geometry that comes from a backup is the first finding; where a
/// backup is found first, nothing else is wrong. The geometry that is elected is one, so an image that elects one either is
/// consistent or has just one finding.
pub fn consistent_where_nothing_is_found()
    ensures consistent { (broken : Catalog → Option Law) (g : Geometry) (image : Image) → finding broken g image ≡ None → IsConsistent broken g image }
    ensures nothing_found { (broken : Catalog → Option Law) (g : Geometry) (image : Image) → IsConsistent broken g image → finding broken g image ≡ None }
    ensures from_backup { (broken : Catalog → Option Law) (g : Geometry) (image : Image) (is : IsElected (volume_of g) image) → is.vote.place ≢ 0 → finding broken g image ≡ Some (Finding.Part 0 0) }
    ensures only_backups { (broken : Catalog → Option Law) (g : Geometry) (image : Image) (ag : ℕ) → finding broken g image ≡ Some (Finding.Part 10 ag) → HasBackupFault broken g image ag }
    ensures one_geometry { (g h : Geometry) (image : Image) → IsElected (volume_of g) image → IsElected (volume_of h) image → g ≡ h }
    ensures one_finding { (broken : Catalog → Option Law) (image : Image) (x y : Finding) → HasFinding broken image x → HasFinding broken image y → x ≡ y }
    ensures never_both { (broken : Catalog → Option Law) (image : Image) (x : Finding) → IsConsistentImage broken image → HasFinding broken image x → ⊥ }
    ensures one_of_both { (broken : Catalog → Option Law) (g : Geometry) (image : Image) → IsElected (volume_of g) image → IsConsistentImage broken image ⊎ ((found : Finding) × HasFinding broken image found) }
{}

/// A view that reads is the catalog of the groups and files that read; what does not read is a part of a group or a slot. Of a
/// group that reads all eight parts do, and of slots that read each is free or that of a file.
pub fn view_is_of_what_reads()
    ensures view { (g : Geometry) (image : Image) (c : Catalog) → view g image ≡ Ok c → IsRead g image c }
    ensures part { (g : Geometry) (image : Image) (found : Finding) → view g image ≡ Err found → IsPartOf (volume_of g) found }
    ensures groups { (v : Volume) (image : Image) (groups : List GroupRec) → groups_read v image ≡ Ok groups → AreGroupsRead v image 0 groups × (length groups ≡ v.agcount) }
    ensures files { (v : Volume) (image : Image) (groups : List GroupRec) (files : List FileRec) → files_read v image groups ≡ Ok files → AreFilesRead v image (inodes_of v groups) files }
{}

/// The places of log sequence numbers in order are all the places, by block and then by byte.
#[tactic(auto, using(crate::proofs::Places::are_in_order, crate::proofs::Places::all_moved))]
pub fn places_are_ordered()
    ensures order { (places : List LsnPlace) → PlacesInOrder (lsn_places_in_order places) }
    ensures all { (places : List LsnPlace) → IsPermutation places (lsn_places_in_order places) }
{}

/// A protected file keeps itself, a file that is kept twice is kept, no block is claimed by two protected files, and a file has
/// as many bytes as its size says.
pub fn keeping_goes_on()
    ensures itself { (v : Volume) (image : Image) (ino : ℕ) → Protected v image ino → Keeps v image image ino }
    ensures onward { (v : Volume) (a b c : Image) (ino : ℕ) → Keeps v a b ino → Keeps v b c ino → Keeps v a c ino }
    ensures apart { (v : Volume) (image : Image) (a b : ℕ) (first : Protected v image a) (second : Protected v image b) → a ≢ b → AreDisjointSets (claims v first.file) (claims v second.file) }
    ensures size { (v : Volume) (image : Image) (f : FileRec) → length (file_bytes v image f) ≡ f.core.size }
{}

/// The trees of a group that reads name their clusters. The cluster of the root is a recorded candidate, whatever trees and
/// bytes say. Candidate clusters ascend, and no two have a block in common.
pub fn clusters_are_named()
    ensures chunks { (v : Volume) (image : Image) (ag : ℕ) (g : GroupRec) → IsGroupRead v image ag g → named_by_chunks v image ag ≡ Some (chunk_clusters v ag g.ino) }
    ensures owners { (v : Volume) (image : Image) (ag : ℕ) (g : GroupRec) → IsGroupRead v image ag g → named_by_owners v image ag ≡ Some (given_clusters v ag g.rmap) }
    ensures recorded { (v : Volume) (image : Image) → is_recorded v image (root_cluster v) ≡ true }
    ensures ascend { (g : Geometry) (image : Image) → ClustersAscend 0 (candidates (volume_of g) image) }
    ensures candidate { (v : Volume) (image : Image) → is_candidate v image (root_cluster v) ≡ true }
{}

/// Worked examples: where the clusters of a chunk stand, which slots a cluster has, which clusters the tree of owners names,
/// which lie in a chunk, what a byte of a file is, and the order of places.
pub fn worked_examples()
    ensures both { clusters_in 1024 (chunk 0) ≡ 1040 ∷ 1044 ∷ [] }
    ensures second { clusters_in 1024 (chunk 0x00ff) ≡ 1044 ∷ [] }
    ensures first { clusters_in 1024 (chunk 0xff00) ≡ 1040 ∷ [] }
    ensures root { root_cluster small_example ≡ 16 }
    ensures own { cluster_of small_example 8325 ≡ 1040 }
    ensures inodes { cluster_inodes small_example 1040 ≡ range_with_len 8320 32 }
    ensures given_two { given_clusters small_example 1 (given 16 8 ∷ []) ≡ 1040 ∷ 1044 ∷ [] }
    ensures given_part { given_clusters small_example 1 (given 14 6 ∷ given 20 2 ∷ []) ≡ 1040 ∷ [] }
    ensures last_chunk { lies_in_chunk small_example 1020 ≡ true }
    ensures before_chunks { lies_in_chunk small_example 1028 ≡ false }
    ensures hole { (image : Image) → byte_over small_example image extents 4095 ≡ 0 }
    ensures written { (image : Image) → byte_over small_example image extents 8199 ≡ slice_index_or (bytes_of_block image 25) 7 0 }
    ensures unwritten { (image : Image) → byte_over small_example image extents 20481 ≡ 0 }
    ensures ordered { lsn_places_in_order (lsn_place 5 24 ∷ lsn_place 0 720 ∷ lsn_place 5 16 ∷ lsn_place 0 240 ∷ []) ≡ lsn_place 0 240 ∷ lsn_place 0 720 ∷ lsn_place 5 16 ∷ lsn_place 5 24 ∷ [] }
{}
