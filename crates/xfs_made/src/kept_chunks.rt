//! Laws about the chunks that are asked. Each function does nothing; its contract is the law.

ghost use Rattle.std.specs.Prelude.{◌≡◌, ◌<◌, ℕ, List};
ghost use Rattle.std.specs.List.{All, flat_map};
ghost use Rattle.xfs_disk.specs.Blocks.{Image};
ghost use Rattle.xfs_geom.specs.Volumes.{volume_of};
ghost use Rattle.xfs_geom.specs.declared.geometry.Geometry.{Geometry};
ghost use Rattle.xfs_geom.specs.declared.records.InoRec.{InoRec};
ghost use Rattle.xfs_image.specs.Candidates.{candidates};
ghost use Rattle.xfs_image.specs.Claims.{candidate_files};
ghost use Rattle.xfs_kinds.specs.InodeTrees.{ino_shape};
ghost use Rattle.xfs_made.specs.xfs_laws.Counting.{chunk_number, due_chunk, is_used};
ghost use Rattle.xfs_space.specs.Owners.{file_runs};
ghost use Rattle.xfs_volume.specs.declared.files.FileRec.{FileRec};
ghost use Rattle.xfs_place.specs.Wanted.{inodes_in_group, kept_runs};
ghost use Rattle.xfs_made.specs.Keeping.{KeepsJust};
ghost use Rattle.xfs_request.specs.xfs_salvage.declared.found.Salvaged.{Salvaged};
ghost use Rattle.xfs_request.specs.Chunks.{is_inode_used};
ghost use Rattle.xfs_request.specs.Requests.{volume_wanted};
ghost use Rattle.xfs_made.specs.Handed.{IsKeptOf};

/// What is kept of an image is just what the chunks that are asked and the files that are due own, whatever else changes in these:
/// the clusters of the chunks are the kept ones and no others.
pub fn chunks_are_those_kept()
    ensures { (g : Geometry) (image : Image) (kept : Salvaged) (reserved : List ℕ) (due : List FileRec)
        → IsKeptOf (volume_of g) (candidates (volume_of g) image) (candidate_files (volume_of g) image) kept
        → flat_map (file_runs (volume_of g)) due ≡ flat_map (file_runs (volume_of g)) kept.files
        → KeepsJust (volume_of g) (kept_runs (volume_wanted g kept reserved)) (volume_wanted g kept reserved).inodes due }
{}

/// The chunks that are asked count and mark as free just the inodes that are there and that no file has which is due: those of
/// kept files and those that are made anew.
pub fn chunks_say_who_is_used()
    ensures { (g : Geometry) (kept : Salvaged) (reserved : List ℕ) (due : List FileRec)
        → ((ino : ℕ) → is_used due ino ≡ is_inode_used kept ino) → (ag : ℕ) → ag < g.agcount
        → All (λ (r : InoRec). chunk_number (due_chunk (volume_of g) due ag ((ino_shape ag).settled r)) ≡ chunk_number ((ino_shape ag).settled r))
        (inodes_in_group (volume_wanted g kept reserved).inodes ag) }
{}
