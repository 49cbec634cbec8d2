//! Laws about directories that were built. The function does nothing; its contract is the laws.

ghost use Rattle.std.specs.Prelude.{◌≡◌, ◌≤◌, ◌<◌, ◌^◌, true, false, List};
ghost use Rattle.xfs_disk.specs.Blocks.{Image};
ghost use Rattle.xfs_geom.specs.Volumes.{Volume};
ghost use Rattle.xfs_geom.specs.declared.records.Run.{Run};
ghost use Rattle.xfs_volume.specs.declared.files.FileRec.{FileRec};
ghost use Rattle.xfs_names.specs.Built.{CanBeBuilt, IsBuiltAsWanted};
ghost use Rattle.xfs_names.specs.declared.building.BuiltDirectory.{BuiltDirectory};
ghost use Rattle.xfs_names.specs.declared.building.ForkRoom.{ForkRoom};
ghost use Rattle.xfs_names.specs.declared.records.WantedNames.{WantedNames};
ghost use Rattle.xfs_built.specs.Asks.{stands_in_blocks};
ghost use Rattle.xfs_built.specs.Directories.{IsFileOf, IsShortFileOf, HasOwnCounts, MapsRuns, ReadsAsWanted, StandsIn};

/// A directory that was built as it is wanted has few blocks, all of them told (`sized`). Where they stand in its runs, a file that
/// has these as its extents maps just them (`mapped`) and reads as whole, with the entries and the parent that are wanted
/// (`blocks`). One in short form reads so where its slot has the bytes of the form (`short`).
pub fn built_directories_read()
    ensures sized { (w : WantedNames) (rooms : List ForkRoom) (b : BuiltDirectory) → CanBeBuilt w → b.ino < 2 ^ 32 → IsBuiltAsWanted w rooms b → HasOwnCounts b }
    ensures mapped { (v : Volume) (image : Image) → 1 ≤ v.agblocks → v.agblocks ≤ 2 ^ v.agblklog → (b : BuiltDirectory) (runs : List Run) (f : FileRec)
        → IsFileOf v b runs f → StandsIn v image b runs → MapsRuns v image b runs f }
    ensures blocks { (v : Volume) (image : Image) (w : WantedNames) (rooms : List ForkRoom) (b : BuiltDirectory) (runs : List Run) (f : FileRec) → 1 ≤ v.agblocks
        → v.agblocks ≤ 2 ^ v.agblklog → CanBeBuilt w → IsBuiltAsWanted w rooms b → HasOwnCounts b → stands_in_blocks b ≡ true → StandsIn v image b runs → IsFileOf v b runs f
        → ReadsAsWanted v image w f }
    ensures short { (v : Volume) (image : Image) (w : WantedNames) (rooms : List ForkRoom) (b : BuiltDirectory) (f : FileRec) → IsBuiltAsWanted w rooms b
        → stands_in_blocks b ≡ false → IsShortFileOf v image b f → ReadsAsWanted v image w f }
{}
