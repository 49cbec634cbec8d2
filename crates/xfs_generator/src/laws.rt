//! Laws of generated files. Each function does nothing; its contract is the law.

ghost use Rattle.std.specs.Prelude.{◌≡◌, ◌<◌, ◌≤◌, ℕ, length};
ghost use Rattle.xfs_filled.specs.FileTrees.{AreProtoNodes};
ghost use Rattle.xfs_generator.specs.Files.{all_count, generated_contents, generated_nodes};
ghost use Rattle.xfs_generator.specs.Standing.{StandsGenerated};

/// Files that `generate` makes are such as `plan_filled` asks for, up to 100000 of them.
pub fn generated_files_are_files(_files: u32)
    requires few { _files ≤ 100000 }
    ensures files { AreProtoNodes (generated_nodes _files) }
    ensures bytes { length (generated_contents _files) ≡ length (generated_nodes _files) }
{}

/// Each of so many generated files stands in its directory under its name, and has its bytes; and there is nothing but these,
/// the directories and the root.
pub fn generated_files_stand(_files: u32)
    ensures stand { (i : ℕ) → i < _files → StandsGenerated (generated_nodes _files) (generated_contents _files) i }
    ensures count { length (generated_nodes _files) ≡ all_count _files }
{}
