//! A law about directories that are built anew. The function does nothing; its contract is the laws.

ghost use Rattle.xfs_settled.specs.Laws.Directories.{BuiltDirectoriesAreOneBlocks, BuiltDirectoriesAreOneForks, BuiltDirectoriesAreOneObjects, BuiltDirectoriesAreOneSealed};

/// Directories with the same numbers that are built of the same names, with the same room in their forks, have the same bytes in
/// their blocks (`blocks`), ask for the same runs (`objects`), and have the same forks where they get the same (`forks`). Each of
/// their blocks has the magic number of what it is sealed as (`sealed`).
pub fn built_directories_are_one()
    ensures blocks { BuiltDirectoriesAreOneBlocks }
    ensures objects { BuiltDirectoriesAreOneObjects }
    ensures forks { BuiltDirectoriesAreOneForks }
    ensures sealed { BuiltDirectoriesAreOneSealed }
{}
