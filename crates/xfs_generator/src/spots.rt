//! What stands at each place of generated files.

ghost use Rattle.std.specs.Prelude.{◌≡◌, ◌<◌, ◌^◌};
ghost use Rattle.xfs_generator.specs.Files.{spot_of, IsFew};

/// How many files a directory has.
pub(crate) const FILES_OF_DIRECTORY: u64 = 100;

/// What stands at a place.
#[derive(Clone, Copy)]
pub enum Spot {
    /// The root.
    Root,
    /// The directory of this number.
    Directory { number: u64 },
    /// The file of this number, in the directory of that one.
    File { directory: u64, number: u64 },
}

/// What stands at a place: the root first, then each directory with its files behind it.
#[tactic(auto, unfolding(crate::specs::Files::spot_of))]
pub(crate) fn spot_of(place: u64) -> Spot
    ensures value { result ≡ spot_of place }
    ensures few { place < 2 ^ 40 → IsFew result }
{
    if place == 0 {
        return Spot::Root;
    }
    let directory = (place - 1) / (FILES_OF_DIRECTORY + 1);
    let step = (place - 1) % (FILES_OF_DIRECTORY + 1);
    if step == 0 {
        Spot::Directory { number: directory }
    } else {
        Spot::File {
            directory,
            number: FILES_OF_DIRECTORY * directory + (step - 1),
        }
    }
}
