//! Blocks with two owners.

ghost use Rattle.std.specs.Prelude.{◌≡◌, ℕ, MatchOption};
ghost use Rattle.std.specs.List.{All};
ghost use Rattle.xfs_geom.specs.Runs.{covers, runs_on};
ghost use Rattle.xfs_geom.specs.Volumes.{Volume};
ghost use Rattle.xfs_volume.specs.Laws.{first_broken};
ghost use Rattle.xfs_space.specs.SpaceLaws.{sharing_laws};
ghost use Rattle.xfs_space.specs.Sorted.{Follow, IsFirstShared, IsOwned, IsSized, StartsRise};

use xfs_geom::Run;
use xfs_volume::Law;

/// The first law that a volume with these owned runs, in order, breaks among those that no block has two
/// owners.
pub fn sharing_law(runs: &[Run]) -> Option<Law>
    requires rise { StartsRise 0 runs.now }
    requires sized { All IsSized runs.now }
    ensures law { (v : Volume) → All (IsOwned v) runs.now → result ≡ first_broken (sharing_laws v runs.now) }
    ensures apart { MatchOption result (Follow 0 runs.now) (λ _. Unit {0}) }
{
    match first_shared(runs) {
        Some(block) => Some(Law {
            law: 1,
            place: block,
            held: count_on(runs, block) as u128,
            due: 1,
        }),
        None => None,
    }
}

/// The first block that more than one of the runs has, which are in order.
fn first_shared(runs: &[Run]) -> Option<u64>
    requires rise { StartsRise 0 runs.now }
    requires sized { All IsSized runs.now }
    ensures { MatchOption result (Follow 0 runs.now) (IsFirstShared runs.now) }
{
    let mut end = 0;
    for run in runs {
        if run.start < end {
            return Some(run.start);
        }
        end = run.start + run.count;
    }
    None
}

/// How many of the runs have the block.
fn count_on(runs: &[Run], block: u64) -> u64
    ensures { result ≡ runs_on runs.now block }
{
    runs.iter().filter(|run| covers(run, block)).count() as u64
}

/// Whether the run has the block.
pub fn covers(run: &Run, block: u64) -> bool
    ensures { result ≡ covers block run.now }
{
    run.start <= block && block - run.start < run.count
}
