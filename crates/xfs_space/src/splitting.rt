//! Owned runs by allocation group.

ghost use Rattle.std.specs.Prelude.{◌≡◌, ℕ, ◌+◌, ◌≤◌, ◌<◌};
ghost use Rattle.std.specs.List.{All};
ghost use Rattle.xfs_geom.specs.declared.records.Run.{Run};
ghost use Rattle.xfs_space.specs.Sorted.{Follow, IsSplit};

use xfs_geom::Run;

/// The runs before a block, and those behind it, where none goes across it.
pub fn split_runs(runs: &[Run], block: u64) -> (&[Run], &[Run])
    requires follow { Follow 0 runs.now }
    requires apart { All (λ (r : Run). r.start < block → r.start + r.count ≤ block) runs.now }
    ensures { IsSplit block runs.now result.0.now result.1.now }
{
    for (index, run) in runs.iter().enumerate() {
        if run.start >= block {
            return runs.split_at(index);
        }
    }
    runs.split_at(runs.len())
}
