//! Runs that meet a set of blocks, and runs that are put into it.

ghost use Rattle.std.specs.Prelude.{◌≡◌, false, ◌+◌, ◌≤◌, length, OnOk};
ghost use Rattle.std.specs.List.{All};
ghost use Rattle.xfs_collections.specs.Blocks.{is_in};
ghost use Rattle.xfs_claims.specs.Spans.{spans_of, SpansApart, IsRun, meets_any, with_blocks};

use std::sync::ledger::Ledger;
use xfs_collections::{RunSet, Steps};
use xfs_disk::NoMemory;
use xfs_geom::Run;

/// Whether one of the runs has a block of the set.
pub(crate) fn meets_runs<L: Ledger>(set: &RunSet, runs: &[Run], steps: &mut Steps<L>) -> bool
    requires { All IsRun runs.now }
    ensures met { result ≡ meets_any (is_in set.now) (spans_of runs.now) }
    ensures ticks { steps.new ≤ steps.old + length runs.now }
{
    for run in runs {
        if set.meets(run.start, run.count, steps) {
            return true;
        }
    }
    false
}

/// Puts the runs into the set.
pub(crate) fn take_runs<L: Ledger>(
    set: &mut RunSet,
    runs: &[Run],
    steps: &mut Steps<L>,
) -> Result<(), NoMemory>
    requires runs { All IsRun runs.now }
    requires apart { SpansApart (spans_of runs.now) }
    requires off { meets_any (is_in set.old) (spans_of runs.now) ≡ false }
    ensures blocks { OnOk result (is_in set.new ≡ with_blocks (is_in set.old) (spans_of runs.now)) }
    ensures ticks { steps.new ≤ steps.old + length runs.now }
{
    for run in runs {
        set.add(run.start, run.count, steps)?;
    }
    Ok(())
}
