//! Which claims are kept.

ghost use Rattle.std.specs.Prelude.{◌≡◌, true, ◌+◌, ◌*◌, ◌≤◌, IfOk, OnOk};
ghost use Rattle.std.specs.List.{All};
ghost use Rattle.xfs_claims.specs.Private.Held.{held_of};
ghost use Rattle.xfs_claims.specs.Private.Ranked.{AreRanked, kept_from, rank_steps};
ghost use Rattle.xfs_claims.specs.Keeping.{kept_of, EndsLow, IsClaim};
ghost use Rattle.xfs_claims.specs.Ranks.{AreDifferent, claimed_runs, first_block, claimed_number, is_recorded_cluster};
ghost use Rattle.xfs_claims.specs.Spans.{spans_of, SpansApart, IsRun};

use crate::claimants::{Claims, KeptClaims};
use crate::holding::TakenBlocks;
use crate::ranks::{Ranks, rank};
use std::alloc::Global;
use std::sync::ledger::Ledger;
use std::thread::Threads;
use xfs_collections::Steps;
use xfs_disk::NoMemory;

/// Keeps of the claims, in the order of their rank, those that meet nothing kept before. The rank is: fixed blocks, the
/// root cluster, recorded clusters by block, files in them by number, scanned clusters by block, files in them by
/// number. A file is kept only where its cluster is.
///
/// At most two steps are counted for each run of fixed blocks, each cluster and each run of a file. Fails only where
/// memory lacks.
pub fn keep<R: Threads + Sync, L: Ledger>(
    rt: &R,
    alloc: Global,
    claims: &Claims,
    steps: &mut Steps<L>,
) -> Result<KeptClaims, NoMemory>
    requires root { is_recorded_cluster claims.now.clusters claims.now.root ≡ true }
    requires clusters_end { All (λ cluster. EndsLow cluster.block) claims.now.clusters }
    requires clusters_differ { AreDifferent first_block claims.now.clusters }
    requires fixed_runs { All IsRun claims.now.fixed }
    requires fixed_apart { SpansApart (spans_of claims.now.fixed) }
    requires files_differ { AreDifferent claimed_number claims.now.files }
    requires files_claim { All IsClaim claims.now.files }

    ensures clusters { IfOk result (λ kept. kept.clusters ≡ (kept_of claims.now).clusters) }
    ensures files { IfOk result (λ kept. kept.files ≡ (kept_of claims.now).files) }
    ensures ticks { steps.new ≤ steps.old + 2 * claimed_runs claims.now }
{
    match take_all(rt, alloc, claims, steps) {
        Ok(taken) => taken.into_kept(alloc),
        Err(error) => Err(error),
    }
}

/// The same, as it is held.
fn take_all<R: Threads + Sync, L: Ledger>(
    rt: &R,
    alloc: Global,
    claims: &Claims,
    steps: &mut Steps<L>,
) -> Result<TakenBlocks, NoMemory>
    requires root { is_recorded_cluster claims.now.clusters claims.now.root ≡ true }
    requires clusters_end { All (λ cluster. EndsLow cluster.block) claims.now.clusters }
    requires clusters_differ { AreDifferent first_block claims.now.clusters }
    requires fixed_runs { All IsRun claims.now.fixed }
    requires fixed_apart { SpansApart (spans_of claims.now.fixed) }
    requires files_differ { AreDifferent claimed_number claims.now.files }
    requires files_claim { All IsClaim claims.now.files }
    ensures kept { IfOk result (λ taken. held_of taken ≡ kept_of claims.now) }
    ensures ticks { steps.new ≤ steps.old + 2 * claimed_runs claims.now }
{
    let ranks = rank(rt, alloc, claims)?;
    take_ranked(alloc, claims, &ranks, steps)
}

/// The same, by the ranks of the claims.
fn take_ranked<L: Ledger>(
    alloc: Global,
    claims: &Claims,
    ranks: &Ranks,
    steps: &mut Steps<L>,
) -> Result<TakenBlocks, NoMemory>
    requires root { is_recorded_cluster claims.now.clusters claims.now.root ≡ true }
    requires clusters_end { All (λ cluster. EndsLow cluster.block) claims.now.clusters }
    requires fixed_runs { All IsRun claims.now.fixed }
    requires fixed_apart { SpansApart (spans_of claims.now.fixed) }
    requires files_claim { All IsClaim claims.now.files }
    requires ranked { AreRanked claims.now ranks.now }
    ensures kept { IfOk result (λ taken. held_of taken ≡ kept_of claims.now) }
    ensures ticks { steps.new ≤ steps.old + 2 * claimed_runs claims.now }
{
    let mut taken = TakenBlocks::with_fixed(alloc, claims.fixed.as_slice(), steps)?;
    keep_ranked(claims, ranks, &mut taken, steps)?;
    Ok(taken)
}

/// Keeps the root's cluster, and then of the others and of the files those that can be kept, by their ranks.
fn keep_ranked<L: Ledger>(
    claims: &Claims,
    ranks: &Ranks,
    taken: &mut TakenBlocks,
    steps: &mut Steps<L>,
) -> Result<(), NoMemory>
    requires root { EndsLow claims.now.root }
    requires recorded { All EndsLow ranks.now.recorded.items }
    requires scanned { All EndsLow ranks.now.scanned.items }
    requires files_claim { All IsClaim claims.now.files }
    requires ranked { AreRanked claims.now ranks.now }
    ensures held { OnOk result (held_of taken.new ≡ kept_from (held_of taken.old) claims.now) }
    ensures ticks { steps.new ≤ steps.old + rank_steps claims.now }
{
    taken.keep_cluster(claims.root, steps)?;
    let files = claims.files.as_slice();
    taken.keep_both(&ranks.recorded, files, &ranks.files.recorded, steps)?;
    taken.keep_both(&ranks.scanned, files, &ranks.files.scanned, steps)
}
