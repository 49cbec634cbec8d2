//! Whether claims meet the conditions under which they can be decided.

ghost use Rattle.std.specs.Prelude.{◌≡◌, true, map, IfOk, IsTrue};
ghost use Rattle.std.specs.List.{All, list_all};
ghost use Rattle.xfs_claims.specs.Spans.{spans_apart, span_pair, spans_of, SpansApart, IsRun};
ghost use Rattle.xfs_claims.specs.Ranks.{AreDifferent, first_block, claimed_number, is_recorded_cluster, own_number};
ghost use Rattle.xfs_claims.specs.Keeping.{EndsLow, IsClaim};

use std::alloc::{AllocError, Global};
use std::collections::BTreeSet;
use xfs_claims::{Claims, FileClaim};
use xfs_geom::Run;
use xfs_volume::ClusterRec;

/// Ends of runs lie below it.
const LIMIT: u64 = 1 << 63;

fn are_runs(runs: &[Run]) -> bool
    ensures { IsTrue result → All IsRun runs.now }
{
    for run in runs {
        if run.count == 0 || run.count >= LIMIT || run.start >= LIMIT - run.count {
            return false;
        }
    }
    true
}

fn is_apart_from(run: &Run, others: &[Run]) -> bool
    requires run { IsRun run.now }
    requires others { All IsRun others.now }
    ensures { result ≡ list_all (spans_apart (span_pair run.now)) (spans_of others.now) }
{
    for other in others {
        if !is_apart(run, other) {
            return false;
        }
    }
    true
}

fn is_apart(x: &Run, y: &Run) -> bool
    requires first { IsRun x.now }
    requires second { IsRun y.now }
    ensures { result ≡ spans_apart (span_pair x.now) (span_pair y.now) }
{
    x.start + x.count <= y.start || y.start + y.count <= x.start
}

fn are_all_apart(runs: &[Run]) -> bool
    requires { All IsRun runs.now }
    ensures { IsTrue result → SpansApart (spans_of runs.now) }
{
    for i in 0..runs.len() {
        if !is_apart_from(&runs[i], &runs[i + 1..]) {
            return false;
        }
    }
    true
}

fn is_claim(file: &FileClaim) -> bool
    ensures { IsTrue result → IsClaim file.now }
{
    let runs = file.runs.as_slice();
    are_runs(runs) && are_all_apart(runs)
}

fn are_claims(files: &[FileClaim]) -> bool
    ensures { IsTrue result → All IsClaim files.now }
{
    for file in files {
        if !is_claim(file) {
            return false;
        }
    }
    true
}

fn end_low(clusters: &[ClusterRec]) -> bool
    ensures { IsTrue result → All (λ cluster. EndsLow cluster.block) clusters.now }
{
    for cluster in clusters {
        if cluster.block >= LIMIT - 4 {
            return false;
        }
    }
    true
}

fn has_recorded(clusters: &[ClusterRec], block: u64) -> bool
    ensures { result ≡ is_recorded_cluster clusters.now block }
{
    clusters
        .iter()
        .any(|cluster| cluster.recorded && cluster.block == block)
}

/// Whether no number comes twice.
fn differ(alloc: Global, numbers: &[u64]) -> Result<bool, AllocError>
    ensures { IfOk result (λ differ. IsTrue differ → AreDifferent own_number numbers.now) }
{
    let mut later = BTreeSet::new(alloc);
    let mut left = numbers.len();
    while left > 0 {
        left -= 1;
        if !later.insert(numbers[left])? {
            return Ok(false);
        }
    }
    Ok(true)
}

fn clusters_differ(alloc: Global, clusters: &[ClusterRec]) -> Result<bool, AllocError>
    ensures { IfOk result (λ differ. IsTrue differ → AreDifferent first_block clusters.now) }
{
    let blocks = blocks_of(alloc, clusters)?;
    let all_differ = differ(alloc, &blocks)?;
    Ok(all_differ)
}

fn blocks_of(alloc: Global, clusters: &[ClusterRec]) -> Result<Vec<u64>, AllocError>
    ensures { IfOk result (λ blocks. blocks.items ≡ map first_block clusters.now) }
{
    clusters.iter().map(|cluster| cluster.block).collect(alloc)
}

fn files_differ(alloc: Global, files: &[FileClaim]) -> Result<bool, AllocError>
    ensures { IfOk result (λ differ. IsTrue differ → AreDifferent claimed_number files.now) }
{
    let numbers = numbers_of(alloc, files)?;
    let all_differ = differ(alloc, &numbers)?;
    Ok(all_differ)
}

fn numbers_of(alloc: Global, files: &[FileClaim]) -> Result<Vec<u64>, AllocError>
    ensures { IfOk result (λ numbers. numbers.items ≡ map claimed_number files.now) }
{
    files.iter().map(|file| file.ino).collect(alloc)
}

/// Whether the claims can be decided.
pub(super) fn is_sound(alloc: Global, claims: &Claims) -> Result<bool, AllocError>
    ensures root { IfOk result (λ sound. IsTrue sound → is_recorded_cluster claims.now.clusters claims.now.root ≡ true) }
    ensures clusters_end { IfOk result (λ sound. IsTrue sound → All (λ cluster. EndsLow cluster.block) claims.now.clusters) }
    ensures clusters_differ { IfOk result (λ sound. IsTrue sound → AreDifferent first_block claims.now.clusters) }
    ensures fixed_runs { IfOk result (λ sound. IsTrue sound → All IsRun claims.now.fixed) }
    ensures fixed_apart { IfOk result (λ sound. IsTrue sound → SpansApart (spans_of claims.now.fixed)) }
    ensures files_differ { IfOk result (λ sound. IsTrue sound → AreDifferent claimed_number claims.now.files) }
    ensures files_claim { IfOk result (λ sound. IsTrue sound → All IsClaim claims.now.files) }
{
    let fixed = claims.fixed.as_slice();
    let clusters = claims.clusters.as_slice();
    let files = claims.files.as_slice();
    Ok(
        has_recorded(clusters, claims.root)
            && end_low(clusters)
            && clusters_differ(alloc, clusters)?
            && are_runs(fixed)
            && are_all_apart(fixed)
            && files_differ(alloc, files)?
            && are_claims(files),
    )
}
