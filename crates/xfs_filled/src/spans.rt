//! Which runs each file has.

ghost use Rattle.std.specs.Prelude.{◌≡◌, ◌≢◌, ◌<◌, ◌≤◌, ℕ, length, slice_index_or, IfOk};
ghost use Rattle.xfs_geom.specs.Volumes.{volume_of};
ghost use Rattle.xfs_filled.specs.FileTrees.{object_order};
ghost use Rattle.xfs_filled.specs.Sites.{IsSite};
ghost use Rattle.xfs_filled.specs.Spans.{AreRunsOf, HasSpans, no_run};

use crate::site::{Site, ino_at};
use std::alloc::Global;
use xfs_disk::NoMemory;
use xfs_geom::Run;

/// The runs of a file among those of all: from one place up to another.
#[derive(Clone, Copy)]
pub struct RunSpan {
    pub from: usize,
    pub to: usize,
}

/// The runs of each file. They stand in the order of the files.
pub fn list_spans(alloc: Global, site: &Site<'_>, runs: &[Run]) -> Result<Vec<RunSpan>, NoMemory>
    requires site { IsSite site.now.geometry.now site.now.starts.now site.now.nodes.now site.now.contents.now site.now.directories.now site.now.order.now }
    requires runs { AreRunsOf (volume_of site.now.geometry.now) site.now.starts.now (object_order site.now.nodes.now) runs.now }
    ensures { IfOk result (λ spans. HasSpans (volume_of site.now.geometry.now) site.now.starts.now (length site.now.nodes.now) runs.now spans.items) }
{
    let mut spans = vec![in alloc; RunSpan { from: 0, to: 0 }; site.nodes.len()]?;
    let mut at = 0;
    for k in site.order {
        let to = end_of_runs(runs, at, ino_at(site, *k));
        spans[*k] = RunSpan { from: at, to };
        at = to;
    }
    Ok(spans)
}

/// Where the runs of an owner end that stand from a place on.
fn end_of_runs(runs: &[Run], from: usize, owner: u64) -> usize
    requires { from ≤ length runs.now }
    ensures inside { (from ≤ result) × (result ≤ length runs.now) }
    ensures same { (i : ℕ) → from ≤ i → i < result → (slice_index_or runs.now i no_run).owner ≡ owner }
    ensures other { result < length runs.now → (slice_index_or runs.now result no_run).owner ≢ owner }
{
    for i in from..runs.len() {
        if runs[i].owner != owner {
            return i;
        }
    }
    runs.len()
}
