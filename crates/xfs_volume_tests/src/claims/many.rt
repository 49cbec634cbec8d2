//! A hundred thousand files on the blocks of one run.

ghost use Rattle.std.specs.Prelude.{◌≡◌, ◌<◌};

use super::cases::decide;
use crate::checks::{equal, must};
use crate::items::tells_numbers;
use crate::text::Row;
use std::alloc::Global;
use std::marker::Brand;
use std::process::Abort;
use std::sync::ledger::{Blank, Ledger};
use std::thread::Threads;
use xfs_claims::{Claims, FileClaim};
use xfs_collections::Steps;
use xfs_geom::Run;
use xfs_volume::{ClusterRec, Records};

/// The blocks of the run, which begins at block 1,000.
const LENGTH: u64 = 60_000_000;

/// The block behind the run.
const BEHIND: u64 = 1000 + LENGTH;

/// How many other files there are, 32 in a cluster.
const OTHERS: u64 = 100_000;

fn file_on(
    rt: &impl Abort,
    alloc: Global,
    ino: u64,
    cluster: u64,
    start: u64,
    count: u64,
) -> FileClaim {
    let run = Run {
        start,
        count,
        owner: ino,
        offset_word: 0,
    };
    FileClaim {
        ino,
        cluster,
        runs: Records::from_vec(must(rt, vec![in alloc; run])),
    }
}

/// The root cluster with a file on one long run, and clusters behind it with files on one block of the run each.
fn claims_on_one_run(rt: &impl Abort, alloc: Global) -> Claims {
    Claims {
        root: 16,
        fixed: Records::from_vec(Vec::new(alloc)),
        clusters: Records::from_vec(clusters_behind(rt, alloc)),
        files: Records::from_vec(files_on_blocks(rt, alloc)),
    }
}

/// The root cluster, and those behind the run.
fn clusters_behind(rt: &impl Abort, alloc: Global) -> Vec<ClusterRec> {
    let mut clusters = Vec::new(alloc);
    must(rt, clusters.push(cluster_at(16)));
    for i in 0..OTHERS / 32 {
        must(rt, clusters.push(cluster_at(BEHIND + 4 * i)));
    }
    clusters
}

/// A recorded cluster.
fn cluster_at(block: u64) -> ClusterRec {
    ClusterRec {
        block,
        recorded: true,
    }
}

/// The files on one block each, and then that on all of them.
fn files_on_blocks(rt: &impl Abort, alloc: Global) -> Vec<FileClaim> {
    let mut files = Vec::new(alloc);
    for i in 0..OTHERS {
        let cluster = BEHIND + 4 * (i / 32);
        must(
            rt,
            files.push(file_on(rt, alloc, 132 + i, cluster, 1000 + i, 1)),
        );
    }
    must(rt, files.push(file_on(rt, alloc, 131, 16, 1000, LENGTH)));
    files
}

fn try_one_run<R: Threads + Sync + Abort, L: Ledger>(rt: &R, alloc: Global, blank: Blank)
    requires name { blank.name ≡ L.name }
    requires parts { blank.parts ≡ L.parts }
    requires some { 0 < blank.parts }
{
    let mut steps = Steps::<L>::from_blank(blank);
    let claims = claims_on_one_run(rt, alloc);
    let kept = decide(rt, alloc, &claims, &mut steps, "many files");
    tells_numbers(
        rt,
        kept.files.as_slice(),
        &mut Row::new("131"),
        "many files",
    );
    equal(rt, kept.clusters.as_slice().len(), 3126);
    drop((kept, claims));
}

#[test]
fn files_on_one_run(rt: HostRuntime) {
    try_one_run::<HostRuntime, Brand>(&rt, rt.alloc(), Blank::new(1));
}
