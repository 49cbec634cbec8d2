//! What is kept so far of claims that are looked at in the order of their rank.

ghost use Rattle.std.specs.Prelude.{◌≡◌, [], ◌+◌, ◌*◌, ◌^◌, ◌<◌, ◌≤◌, length, map, IfOk, OnOk};
ghost use Rattle.std.specs.List.{All, sum_by};
ghost use Rattle.xfs_collections.specs.Blocks.{is_in};
ghost use Rattle.xfs_claims.specs.Spans.{spans_of, SpansApart, IsRun};
ghost use Rattle.xfs_claims.specs.Ranks.{run_count};
ghost use Rattle.xfs_claims.specs.Keeping.{fixed_alone, with_cluster, with_clusters, with_file, with_files, EndsLow, IsClaim};
ghost use Rattle.xfs_claims.specs.Private.Places.{file_at_place, IsFilePlace};
ghost use Rattle.xfs_claims.specs.Private.Ranked.{due_steps, with_both};

use crate::arriving::{all_of, in_ascending_order};
use crate::claimants::{FileClaim, KeptClaims};
use crate::ranks::FilePlace;
use crate::taking::{meets_runs, take_runs};
use std::alloc::Global;
use std::collections::BTreeSet;
use std::sync::ledger::Ledger;
use xfs_collections::{RunSet, Steps};
use xfs_disk::NoMemory;
use xfs_geom::Run;
use xfs_volume::Records;

/// How many blocks a cluster has.
const CLUSTER_BLOCKS: u64 = 4;

/// What is kept so far.
#[derive(Drop)]
pub(crate) struct TakenBlocks {
    /// All blocks that are fixed or kept.
    blocks: RunSet,
    /// The first blocks of the kept clusters.
    clusters: BTreeSet<u64>,
    /// The numbers of the kept files.
    files: Vec<u64>,
}

impl TakenBlocks {
    ghost use Rattle.xfs_claims.specs.Private.Held.{held_of};

    /// The fixed blocks alone.
    pub(crate) fn with_fixed<L: Ledger>(
        alloc: Global,
        fixed: &[Run],
        steps: &mut Steps<L>,
    ) -> Result<TakenBlocks, NoMemory>
        requires runs { All IsRun fixed.now }
        requires apart { SpansApart (spans_of fixed.now) }
        ensures held { IfOk result (λ taken. held_of taken ≡ fixed_alone (spans_of fixed.now)) }
        ensures ticks { steps.new ≤ steps.old + length fixed.now }
    {
        let mut blocks = RunSet::make(alloc);
        take_runs(&mut blocks, fixed, steps)?;
        Ok(TakenBlocks {
            blocks,
            clusters: BTreeSet::new(alloc),
            files: Vec::new(alloc),
        })
    }

    /// Keeps the cluster that begins at a block where none of its blocks is taken.
    pub(crate) fn keep_cluster<L: Ledger>(
        &mut self,
        block: u64,
        steps: &mut Steps<L>,
    ) -> Result<(), NoMemory>
        requires { EndsLow block }
        ensures held { OnOk result (held_of self.new ≡ with_cluster (held_of self.old) block) }
        ensures ticks { steps.new ≤ steps.old + 2 }
    {
        if !self.blocks.meets(block, CLUSTER_BLOCKS, steps) {
            self.blocks.add(block, CLUSTER_BLOCKS, steps)?;
            self.clusters.insert(block)?;
        }
        Ok(())
    }

    /// Keeps of the clusters, one after the other, those that can be kept.
    pub(crate) fn keep_clusters<L: Ledger>(
        &mut self,
        clusters: &[u64],
        steps: &mut Steps<L>,
    ) -> Result<(), NoMemory>
        requires { All EndsLow clusters.now }
        ensures held { OnOk result (held_of self.new ≡ with_clusters (held_of self.old) clusters.now) }
        ensures ticks { steps.new ≤ steps.old + 2 * length clusters.now }
    {
        for block in clusters {
            self.keep_cluster(*block, steps)?;
        }
        Ok(())
    }

    /// Keeps the file where its cluster is kept and none of its blocks is taken.
    fn keep_file<L: Ledger>(
        &mut self,
        file: &FileClaim,
        steps: &mut Steps<L>,
    ) -> Result<(), NoMemory>
        requires { IsClaim file.now }
        ensures held { OnOk result (held_of self.new ≡ with_file (held_of self.old) file.now) }
        ensures ticks { steps.new ≤ steps.old + 2 * run_count file.now }
    {
        let runs = file.runs.as_slice();
        if self.clusters.contains(&file.cluster) && !meets_runs(&self.blocks, runs, steps) {
            take_runs(&mut self.blocks, runs, steps)?;
            self.files.push(file.ino)?;
        }
        Ok(())
    }

    /// Keeps of the files at these places, one after the other, those that can be kept.
    pub(crate) fn keep_files<L: Ledger>(
        &mut self,
        files: &[FileClaim],
        places: &[FilePlace],
        steps: &mut Steps<L>,
    ) -> Result<(), NoMemory>
        requires claims { All IsClaim files.now }
        requires places { All (IsFilePlace files.now) places.now }
        ensures held { OnOk result (held_of self.new ≡ with_files (held_of self.old) (map (file_at_place files.now) places.now)) }
        ensures ticks { steps.new ≤ steps.old + 2 * sum_by run_count (map (file_at_place files.now) places.now) }
    {
        for place in places {
            self.keep_file(&files[place.at], steps)?;
        }
        Ok(())
    }

    /// Keeps of the clusters, and then of the files at these places, those that can be kept.
    pub(crate) fn keep_both<L: Ledger>(
        &mut self,
        clusters: &[u64],
        files: &[FileClaim],
        places: &[FilePlace],
        steps: &mut Steps<L>,
    ) -> Result<(), NoMemory>
        requires clusters { All EndsLow clusters.now }
        requires claims { All IsClaim files.now }
        requires places { All (IsFilePlace files.now) places.now }
        ensures held { OnOk result (held_of self.new ≡ with_both (held_of self.old) clusters.now (map (file_at_place files.now) places.now)) }
        ensures ticks { steps.new ≤ steps.old + due_steps clusters.now (map (file_at_place files.now) places.now) }
    {
        match self.keep_clusters(clusters, steps) {
            Ok(()) => self.keep_files(files, places, steps),
            Err(error) => Err(error),
        }
    }

    /// What is kept, as lists.
    pub(crate) fn into_kept(self, alloc: Global) -> Result<KeptClaims, NoMemory>
        ensures clusters { IfOk result (λ kept. kept.clusters ≡ (held_of self).clusters) }
        ensures files { IfOk result (λ kept. kept.files ≡ (held_of self).files) }
    {
        let TakenBlocks {
            clusters,
            files,
            ..
        } = self;
        let clusters = all_of(alloc, &clusters)?;
        let files = in_ascending_order(alloc, files)?;
        Ok(KeptClaims {
            clusters: Records::from_vec(clusters),
            files: Records::from_vec(files),
        })
    }
}
