//! Laws about the rank of claims. Each function does nothing; its contract is the law.

ghost use Rattle.std.specs.Prelude.{◌≡◌, true};
ghost use Rattle.xfs_collections.specs.Blocks.{is_in};
ghost use Rattle.xfs_claims.specs.Keeping.{kept_of};
ghost use Rattle.xfs_claims.specs.Ranks.{AreDifferent, first_block, claimed_number, is_recorded_cluster};
ghost use Rattle.xfs_claims.specs.Spans.{spans_of};
ghost use Rattle.xfs_claims.specs.declared.claimants.Claims.{Claims};
ghost use Rattle.xfs_made.specs.Ranked.{AreKeptByRank, is_held, ranked};

/// A claimant is kept just where none of its blocks is fixed or of something kept of a higher rank, and, for a file, where
/// its cluster is something kept of a higher rank. So whatever is not kept meets something kept of a higher rank or a fixed
/// block, or lies in no kept cluster.
pub fn claims_are_kept_by_rank()
    ensures { (claims : Claims) → is_recorded_cluster claims.clusters claims.root ≡ true → AreDifferent first_block claims.clusters → AreDifferent claimed_number claims.files
        → AreKeptByRank (is_in (spans_of claims.fixed)) (ranked claims) (is_held (kept_of claims)) }
{}
