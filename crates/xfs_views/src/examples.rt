//! Worked examples of guarded files and of what is kept. Each function does nothing; its contract is the example.

ghost use Rattle.std.specs.Prelude.{◌≡◌, [], ◌∷◌};
ghost use Rattle.xfs_claims.specs.Keeping.{kept_of};
ghost use Rattle.xfs_views.specs.Examples.{IsGuardedIn, blocks, claim, recorded, scanned, small_claims, claims_with};

/// File 7 lies in the recorded cluster at 16 and claims blocks 30, 31 and 33; file 9 lies in the scanned cluster at
/// 20. With nothing in the way it is guarded. It is not where just one of these changes: it claims a block of the
/// log, or one of the other cluster, or of its own; file 9 claims block 31, or block 17; its cluster is one that
/// has blocks of the log.
pub fn guarded_examples()
    ensures guarded { IsGuardedIn (small_claims (claim 7 16 (blocks 30 2 ∷ blocks 33 1 ∷ []) ∷ claim 9 20 (blocks 50 2 ∷ []) ∷ [])) (claim 7 16 (blocks 30 2 ∷ blocks 33 1 ∷ [])) }
    ensures on_fixed { IsGuardedIn (small_claims (claim 7 16 (blocks 30 2 ∷ blocks 41 1 ∷ []) ∷ claim 9 20 (blocks 50 2 ∷ []) ∷ [])) (claim 7 16 (blocks 30 2 ∷ blocks 41 1 ∷ [])) → ⊥ }
    ensures on_cluster { IsGuardedIn (small_claims (claim 7 16 (blocks 30 2 ∷ blocks 22 1 ∷ []) ∷ claim 9 20 (blocks 50 2 ∷ []) ∷ [])) (claim 7 16 (blocks 30 2 ∷ blocks 22 1 ∷ [])) → ⊥ }
    ensures on_own_cluster { IsGuardedIn (small_claims (claim 7 16 (blocks 30 2 ∷ blocks 18 1 ∷ []) ∷ claim 9 20 (blocks 50 2 ∷ []) ∷ [])) (claim 7 16 (blocks 30 2 ∷ blocks 18 1 ∷ [])) → ⊥ }
    ensures on_other { IsGuardedIn (small_claims (claim 7 16 (blocks 30 2 ∷ blocks 33 1 ∷ []) ∷ claim 9 20 (blocks 31 1 ∷ []) ∷ [])) (claim 7 16 (blocks 30 2 ∷ blocks 33 1 ∷ [])) → ⊥ }
    ensures cluster_fixed { IsGuardedIn (claims_with (recorded 16 ∷ recorded 44 ∷ []) (claim 7 44 (blocks 30 2 ∷ blocks 33 1 ∷ []) ∷ claim 9 16 (blocks 50 2 ∷ []) ∷ [])) (claim 7 44 (blocks 30 2 ∷ blocks 33 1 ∷ [])) → ⊥ }
    ensures cluster_claimed { IsGuardedIn (small_claims (claim 7 16 (blocks 30 2 ∷ blocks 33 1 ∷ []) ∷ claim 9 20 (blocks 17 1 ∷ []) ∷ [])) (claim 7 16 (blocks 30 2 ∷ blocks 33 1 ∷ [])) → ⊥ }
{}

/// What is kept of such claims: of two files that claim one block the later one is lost, in rank; so is a file on
/// the log or in a cluster on it, one that claims a block of a recorded cluster, and one whose scanned cluster a
/// file in a recorded one claims.
pub fn lost_examples()
    ensures both { (kept_of (small_claims (claim 7 16 (blocks 30 2 ∷ blocks 33 1 ∷ []) ∷ claim 9 20 (blocks 50 2 ∷ []) ∷ []))).files ≡ 7 ∷ 9 ∷ [] }
    ensures on_fixed { (kept_of (small_claims (claim 7 16 (blocks 30 2 ∷ blocks 41 1 ∷ []) ∷ claim 9 20 (blocks 50 2 ∷ []) ∷ []))).files ≡ 9 ∷ [] }
    ensures on_cluster { (kept_of (small_claims (claim 7 16 (blocks 30 2 ∷ blocks 17 1 ∷ []) ∷ claim 9 20 (blocks 50 2 ∷ []) ∷ []))).files ≡ 9 ∷ [] }
    ensures on_other { (kept_of (small_claims (claim 7 16 (blocks 30 2 ∷ blocks 33 1 ∷ []) ∷ claim 9 20 (blocks 31 1 ∷ []) ∷ []))).files ≡ 7 ∷ [] }
    ensures cluster_fixed { (kept_of (claims_with (recorded 16 ∷ recorded 44 ∷ []) (claim 7 44 (blocks 30 2 ∷ []) ∷ claim 9 16 (blocks 50 2 ∷ []) ∷ []))).files ≡ 9 ∷ [] }
    ensures cluster_claimed { (kept_of (small_claims (claim 7 16 (blocks 21 1 ∷ []) ∷ claim 9 20 (blocks 50 2 ∷ []) ∷ []))).files ≡ 7 ∷ [] }
{}
