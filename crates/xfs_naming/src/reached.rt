//! The directories that a walk has reached, in the order of their numbers: no choice of numbers makes them slow to find.

ghost use Rattle.std.specs.Prelude.{◌≡◌, ℕ, ◌+◌, ◌==◌, true, cond, not, length, if◌then◌else◌, OnOk, IfOk};
ghost use Rattle.std.specs.Bool.{nat_eq};
ghost use Rattle.std.specs.List.{IsDistinct};
ghost use Rattle.xfs_naming.specs.Private.Walking.{is_walked};

use std::collections::BTreeSet;
use xfs_disk::NoMemory;

/// Puts a number among those that are reached; whether it was not there before.
pub fn reach(reached: &mut BTreeSet<u64>, ino: u64) -> Result<bool, NoMemory>
    ensures added { IfOk result (λ added. added ≡ not (is_walked reached.old.keys ino)) }
    ensures updates { OnOk result ((q : ℕ) → is_walked reached.new.keys q ≡ cond (ino == q) true (is_walked reached.old.keys q)) }
    ensures len { IfOk result (λ added. length reached.new.keys ≡ length reached.old.keys + (if added then 1 else 0)) }
    ensures unique { OnOk result (IsDistinct nat_eq reached.new.keys) }
{
    let added = reached.insert(ino)?;
    Ok(added)
}

/// Whether a number is reached.
pub fn is_reached(reached: &BTreeSet<u64>, ino: u64) -> bool
    ensures { result ≡ is_walked reached.now.keys ino }
{
    reached.contains(&ino)
}
