//! A source of bytes and a sink for them.

ghost use Rattle.std.specs.Prelude.{◌≡◌, ℕ, ◌≤◌, ◌<◌, ◌++◌, List, [], length, take, drop, Option, Some, OnOk, OnErr, IfOk};
ghost use Rattle.std.specs.Option.{ForSome};
ghost use Rattle.xfs_disk.specs.Faults.{HasCause};

use crate::failed::Failed;

/// Where bytes come from. Contracts see the bytes that are `left` where the source tells them, and its
/// count `faults`.
pub trait Source {
    ghost left: { Self → Option (List ℕ) };

    ghost faults: { Self → ℕ };

    /// Moves bytes to the start of `into` and says how many: 0 exactly at the end.
    fn take(&mut self, into: &mut [u8]) -> Result<usize, Failed>
        requires { 0 < length into.old }
        ensures within { IfOk result (λ n. n ≤ length into.old) }
        ensures moved { IfOk result (λ n. ForSome (left self.old) (λ bytes.
            (n ≤ length bytes) × (take n into.new ≡ take n bytes) × (left self.new ≡ Some (drop n bytes)))) }
        ensures end { IfOk result (λ n. n ≡ 0 → ForSome (left self.old) (λ bytes. bytes ≡ [])) }
        ensures stays { OnErr result (left self.new ≡ left self.old) }
        ensures cause { HasCause (faults self.old) (faults self.new) result };
}

/// Where bytes go. Contracts see the bytes that it `took` where the sink tells them, and its count
/// `faults`.
pub trait Sink {
    ghost took: { Self → Option (List ℕ) };

    ghost faults: { Self → ℕ };

    /// Takes the whole piece, or fails after a prefix of it.
    fn put(&mut self, from: &[u8]) -> Result<(), Failed>
        ensures whole { OnOk result (ForSome (took self.old) (λ before. took self.new ≡ Some (before ++ from.now))) }
        ensures part { OnErr result (ForSome (took self.old) (λ before.
            (n : ℕ) × (n ≤ length from.now) × (took self.new ≡ Some (before ++ take n from.now)))) }
        ensures cause { HasCause (faults self.old) (faults self.new) result };
}
