//! Free lists: no block stands in one twice.

ghost use Rattle.std.specs.Prelude.{◌≡◌, ◌<◌, ◌≤◌, ◌+◌, ◌==◌, drop, length, slice_index, [], ◌∷◌};
ghost use Rattle.std.specs.List.{list_any};
ghost use Rattle.xfs_volume.specs.Laws.{first_broken};
ghost use Rattle.xfs_space.specs.Owners.{different};
ghost use Rattle.xfs_laws.specs.Counting.{AreShort, group_entries, list_laws};

use crate::broken::broken;
use xfs_volume::{GroupRec, Law};

/// The first free list in which a block stands twice.
pub fn check_lists(groups: &[GroupRec]) -> Option<Law>
    requires few { length groups.now ≤ 512 }
    requires short { AreShort groups.now }
    ensures { result ≡ first_broken (list_laws groups.now) }
{
    let mut ag = 0;
    for group in groups {
        if let Some(law) = check_list(ag, group) {
            return Some(law);
        }
        ag += 1;
    }
    None
}

/// The free list of a group, where a block stands in it twice.
fn check_list(ag: u32, group: &GroupRec) -> Option<Law>
    requires { group.now.agfl.count ≤ 119 }
    ensures { result ≡ first_broken (group_entries ag group.now) }
{
    let different = count_different(group.agfl.active());
    broken(6, ag as u64, group.agfl.count as u128, different as u128)
}

/// How many different numbers there are.
fn count_different(entries: &[u32]) -> usize
    ensures { result ≡ length (different entries.now) }
{
    let mut count = 0;
    for index in 0..entries.len() {
        if !is_repeated(entries, index) {
            count += 1;
        }
    }
    count
}

/// Whether the number at a place comes again behind it.
fn is_repeated(entries: &[u32], index: usize) -> bool
    requires { index < length entries.now }
    ensures { result ≡ list_any (λ y. y == slice_index entries.now index) (drop (index + 1) entries.now) }
{
    stands_in(&entries[index + 1..], entries[index])
}

/// Whether a number stands among others.
fn stands_in(entries: &[u32], entry: u32) -> bool
    ensures { result ≡ list_any (λ y. y == entry) entries.now }
{
    entries.contains(&entry)
}
