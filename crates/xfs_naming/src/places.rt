//! The eighth law: directories hang together as one tree below the root, and each other file is named.

ghost use Rattle.std.specs.Prelude.{◌≡◌, ◌==◌, nat_le, true, length, map};
ghost use Rattle.std.specs.List.{list_all};
ghost use Rattle.xfs_dirdata.specs.declared.records.EntryRec.{EntryRec};
ghost use Rattle.xfs_volume.specs.Laws.{first_broken};
ghost use Rattle.xfs_naming.specs.declared.runs.Link.{Link};
ghost use Rattle.xfs_naming.specs.Naming.{states_parent, is_directory_at, first_failing, root_tests, other_directory_tests, other_file_tests, place_tests, place_law, place_laws, entries_to, numbers_of};
ghost use Rattle.xfs_disk.specs.Lists.{with_number};
ghost use Rattle.xfs_naming.specs.Ordered.{IsOrdered, IsWalked, links_to};

use crate::lookups::{is_directory_at, is_system, states_parent};
use crate::naming::{Names, Near};
use crate::reached::is_reached;
use crate::runs::{Link, records_by_number, records_near};
use std::collections::BTreeSet;
use xfs_volume::Law;

/// How many entries name a file. `near` is a place among the links at which they may begin, and then the one behind them.
pub fn names_of(names: &Names, near: &mut usize, ino: u64) -> usize
    requires { IsOrdered names.now }
    ensures { result ≡ length (entries_to names.now.entries.now ino) }
{
    records_near(names.links, near, ino).len()
}

/// Whether each of these links is from a directory that a directory states as its parent.
fn are_from_parent(names: &Names, ino: u64, links: &[Link]) -> bool
    requires { IsOrdered names.now }
    ensures { result ≡ list_all (λ (l : Link). states_parent names.now.dirs.now ino l.dir) links.now }
{
    for link in links {
        if !states_parent(names, ino, link.dir) {
            return false;
        }
    }
    true
}

/// Whether each entry that names a directory is in the one that it states as its parent.
fn is_below_parent(names: &Names, ino: u64) -> bool
    requires { IsOrdered names.now }
    ensures { result ≡ list_all (λ (e : EntryRec). states_parent names.now.dirs.now ino e.dir) (entries_to names.now.entries.now ino) }
{
    are_from_parent(names, ino, records_by_number(names.links, ino))
}

/// The number of the first test that the root fails, or 0.
fn root_failing(names: &Names, near: &mut Near) -> u8
    requires { IsOrdered names.now }
    ensures { result ≡ first_failing (root_tests names.now.root names.now.files.now names.now.entries.now names.now.dirs.now) }
{
    let root = names.root;
    if names_of(names, &mut near.links, root) != 0 {
        return 1;
    }
    if !is_directory_at(names, &mut near.files, root) {
        return 3;
    }
    if !states_parent(names, root, root) {
        return 2;
    }
    0
}

/// The number of the first test that another directory fails, or 0.
fn directory_failing(names: &Names, near: &mut Near, reached: &BTreeSet<u64>, ino: u64) -> u8
    requires ordered { IsOrdered names.now }
    requires walked { IsWalked names.now reached.now.keys }
    requires directory { is_directory_at names.now.files.now ino ≡ true }
    ensures { result ≡ first_failing (other_directory_tests names.now.root names.now.entries.now names.now.dirs.now ino) }
{
    if names_of(names, &mut near.links, ino) != 1 {
        return 1;
    }
    if !is_below_parent(names, ino) {
        return 2;
    }
    if !is_reached(reached, ino) {
        return 3;
    }
    0
}

/// The number of the test that a file that is no directory fails, or 0.
fn file_failing(names: &Names, near: &mut Near, ino: u64) -> u8
    requires { IsOrdered names.now }
    ensures { result ≡ first_failing (other_file_tests names.now.root names.now.entries.now ino) }
{
    if is_system(names.root, ino) {
        return 0;
    }
    if names_of(names, &mut near.links, ino) == 0 {
        return 4;
    }
    0
}

/// The number of the first test of the eighth law that a file fails, or 0.
fn first_failing(names: &Names, near: &mut Near, reached: &BTreeSet<u64>, ino: u64) -> u8
    requires ordered { IsOrdered names.now }
    requires walked { IsWalked names.now reached.now.keys }
    ensures { result ≡ first_failing (place_tests names.now.root names.now.files.now names.now.entries.now names.now.dirs.now ino) }
{
    if ino == names.root {
        return root_failing(names, near);
    }
    if is_directory_at(names, &mut near.files, ino) {
        return directory_failing(names, near, reached, ino);
    }
    file_failing(names, near, ino)
}

/// What the eighth law says of a file.
fn place_law(names: &Names, near: &mut Near, reached: &BTreeSet<u64>, ino: u64) -> Law
    requires ordered { IsOrdered names.now }
    requires walked { IsWalked names.now reached.now.keys }
    ensures { result ≡ place_law names.now.root names.now.files.now names.now.entries.now names.now.dirs.now ino }
{
    Law {
        law: 8,
        place: ino,
        held: first_failing(names, near, reached, ino) as u128,
        due: 0,
    }
}

/// The first of these files that breaks the eighth law.
pub fn broken_place(names: &Names, reached: &BTreeSet<u64>, numbers: &[u64]) -> Option<Law>
    requires ordered { IsOrdered names.now }
    requires walked { IsWalked names.now reached.now.keys }
    ensures { result ≡ first_broken (map (place_law names.now.root names.now.files.now names.now.entries.now names.now.dirs.now) numbers.now) }
{
    let mut near = Near { files: 0, links: 0 };
    for ino in numbers {
        let law = place_law(names, &mut near, reached, *ino);
        if law.held != law.due {
            return Some(law);
        }
    }
    None
}
