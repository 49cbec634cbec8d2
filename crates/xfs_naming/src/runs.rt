//! Records in the order of a number, and those among them that have it.

ghost use Rattle.std.specs.Prelude.{◌≡◌, ℕ, ◌==◌, ◌<◌, ◌≤◌, true, filter, length};
ghost use Rattle.std.specs.List.{AllWithin, prefix_len};
ghost use Rattle.std.specs.List.Sorted.{IsNonDecreasingBy};
ghost use Rattle.xfs_naming.specs.Private.Places.{IsPlace};

use xfs_dirdata::EntryRec;
use xfs_volume::{DirRec, FileRec};

/// A record that goes by a number.
pub trait Numbered {
    ghost key: { Self → ℕ };

    /// The number that the record goes by.
    fn number(&self) -> u64
        ensures { result ≡ key self.now };
}

impl Numbered for FileRec {
    ghost key = { λ f. f.ino };

    fn number(&self) -> u64 {
        self.ino
    }
}

impl Numbered for DirRec {
    ghost key = { λ d. d.ino };

    fn number(&self) -> u64 {
        self.ino
    }
}

/// A number goes by itself.
impl Numbered for u64 {
    ghost key = { λ n. n };

    fn number(&self) -> u64 {
        *self
    }
}

/// An entry goes by its directory.
impl Numbered for EntryRec {
    ghost key = { λ e. e.dir };

    fn number(&self) -> u64 {
        self.dir
    }
}

/// A link: a directory, and what it names.
#[derive(Clone, Copy)]
pub struct Link {
    /// The inode number that is named.
    pub target: u64,
    /// The inode number of the directory.
    pub dir: u64,
}

/// A link goes by what it names.
impl Numbered for Link {
    ghost key = { λ l. l.target };

    fn number(&self) -> u64 {
        self.target
    }
}

/// How many records at the front go by a number.
fn run_length<T: Numbered>(records: &[T], number: u64) -> usize
    ensures { result ≡ prefix_len (λ x. T.key x == number) records.now }
{
    for (i, record) in records.iter().enumerate() {
        if record.number() != number {
            return i;
        }
    }
    records.len()
}

/// The records that go by a number, of records in order. The search takes the steps of one among all, and one for each
/// record that is found.
pub fn records_by_number<T: Numbered>(records: &[T], number: u64) -> &[T]
    requires { IsNonDecreasingBy T.key records.now }
    ensures { result.now ≡ filter (λ x. T.key x == number) records.now }
{
    run_at(records, place_of(records, number), number)
}

/// The records that go by a number, of records in order, where its place among them is known.
fn run_at<T: Numbered>(records: &[T], place: usize, number: u64) -> &[T]
    requires inside { place ≤ length records.now }
    requires place { IsPlace T.key number records.now place }
    requires rise { IsNonDecreasingBy T.key records.now }
    ensures { result.now ≡ filter (λ x. T.key x == number) records.now }
{
    let rest = &records[place..];
    &rest[..run_length(rest, number)]
}

/// The same, where `near` is a place at which the run may begin; it then is the place behind the run. There the search
/// takes two steps: what is asked for in the order of the records is found so.
pub fn records_near<'a, T: Numbered>(records: &'a [T], near: &mut usize, number: u64) -> &'a [T]
    requires { IsNonDecreasingBy T.key records.now }
    ensures { result.now ≡ filter (λ x. T.key x == number) records.now }
{
    let start = place_near(records, *near, number);
    let run = run_at(records, start, number);
    *near = start.wrapping_add(run.len());
    run
}

/// The place of a number among records in order: `near`, where it is that, else it is searched for.
fn place_near<T: Numbered>(records: &[T], near: usize, number: u64) -> usize
    requires { IsNonDecreasingBy T.key records.now }
    ensures inside { result ≤ length records.now }
    ensures place { IsPlace T.key number records.now result }
{
    if is_place(records, near, number) {
        return near;
    }
    place_of(records, number)
}

/// The place of a number among records in order, by a search among all.
fn place_of<T: Numbered>(records: &[T], number: u64) -> usize
    requires { IsNonDecreasingBy T.key records.now }
    ensures inside { result ≤ length records.now }
    ensures place { IsPlace T.key number records.now result }
{
    records.partition_point(|record| record.number() < number)
}

/// Whether a place is that of a number among records in order.
fn is_place<T: Numbered>(records: &[T], near: usize, number: u64) -> bool
    requires { IsNonDecreasingBy T.key records.now }
    ensures inside { result ≡ true → near ≤ length records.now }
    ensures place { result ≡ true → IsPlace T.key number records.now near }
{
    if near > records.len() || !is_less_before(records, near, number) {
        return false;
    }
    is_none_less_from(records, near, number)
}

/// Whether the records before a place go by less than a number, of records in order.
fn is_less_before<T: Numbered>(records: &[T], near: usize, number: u64) -> bool
    requires inside { near ≤ length records.now }
    requires rise { IsNonDecreasingBy T.key records.now }
    ensures { result ≡ true → AllWithin (λ x. T.key x < number) records.now 0 near }
{
    if near == 0 {
        return true;
    }
    records[near - 1].number() < number
}

/// Whether no record from a place on goes by less than a number, of records in order.
fn is_none_less_from<T: Numbered>(records: &[T], near: usize, number: u64) -> bool
    requires inside { near ≤ length records.now }
    requires rise { IsNonDecreasingBy T.key records.now }
    ensures { result ≡ true → AllWithin (λ x. number ≤ T.key x) records.now near (length records.now) }
{
    if near == records.len() {
        return true;
    }
    number <= records[near].number()
}
