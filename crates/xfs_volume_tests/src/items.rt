//! Lists of items in texts: commas between the items, blanks between the numbers of an item.

use crate::checks::{equal_at, must, sure};
use crate::text::Row;
use std::alloc::Global;
use std::process::Abort;
use xfs_dirdata::EntryRec;
use xfs_disk::Word;
use xfs_volume::Records;

/// What stands in lists.
pub trait Item: Sized + Drop {
    /// The item of these fields.
    fn read(rt: &impl Abort, alloc: Global, row: &mut Row) -> Self;
}

/// The items of a text.
pub fn items<T: Item>(rt: &impl Abort, alloc: Global, text: &str) -> Vec<T> {
    let mut items = Vec::new(alloc);
    for part in text.split_terminator(',') {
        must(rt, items.push(T::read(rt, alloc, &mut Row::new(part))));
    }
    items
}

/// The same as records.
pub fn records<T: Item>(rt: &impl Abort, alloc: Global, text: &str) -> Records<T> {
    Records::from_vec(items(rt, alloc, text))
}

/// Fails where a number is not the next one of a text.
pub fn tells_number(rt: &impl Abort, held: u64, due: &mut Row, case: &str) {
    sure(rt, !due.is_read(), case);
    equal_at(rt, held, due.number(rt), case);
}

/// The same of a name.
pub fn tells_name(rt: &impl Abort, held: &Word, due: &mut Row, case: &str) {
    sure(rt, held.bytes() == due.word().as_bytes(), case);
}

/// Fails where these are not the numbers that a row tells next.
pub fn tells_numbers(rt: &impl Abort, held: &[u64], row: &mut Row, case: &str) {
    let mut due = Row::new(row.text());
    for number in held {
        tells_number(rt, *number, &mut due, case);
    }
    sure(rt, due.is_read(), case);
}

/// The same of pairs of numbers.
pub fn tells_pairs(rt: &impl Abort, held: &[(u64, u64)], row: &mut Row, case: &str) {
    let mut due = Row::new(row.text());
    for (first, second) in held {
        tells_number(rt, *first, &mut due, case);
        tells_number(rt, *second, &mut due, case);
    }
    sure(rt, due.is_read(), case);
}

/// An entry: its directory, what it names, the type that it states, and its name.
impl Item for EntryRec {
    fn read(rt: &impl Abort, alloc: Global, row: &mut Row) -> Self {
        EntryRec {
            dir: row.number(rt),
            ino: row.number(rt),
            ftype: row.number(rt),
            name: Word::from_vec(must(rt, Vec::from_slice(alloc, row.text().as_bytes()))),
        }
    }
}
