//! The names that small worlds are to have.

mod building;
mod ordered;
mod wanted;
mod worlds;

use crate::checks::sure;
use crate::items::{tells_name, tells_number, tells_numbers, tells_pairs};
use crate::text::{Row, line_at, line_count};
use std::process::Abort;
use wanted::wanted_of;
use worlds::WORLDS;
use xfs_dirdata::EntryRec;
use xfs_names::WantedNames;

#[test]
fn small_worlds(rt: HostRuntime) {
    for i in 0..line_count(WORLDS) {
        let line = line_at(WORLDS, i);
        try_world(&rt, line);
    }
}

fn try_world(rt: &(impl Abort + AllocGlobal), line: &str) {
    let mut row = Row::new(line);
    let case = row.text();
    let wanted = wanted_of(rt, &mut row, case);
    tells_wanted(rt, &wanted, &mut row, case);
    drop(wanted);
}

/// Fails where these are not the names that a row tells.
fn tells_wanted(rt: &impl Abort, wanted: &WantedNames, row: &mut Row, case: &str) {
    let entries = wanted.entries.as_slice();
    tells_entries(rt, entries, &mut Row::new(row.text()), case);
    tells_pairs(rt, wanted.parents.as_slice(), row, case);
    tells_pairs(rt, wanted.links.as_slice(), row, case);
    tells_numbers(rt, wanted.rebuilt.as_slice(), row, case);
}

fn tells_entries(rt: &impl Abort, entries: &[EntryRec], due: &mut Row, case: &str) {
    for entry in entries {
        tells_number(rt, entry.dir, due, case);
        tells_number(rt, entry.ino, due, case);
        tells_number(rt, entry.ftype as u64, due, case);
        tells_name(rt, &entry.name, due, case);
    }
    sure(rt, due.is_read(), case);
}
