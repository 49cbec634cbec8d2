//! Tests of small worlds.

pub mod listed;
mod worlds;

use crate::checks::{equal_at, must, sure};
use crate::items::{Item, items, tells_name, tells_number, tells_pairs};
use crate::text::{Row, line_at, line_count};
use listed::are_listed;
use std::alloc::Global;
use std::process::Abort;
use worlds::WORLDS;
use xfs_links::{DecidedNames, NodeRec, connect};

/// The number of the root.
const ROOT: u64 = 128;

#[test]
fn small_worlds(rt: HostRuntime) {
    for i in 0..line_count(WORLDS) {
        let line = line_at(WORLDS, i);
        try_world(&rt, rt.alloc(), line);
    }
}

fn try_world(rt: &impl Abort, alloc: Global, line: &str) {
    let mut row = Row::new(line);
    let case = row.text();
    let files = items(rt, alloc, row.text());
    let entries = items(rt, alloc, row.text());
    sure(rt, are_listed(&files, &entries, ROOT), case);
    let names = must(rt, connect(alloc, &files, &entries, ROOT));
    tells_names(rt, &names, &mut row, case);
    drop((names, entries));
}

/// A file: its number and its type.
impl Item for NodeRec {
    fn read(rt: &impl Abort, _alloc: Global, row: &mut Row) -> Self {
        NodeRec {
            ino: row.number(rt),
            kind: row.number(rt),
        }
    }
}

/// Fails where these are not the names that a row tells.
fn tells_names(rt: &impl Abort, names: &DecidedNames, row: &mut Row, case: &str) {
    tells_entries(rt, names, &mut Row::new(row.text()), case);
    tells_pairs(rt, names.parents.as_slice(), row, case);
    tells_orphans(rt, names, &mut Row::new(row.text()), case);
    equal_at(rt, names.lost, row.optional(rt), case);
}

fn tells_entries(rt: &impl Abort, names: &DecidedNames, due: &mut Row, case: &str) {
    for entry in names.entries.as_slice() {
        tells_number(rt, entry.dir, due, case);
        tells_number(rt, entry.ino, due, case);
        tells_name(rt, &entry.name, due, case);
    }
    sure(rt, due.is_read(), case);
}

fn tells_orphans(rt: &impl Abort, names: &DecidedNames, due: &mut Row, case: &str) {
    for (ino, name) in names.orphans.as_slice() {
        tells_number(rt, *ino, due, case);
        tells_name(rt, name, due, case);
    }
    sure(rt, due.is_read(), case);
}
