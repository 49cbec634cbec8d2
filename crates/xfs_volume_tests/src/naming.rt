//! Small volumes, and the first law of names that each breaks.

mod worlds;

use crate::catalogs::{EMPTY, Sketch, tells_law};
use crate::checks::{must, sure};
use crate::text::{Row, line_at, line_count};
use std::alloc::Global;
use std::process::Abort;
use worlds::WORLDS;
use xfs_laws::is_catalog;
use xfs_naming::check_names;

#[test]
fn small_volumes(rt: HostRuntime) {
    for i in 0..line_count(WORLDS) {
        let line = line_at(WORLDS, i);
        try_world(&rt, rt.alloc(), line);
    }
}

fn try_world(rt: &impl Abort, alloc: Global, line: &str) {
    let mut row = Row::new(line);
    let case = row.text();
    let catalog = Sketch::new(rt, EMPTY, row.text()).catalog(rt, alloc);
    sure(rt, is_catalog(&catalog), case);
    let found = must(
        rt,
        check_names(
            alloc,
            128,
            catalog.files.as_slice(),
            catalog.entries.as_slice(),
            catalog.dirs.as_slice(),
        ),
    );
    tells_law(rt, found, &mut row, case);
    drop(catalog);
}
