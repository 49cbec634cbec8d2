//! The laws of space, broken one by one.

mod judging;
mod rows;

use crate::catalogs::{Sketch, tells_law};
use crate::checks::{must, sure};
use crate::items::items;
use crate::text::{Row, line_at, line_count};
use judging::are_files;
use rows::{BASE, ROWS};
use std::alloc::Global;
use std::process::Abort;
use std::thread::Threads;
use xfs_laws::is_catalog;
use xfs_space::check_space;

#[test]
fn small_volumes(rt: HostRuntime) {
    for workers in 1..3 {
        try_rows(&rt, rt.alloc(), workers);
    }
}

fn try_rows<R: Threads + Abort + Sync>(rt: &R, alloc: Global, workers: u32) {
    for i in 0..line_count(ROWS) {
        let line = line_at(ROWS, i);
        try_row(rt, alloc, workers, line);
    }
}

fn try_row<R: Threads + Abort + Sync>(rt: &R, alloc: Global, workers: u32, line: &str) {
    let mut row = Row::new(line);
    let case = row.text();
    let catalog = Sketch::new(rt, BASE, row.text()).catalog(rt, alloc);
    let files = items(rt, alloc, row.text());
    sure(rt, is_catalog(&catalog), case);
    sure(rt, are_files(&catalog.geometry, &files), case);
    let found = must(
        rt,
        check_space(
            rt,
            alloc,
            workers,
            &catalog.geometry,
            catalog.groups.as_slice(),
            &files,
        ),
    );
    tells_law(rt, found, &mut row, case);
    drop((files, catalog));
}
