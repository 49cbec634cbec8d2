//! The smallest volume, whole and with each law broken, judged by one worker and by two; and one with so many files that
//! two workers share the work.

ghost use Rattle.xfs_laws.specs.Lawful.{IsCatalog};

mod rows;

use crate::catalogs::{EMPTY, Sketch, tells_law};
use crate::checks::{must, sure};
use crate::text::{Row, line_at, line_count, refuse};
use rows::{CHANGES, CHANGES_OF_EMPTY, CHANGES_OF_MANY, WITH_FILES};
use std::alloc::Global;
use std::fmt;
use std::fmt::Write;
use std::process::Abort;
use std::thread::Threads;
use xfs_laws::{is_catalog, lawful};
use xfs_volume::{Catalog, Law, LawFault};

#[test]
fn changed_volumes(rt: HostRuntime) {
    let rt = &rt;
    let alloc = rt.alloc();
    try_rows(rt, alloc, EMPTY, CHANGES_OF_EMPTY);
    try_rows(rt, alloc, WITH_FILES, CHANGES);
}

#[test]
fn many_files(rt: HostRuntime) {
    let rt = &rt;
    let alloc = rt.alloc();
    let volume = must(rt, with_more_files(alloc));
    try_rows(rt, alloc, volume.as_str(), CHANGES_OF_MANY);
}

/// The volume with two files and many empty ones, of which no chunk tells.
fn with_more_files(alloc: Global) -> Result<String, fmt::Error> {
    let mut text = String::new(alloc);
    for part in WITH_FILES.split_terminator(';') {
        write!(text, "{part}")?;
        put_more(&mut text, part.trim_start())?;
        write!(text, ";")?;
    }
    Ok(text)
}

/// Adds 4096 empty files to a part of the volume, where it lists files or entries.
fn put_more(text: &mut String, part: &str) -> fmt::Result {
    for ino in 1024..5120u32 {
        if part.starts_with("volume files") {
            write!(text, ", {ino} 0x81a4 1 0")?;
        }
        if part.starts_with("volume entries") {
            write!(text, ", 128 {ino} 1 f{ino}")?;
        }
    }
    Ok(())
}

/// Tries the changes of a volume, a line each.
fn try_rows<R: Threads + Abort + Sync>(rt: &R, alloc: Global, base: &str, changes: &str) {
    for i in 0..line_count(changes) {
        let line = line_at(changes, i);
        try_row(rt, alloc, base, line);
    }
}

fn try_row<R: Threads + Abort + Sync>(rt: &R, alloc: Global, base: &str, line: &str) {
    let mut row = Row::new(line);
    let case = row.text();
    let catalog = Sketch::new(rt, base, row.text()).catalog(rt, alloc);
    sure(rt, is_catalog(&catalog), case);
    for workers in 1..=2 {
        let mut due = row;
        tells_law(
            rt,
            judged(rt, alloc, workers, &catalog, case),
            &mut due,
            case,
        );
    }
    drop(catalog);
}

/// The first law that so many workers find broken.
fn judged<R: Threads + Abort + Sync>(
    rt: &R,
    alloc: Global,
    workers: u32,
    catalog: &Catalog,
    case: &str,
) -> Option<Law>
    requires { IsCatalog catalog.now }
{
    match lawful(rt, alloc, workers, catalog) {
        Ok(()) => None,
        Err(LawFault::Broken(law)) => Some(law),
        Err(LawFault::NoMemory) => refuse(rt, "memory is wanting", case),
    }
}
