//! Sets of runs at small cases.

ghost use Rattle.std.specs.Prelude.{◌≡◌, ◌+◌, ◌^◌, ◌<◌, ◌≤◌};

use crate::checks::{equal, equal_at, must, sure};
use crate::text::{Row, line_at, line_count};
use std::alloc::Global;
use std::marker::Brand;
use std::mem;
use std::process::Abort;
use std::sync::ledger::{Blank, Ledger};
use xfs_collections::*;
use xfs_disk::NoMemory;

/// The runs that are put into a set in turn: the first block, the number of blocks, and whether they meet what is there.
const PUT: &str = "\
40 10 false
50 1 false
49 1 true
39 2 true
45 2 true
30 40 true
20 20 false
51 4 false
55 0xffff0000 false
54 2 true
0 1 false
1 18 false
19 1 false
0 1 true
0xffff0036 1 true
0xffff0037 0xffc8 false
";

/// The same of blocks that are only asked for, once all of these are there: all below 2^32 - 1 are.
const ASKED: &str = "\
0 1 true
19 1 true
0xfffffffe 1 true
0xffffffff 1 false
0xffffffff 0xffffffff false
";

/// Puts the run into the set where it does not meet it. Whether it met it.
fn put<L: Ledger>(
    set: &mut RunSet,
    start: u64,
    count: u64,
    steps: &mut Steps<L>,
) -> Result<bool, NoMemory>
    requires some { 1 ≤ count }
    requires end { start + count < 2 ^ 63 }
{
    if set.meets(start, count, steps) {
        return Ok(true);
    }
    set.add(start, count, steps)?;
    Ok(false)
}

fn try_all<L: Ledger, R: Abort>(rt: &R, alloc: Global, blank: Blank)
    requires name { blank.name ≡ L.name }
    requires parts { blank.parts ≡ L.parts }
    requires some { 0 < blank.parts }
{
    let mut steps = Steps::<L>::from_blank(blank);
    let mut set = RunSet::make(alloc);
    for i in 0..line_count(PUT) {
        let line = line_at(PUT, i);
        let mut row = Row::new(line);
        let (start, count): (u32, u32) = (row.number(rt), row.number(rt));
        sure(rt, count > 0, line);
        let found = must(
            rt,
            put(&mut set, u64::from(start), u64::from(count), &mut steps),
        );
        equal_at(rt, found, row.flag(rt), line);
    }
    for i in 0..line_count(ASKED) {
        let line = line_at(ASKED, i);
        let mut row = Row::new(line);
        let (start, count): (u32, u32) = (row.number(rt), row.number(rt));
        sure(rt, count > 0, line);
        let found = set.meets(u64::from(start), u64::from(count), &mut steps);
        equal_at(rt, found, row.flag(rt), line);
    }
}

#[test]
fn runs_in_turn(rt: HostRuntime) {
    try_all::<Brand, HostRuntime>(&rt, rt.alloc(), Blank::new(1))
}

#[test]
fn steps_take_no_bytes(rt: HostRuntime) {
    equal(&rt, mem::size_of::<Steps<Brand>>(), 0);
}
