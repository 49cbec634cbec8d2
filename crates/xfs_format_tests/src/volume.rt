//! Lists, there and back.

use crate::checks::{equal, must};
use std::alloc::Global;
use std::process::Abort;
use xfs_volume::*;
use xfs_word::Extent;

/// Two extents, one behind the other.
const FIRST: Extent = Extent {
    offset: 3,
    start: 20,
    count: 5,
    unwritten: false,
};

const SECOND: Extent = Extent {
    offset: 8,
    start: 20,
    count: 5,
    unwritten: false,
};

/// Fails where a list does not hold these extents.
fn hold(rt: &impl Abort, extents: &Extents, due: &[Extent]) {
    equal(rt, extents.as_slice(), due);
}

/// A list that grows, and a copy of what it holds then.
fn grown(rt: &impl Abort, alloc: Global) -> Extents {
    let mut extents = Extents::new();
    hold(rt, &extents, &[]);
    must(rt, extents.push(alloc, FIRST));
    hold(rt, &extents, &[FIRST]);
    must(rt, extents.push(alloc, SECOND));
    hold(rt, &extents, &[FIRST, SECOND]);
    must(rt, Extents::from_slice(alloc, extents.as_slice()))
}

/// Fails where blocks are not the same there and back.
fn blocks_hold(rt: &impl Abort, alloc: Global) {
    let blocks = Blocks::from_vec(must(rt, vec![in alloc; 20, 24]));
    equal(rt, blocks.as_slice(), &[20, 24][..]);
    equal(rt, blocks.into_vec().as_slice(), &[20, 24][..]);
}

#[test]
fn lists(rt: HostRuntime) {
    let rt = &rt;
    let alloc = rt.alloc();
    hold(rt, &grown(rt, alloc), &[FIRST, SECOND]);
    let list = must(rt, vec![in alloc; FIRST]);
    let list = must(rt, Extents::from_vec(alloc, list));
    hold(rt, &list, &[FIRST]);
    blocks_hold(rt, alloc);
}
