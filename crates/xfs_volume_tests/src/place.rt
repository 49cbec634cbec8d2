//! A volume of two groups of 1024 and 1023 blocks, with its log at AG blocks 6 to 517 of the second.

ghost use Rattle.std.specs.Prelude.{◌≡◌, ◌≤◌, [], ◌∷◌};

mod aged;
mod filled;
mod groups;
mod objects;
mod pieces;
mod spared;

use crate::checks::{must, sure};
use crate::text::{Row, line_at, line_count, refuse, tells};
use std::alloc::{AllocError, Global};
use std::process::Abort;
use xfs_geom::{Geometry, Run};
use xfs_place::*;
use xfs_volume::Records;

/// The owner of clusters of inodes.
const INODES: u64 = u64::MAX - 6;

fn volume() -> Geometry
    ensures { result.dblocks ≡ 2047 }
{
    Geometry {
        dblocks: 2047,
        agblocks: 1024,
        agcount: 2,
        agblklog: 10,
        log: 1030,
        logblocks: 512,
        rootino: 128,
        logsectlog: 0,
        uuid: [7; 16],
    }
}

/// A request for chunks of a volume with the root's chunk at blocks 16 to 23, and block 25 reserved.
fn ask(
    rt: &impl Abort,
    alloc: Global,
    size: u32,
    from: u32,
    spared_from: Vec<u32>,
    count: u32,
) -> ChunkAsk
    requires { 1 ≤ size }
    ensures size { result.size ≡ size }
    ensures blocks { result.geometry.dblocks ≡ 2047 }
    ensures runs { result.taken ≡ record { start = 16; count = 8; owner = INODES; offset_word = 0 } ∷ [] }
{
    let root = Run {
        start: 16,
        count: 8,
        owner: INODES,
        offset_word: 0,
    };
    let Ok(taken) = vec![in alloc; root] else {
        refuse(rt, "memory is wanting", "an ask");
    };
    let reserved = must(rt, vec![in alloc; 25, 5000]);
    ChunkAsk {
        geometry: volume(),
        taken: Records::from_vec(taken),
        reserved: Records::from_vec(reserved),
        size,
        from,
        spared_from: Records::from_vec(spared_from),
        count,
        what: Unplaced::LostFound,
    }
}

/// The blocks of a chunk, the AG block from which on they are looked for, those from which on blocks are spared, how many are wanted, and where
/// they begin.
const LOWEST: &str = "\
8 0 | | 0 | []
8 0 | | 3 | [8, 32, 40]
8 24 | | 2 | [32, 40]
4 0 | | 4 | [8, 12, 28, 32]
3 0 | | 3 | [9, 12, 27]
8 1000 | | 4 | [1000, 1008, 1016, 2024]
504 0 | | 1 | [504]
8 1000 | 1015 | 3 | [1000, 2024, 2032]
8 1000 | 1016 1015 | 3 | [1000, 1008, 2024]
8 0 | 40 0 | 2 | [8, 32]
8 0 | 0 | 1 | [1544]
";

#[test]
fn lowest_chunks(rt: HostRuntime) {
    for i in 0..line_count(LOWEST) {
        let line = line_at(LOWEST, i);
        try_chunks(&rt, line);
    }
}

fn try_chunks(rt: &(impl Abort + AllocGlobal), line: &str) {
    let alloc = rt.alloc();
    let mut row = Row::new(line);
    let (size, from) = (row.number::<u32>(rt), row.number(rt));
    let spared = row.numbers::<u32>(rt, alloc);
    let asked = ask(rt, alloc, size.max(1), from, spared, row.number(rt));
    match chunks(alloc, &asked) {
        Ok(starts) => tells(rt, &starts.as_slice(), row.text(), line),
        Err(_) => refuse(rt, "no chunks are found", line),
    }
}

#[test]
fn too_few_chunks(rt: HostRuntime) {
    let rt = &rt;
    let alloc = rt.alloc();
    // AG blocks 8 to 1023 without 16 to 31, and of the second group 520 to 1015
    let all = (1016 - 16) / 8 + (1016 - 520) / 8;
    let asked = ask(rt, alloc, 8, 0, Vec::new(alloc), all);
    sure(rt, chunks(alloc, &asked).is_ok(), "all chunks");
    drop(asked);
    let asked = ask(rt, alloc, 8, 0, Vec::new(alloc), all + 1);
    let found = chunks(alloc, &asked);
    sure(
        rt,
        matches!(found, Err(PlaceFault::NoRoom(Unplaced::LostFound))),
        "one chunk more",
    );
    drop((found, asked));
}
