//! A table of small cases.

ghost use Rattle.std.specs.Prelude.{◌≡◌, ◌<◌};

use super::sound::is_sound;
use crate::checks::{must, sure};
use crate::items::{Item, records, tells_numbers};
use crate::text::{Row, line_at, line_count, refuse};
use std::alloc::Global;
use std::marker::Brand;
use std::process::Abort;
use std::sync::ledger::{Blank, Ledger};
use std::thread::Threads;
use xfs_claims::{Claims, FileClaim, KeptClaims, keep};
use xfs_collections::Steps;
use xfs_geom::Run;
use xfs_volume::{ClusterRec, Records};

/// In a row stand what the case is, the fixed runs, the clusters and whether they are recorded, the files (the number
/// and the first block of the cluster, then the runs), and the clusters and the files that are kept. The root cluster
/// is that at block 16.
const CASES: &str = "\
A file that meets another, and one of a scanned cluster that meets one of a recorded cluster | | 28 false, 16 true | 225 28, 24 1; 132 16, 27 1; 131 16, 24 4 | 16 28 | 131
The root cluster alone | 0 1, 512 512 | 16 true | | 16 |
The last block of the root cluster is fixed: its files are lost with it | 19 1 | 16 true, 32 true | 131 16, 40 1; 260 32, 40 1 | 32 | 260
Fixed blocks right behind the root cluster | 20 4 | 16 true | 131 16, 23 1; 132 16, 24 1; 133 16, 20 1 | 16 | 132
Of two recorded clusters the lower, whatever the order of the list | | 30 true, 28 true, 16 true | 240 30, 50 1; 230 28, 52 1 | 16 28 | 230
A recorded cluster before a scanned one that begins lower | | 16 true, 24 false, 26 true | 192 24, 50 1; 208 26, 50 1 | 16 26 | 208
The root cluster before a recorded one that begins lower | | 14 true, 16 true | 112 14, 50 1 | 16 |
Of two files in recorded clusters the one with the lower number | | 16 true, 8 true | 132 16, 40 1; 64 8, 40 1 | 8 16 | 64
A file in a recorded cluster before one with a lower number in a scanned one | | 8 false, 16 true | 64 8, 40 1; 132 16, 40 1; 65 8, 41 1 | 8 16 | 65 132
A scanned cluster inside the data of a file in a recorded one | | 16 true, 60 false | 131 16, 63 8; 480 60, 90 1 | 16 | 131
Three in a chain: where the second is lost the third is kept | | 16 true | 131 16, 24 4; 132 16, 27 4; 133 16, 30 4 | 16 | 131 133
The second run meets: the first one is then nobody's | | 16 true | 131 16, 24 1; 132 16, 50 2, 24 1; 133 16, 51 1 | 16 | 131 133
A file on a block of its own cluster | | 16 true | 131 16, 17 1; 132 16, 20 1 | 16 | 132
Runs side by side | | 16 true | 131 16, 24 4; 132 16, 28 1, 30 1; 133 16, 23 1, 29 1 | 16 | 131 132 133
A long run, with both of its ends | | 16 true | 131 16, 1000 60000000; 132 16, 1000 1; 133 16, 60000999 1; 134 16, 60001000 1; 135 16, 999 1 | 16 | 131 134 135
A long run round a block that is kept before | | 16 true | 131 16, 5000 1; 132 16, 1000 60000000; 133 16, 1000 1 | 16 | 131 133
Files without blocks follow their clusters | 31 1 | 16 true, 28 true | 131 16; 224 28 | 16 | 131
A file that meets two | | 16 true | 131 16, 24 1; 132 16, 26 1; 133 16, 24 3 | 16 | 131 132
A recorded cluster and a scanned one that meet fixed blocks | 31 2, 64 1 | 64 false, 28 true, 16 true, 68 false | 512 64, 90 1; 544 68, 91 1; 224 28, 92 1 | 16 68 | 544
The greatest numbers, and a file whose cluster is none of these | 0x7ffffffffffffffe 1 | 16 true, 0x7ffffffffffffffa false, 0x7ffffffffffffff6 true | 0xffffffffffffffff 16, 0 16; 7 400, 600 1 | 16 0x7ffffffffffffff6 0x7ffffffffffffffa | 0xffffffffffffffff
";

/// A run that no one owns.
impl Item for Run {
    fn read(rt: &impl Abort, _alloc: Global, row: &mut Row) -> Self {
        Run {
            start: row.number(rt),
            count: row.number(rt),
            owner: 0,
            offset_word: 0,
        }
    }
}

impl Item for ClusterRec {
    fn read(rt: &impl Abort, _alloc: Global, row: &mut Row) -> Self {
        ClusterRec {
            block: row.number(rt),
            recorded: row.flag(rt),
        }
    }
}

/// The files of a row, with semicolons between them.
fn files_of(rt: &impl Abort, alloc: Global, text: &str) -> Records<FileClaim> {
    let mut files = Vec::new(alloc);
    for file in text.split_terminator(';') {
        let (numbers, runs) = file.split_once(',').unwrap_or((file, ""));
        let mut numbers = Row::new(numbers);
        must(
            rt,
            files.push(FileClaim {
                ino: numbers.number(rt),
                cluster: numbers.number(rt),
                runs: records(rt, alloc, runs),
            }),
        );
    }
    Records::from_vec(files)
}

fn claims_of(rt: &impl Abort, alloc: Global, row: &mut Row) -> Claims {
    Claims {
        root: 16,
        fixed: records(rt, alloc, row.text()),
        clusters: records(rt, alloc, row.text()),
        files: files_of(rt, alloc, row.text()),
    }
}

/// What is kept of claims, which are sound.
pub(super) fn decide<R: Threads + Sync + Abort, L: Ledger>(
    rt: &R,
    alloc: Global,
    claims: &Claims,
    steps: &mut Steps<L>,
    case: &str,
) -> KeptClaims {
    let Ok(sound) = is_sound(alloc, claims) else {
        refuse(rt, "memory is wanting", case);
    };
    sure(rt, sound, case);
    must(rt, keep(rt, alloc, claims, steps))
}

fn try_case<R: Threads + Sync + Abort, L: Ledger>(
    rt: &R,
    alloc: Global,
    line: &str,
    steps: &mut Steps<L>,
) {
    let mut row = Row::new(line);
    let case = row.text();
    let claims = claims_of(rt, alloc, &mut row);
    let kept = decide(rt, alloc, &claims, steps, case);
    tells_numbers(rt, kept.clusters.as_slice(), &mut row, case);
    tells_numbers(rt, kept.files.as_slice(), &mut row, case);
    drop((kept, claims));
}

fn try_cases<R: Threads + Sync + Abort, L: Ledger>(rt: &R, alloc: Global, blank: Blank)
    requires name { blank.name ≡ L.name }
    requires parts { blank.parts ≡ L.parts }
    requires some { 0 < blank.parts }
{
    let mut steps = Steps::<L>::from_blank(blank);
    for i in 0..line_count(CASES) {
        let line = line_at(CASES, i);
        try_case(rt, alloc, line, &mut steps);
    }
}

#[test]
fn small_cases(rt: HostRuntime) {
    try_cases::<HostRuntime, Brand>(&rt, rt.alloc(), Blank::new(1));
}
