//! Objects: two files of one block, and one of each kind, with the blocks that are built for them.

ghost use Rattle.std.specs.Prelude.{◌≡◌, ◌+◌, ◌^◌, [], ◌∷◌, length, IfOk, IfSome};
ghost use Rattle.xfs_word.specs.Seal.{layout_of};
ghost use Rattle.xfs_volume_tests.specs.Rendered.{AreAsked};

use super::wanted::plan_of;
use super::{block_of, due_disk, planned_disk};
use crate::checks::{compare_at, equal, must, sure};
use crate::text::{Row, line_at, line_count, put_parts, refuse};
use std::alloc::{AllocError, Global};
use std::marker::Sync;
use std::process::Abort;
use std::thread::Threads;
use xfs_collections::BlockList;
use xfs_disk::{BLOCK_SIZE, NoMemory};
use xfs_place::{Object, ObjectKind, RunAsk};
use xfs_render::Plan;
use xfs_volume::Records;
use xfs_word::{Seal, SealKind, part, put_part, sealed};

/// The identifier of the volume.
const IDENTIFIER: [u8; 16] = [
    0x00, 0x11, 0x22, 0x33, 0x44, 0x55, 0x66, 0x77, 0x88, 0x99, 0xaa, 0xbb, 0xcc, 0xdd, 0xee, 0xff,
];

/// The flag of unwritten blocks in an offset word.
const UNWRITTEN: u64 = 1 << 61;

/// Files 131 and 132, of one block each.
pub fn two_files(alloc: Global) -> Result<Vec<Object>, AllocError>
    ensures { IfOk result (λ objects. AreAsked 2 objects.items) }
{
    let first = link(alloc, 131, ObjectKind::Data)?;
    let second = link(alloc, 132, ObjectKind::Data)?;
    Ok(vec![in alloc; first, second]?)
}

/// What is built for them: a block of zeros each.
pub fn blocks_of_two(alloc: Global) -> Result<BlockList, NoMemory>
    ensures { IfOk result (λ blocks. length blocks ≡ 2) }
{
    BlockList::zeros(alloc, 2)
}

/// An object of one block.
fn link(alloc: Global, ino: u64, kind: ObjectKind) -> Result<Object, AllocError>
    ensures { IfOk result (λ o. o.runs ≡ record { blocks = 1; owner = ino; offset_word = 0 } ∷ []) }
{
    let ask = RunAsk {
        blocks: 1,
        owner: ino,
        offset_word: 0,
    };
    Ok(Object {
        ino,
        kind,
        runs: Records::from_vec(vec![in alloc; ask]?),
        most: 21,
    })
}

/// A run that is asked for.
fn ask(blocks: u32, owner: u64, offset_word: u64) -> RunAsk
    ensures { result ≡ record { blocks = blocks; owner = owner; offset_word = offset_word } }
{
    RunAsk {
        blocks,
        owner,
        offset_word,
    }
}

/// Directory 131 with two data blocks, a block of its index and a free block.
fn directory(alloc: Global) -> Result<Object, AllocError>
    ensures { IfOk result (λ o. o.runs ≡ record { blocks = 2; owner = 131; offset_word = 0 } ∷ record { blocks = 1; owner = 131; offset_word = 2 ^ 23 }
        ∷ record { blocks = 1; owner = 131; offset_word = 2 ^ 24 } ∷ []) }
{
    let runs = vec![in alloc; ask(2, 131, 0), ask(1, 131, 1 << 23), ask(1, 131, 1 << 24)]?;
    Ok(Object {
        ino: 131,
        kind: ObjectKind::Directory,
        runs: Records::from_vec(runs),
        most: 21,
    })
}

/// File 133 with two blocks, three that are unwritten, and one behind them.
fn file(alloc: Global) -> Result<Object, AllocError>
    ensures { IfOk result (λ o. o.runs ≡ record { blocks = 2; owner = 133; offset_word = 0 } ∷ record { blocks = 3; owner = 133; offset_word = 2 ^ 61 + 2 }
        ∷ record { blocks = 1; owner = 133; offset_word = 5 } ∷ []) }
{
    let runs = vec![in alloc; ask(2, 133, 0), ask(3, 133, UNWRITTEN + 2), ask(1, 133, 5)]?;
    Ok(Object {
        ino: 133,
        kind: ObjectKind::Data,
        runs: Records::from_vec(runs),
        most: 21,
    })
}

/// A directory, symbolic link 132, and a file.
fn of_each_kind(alloc: Global) -> Result<Vec<Object>, AllocError>
    ensures { IfOk result (λ objects. AreAsked 8 objects.items) }
{
    let directory = directory(alloc)?;
    let link = link(alloc, 132, ObjectKind::Symlink)?;
    let file = file(alloc)?;
    Ok(vec![in alloc; directory, link, file]?)
}

/// The blocks that are built for them. The file's first begins as a data block of a directory does.
const BUILT: &str = "\
0 58444433, 48 d1*4048
0 58444433, 48 d2*4048
8 3dff, 56 00a3, 64 a3*4032
0 58444633, 48 f4*4048
0 58534c4d, 56 2f*4040
0 58444433, 4 b1*4092
0 b2*4096
0 b3*4096
";

/// Where each stands, how it is sealed, where its checksum is, its owner, and what it then states.
const SEALED: &str = "\
24 data 4 131 | 8 00000000000000c0, 24 00112233445566778899aabbccddeeff, 40 0000000000000083
25 data 4 131 | 8 00000000000000c8, 24 00112233445566778899aabbccddeeff, 40 0000000000000083
26 index 12 131 | 16 00000000000000d0, 32 00112233445566778899aabbccddeeff, 48 0000000000000083
27 free 4 131 | 8 00000000000000d8, 24 00112233445566778899aabbccddeeff, 40 0000000000000083
28 link 12 132 | 16 00112233445566778899aabbccddeeff, 32 0000000000000084, 40 00000000000000e0
29 none 0 133 |
30 none 0 133 |
34 none 0 133 |
";

/// The blocks that are built.
fn built_blocks(rt: &(impl Abort + AllocGlobal), alloc: Global) -> BlockList {
    let mut bank = BlockList::make(alloc);
    for i in 0..line_count(BUILT) {
        let line = line_at(BUILT, i);
        let mut block = [0; BLOCK_SIZE];
        put_parts(rt, &mut block, line);
        must(rt, bank.push(&block));
    }
    bank
}

/// How a block is sealed.
fn kind_of(word: &str) -> Option<SealKind>
    ensures { IfSome result (λ kind. (layout_of kind).size ≡ 4096) }
{
    match word {
        "data" => Some(SealKind::DirData),
        "free" => Some(SealKind::DirFree),
        "index" => Some(SealKind::Index { magic: 0x3dff }),
        "link" => Some(SealKind::Symlink),
        _ => None,
    }
}

/// Fails where a block is not the one that was built, sealed as the words of a line say.
fn is_built(
    rt: &(impl Abort + AllocGlobal),
    held: &[u8; BLOCK_SIZE],
    built: &str,
    place: u64,
    row: &mut Row<'_>,
) {
    let kind = kind_of(row.word());
    let checksum = row.number::<usize>(rt).min(BLOCK_SIZE - 4);
    let owner = row.number(rt);
    let mut due = [0; BLOCK_SIZE];
    put_parts(rt, &mut due, built);
    put_parts(rt, &mut due, row.rest());
    if let Some(kind) = kind {
        put_part(&mut due, checksum, part(held, checksum, 4));
        is_sealed(rt, held, kind, place, owner);
    }
    compare_at(rt, held, &due, &place);
}

/// Fails where a block is not sealed for its owner at its place, or for another too.
fn is_sealed(rt: &impl Abort, held: &[u8; BLOCK_SIZE], kind: SealKind, place: u64, owner: u64)
    requires { (layout_of kind).size ≡ 4096 }
{
    let seal = Seal {
        kind,
        place: 8 * place.min(2048),
        owner: Some(owner),
        uuid: IDENTIFIER,
    };
    let others = Seal {
        owner: Some(owner ^ 1),
        ..seal
    };
    sure(rt, sealed(&seal, held), "it is sealed for its owner");
    sure(rt, !sealed(&others, held), "and for no other");
}

#[test]
fn blocks_of_each_kind(rt: HostRuntime) {
    let rt = &rt;
    let alloc = rt.alloc();
    let head = block_of(rt, &mut due_disk(rt, alloc), 0);
    let plan = plan_each(rt, alloc, &head);
    // both groups have five trees, and the chunk has eight blocks
    equal(rt, plan.fresh.as_slice().len(), 10 + 8 + 8);
    for row in plan.fresh.as_slice() {
        sure(
            rt,
            row.at < 31 || row.at > 33,
            "unwritten blocks are not planned",
        );
    }
    let mut disk = planned_disk(rt, alloc, &plan);
    for i in 0..line_count(SEALED) {
        let mut row = Row::new(line_at(SEALED, i));
        let place = row.number(rt);
        let held = block_of(rt, &mut disk, place);
        is_built(rt, &held, line_at(BUILT, i), place, &mut row);
    }
    drop(plan);
}

/// The plan of the volume with an object of each kind, whose first block is this.
#[tactic(auto, using(crate::proofs::Asked::counted))]
fn plan_each<R: Threads + Sync + Abort + AllocGlobal>(
    rt: &R,
    alloc: Global,
    head: &[u8; BLOCK_SIZE],
) -> Plan {
    let Ok(objects) = of_each_kind(alloc) else {
        refuse(rt, "memory is wanting", "objects");
    };
    let built = built_blocks(rt, alloc);
    sure(rt, built.len() == 8, "eight blocks are built");
    plan_of(rt, alloc, head, objects, built)
}
