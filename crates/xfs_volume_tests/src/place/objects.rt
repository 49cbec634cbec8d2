//! Objects, and what they leave to the trees.

ghost use Rattle.std.specs.Prelude.{◌≡◌, ◌≤◌, ◌<◌, ◌+◌, ◌*◌, ◌^◌, All, IfOk};
ghost use Rattle.xfs_geom.specs.Shape.{IsShaped};
ghost use Rattle.xfs_place.specs.Objects.{IsAsk};

use super::groups::{SMALLEST, Size, file, place_beside, place_small};
use super::*;
use crate::checks::{compare_at, equal, must, sure};
use crate::text::{line_at, refuse, tells};

/// An object that asks for runs of these lengths, and may take so many.
pub fn object(
    alloc: Global,
    ino: u64,
    kind: ObjectKind,
    lengths: &[u32],
    most: u32,
) -> Result<Object, AllocError>
    requires { All (λ blocks. 1 ≤ blocks) lengths.now }
    ensures asks { IfOk result (λ object. All IsAsk object.runs) }
{
    let mut runs = Vec::new(alloc);
    for blocks in lengths {
        runs.push(RunAsk {
            blocks: *blocks,
            owner: ino,
            offset_word: 0,
        })?;
    }
    Ok(Object {
        ino,
        kind,
        runs: Records::from_vec(runs),
        most,
    })
}

/// The only object of a volume.
pub fn one_object(
    rt: &impl Abort,
    alloc: Global,
    ino: u64,
    kind: ObjectKind,
    lengths: &[u32],
    most: u32,
) -> Vec<Object>
    requires { All (λ blocks. 1 ≤ blocks) lengths.now }
    ensures { All (λ object. All IsAsk object.runs) result.items }
{
    let Ok(only) = object(alloc, ino, kind, lengths, most) else {
        refuse(rt, "memory is wanting", "an object");
    };
    let Ok(objects) = vec![in alloc; only] else {
        refuse(rt, "memory is wanting", "an object");
    };
    objects
}

/// A directory of three blocks in two runs, a symbolic link, and data in three runs of which the last is so long.
fn three_objects(alloc: Global, last: u32) -> Result<Vec<Object>, AllocError>
    requires { 1 ≤ last }
    ensures { IfOk result (λ objects. All (λ object. All IsAsk object.runs) objects.items) }
{
    let directory = object(alloc, 131, ObjectKind::Directory, &[2, 1], 2)?;
    let link = object(alloc, 132, ObjectKind::Symlink, &[1], 1)?;
    let data = object(alloc, 133, ObjectKind::Data, &[6, 990, last], 3)?;
    Ok(vec![in alloc; directory, link, data]?)
}

/// The start, the blocks and the owner of each run.
const RUNS: &str = "\
(1, 2, 131)
(3, 1, 131)
(4, 1, 132)
(5, 6, 133)
(26, 990, 133)
(1542, 500, 133)
";

/// The free lists of both groups.
const LISTS: &str = "\
[24, 1016, 1017, 1018, 1019, 1020]
[1018, 1019, 1020, 1021, 1022, 1023]
";

#[test]
fn objects_before_trees(rt: HostRuntime) {
    let rt = &rt;
    let placed = must(rt, place_three(rt, rt.alloc(), 500));
    let runs = placed.runs.as_slice();
    equal(rt, runs.len(), 6);
    for (i, run) in runs.iter().enumerate() {
        tells(
            rt,
            &(run.start, run.count, run.owner),
            line_at(RUNS, i),
            "a run",
        );
    }
    let groups = placed.groups.as_slice();
    equal(rt, groups.len(), 2);
    for (i, group) in groups.iter().enumerate() {
        tells(rt, &group.agfl.as_slice(), line_at(LISTS, i), "a free list");
    }
    drop(placed);
}

/// The three objects, placed beside block 25.
fn place_three(rt: &impl Abort, alloc: Global, last: u32) -> Result<Placed, PlaceFault>
    requires { 1 ≤ last }
{
    let Ok(objects) = three_objects(alloc, last) else {
        refuse(rt, "memory is wanting", "three objects");
    };
    let reserved = must(rt, vec![in alloc; 25]);
    place_small(alloc, reserved, objects, 1)
}

#[test]
fn objects_without_room(rt: HostRuntime) {
    let rt = &rt;
    let alloc = rt.alloc();
    let found = place_three(rt, alloc, 507);
    sure(
        rt,
        matches!(found, Err(PlaceFault::NoRoom(Unplaced::File(133)))),
        "a file",
    );
    drop(found);
    let objects = one_object(rt, alloc, 131, ObjectKind::Directory, &[1, 1000], 2);
    let found = place_small(alloc, Vec::new(alloc), objects, 25);
    sure(
        rt,
        matches!(found, Err(PlaceFault::NoRoom(Unplaced::Directory(131)))),
        "a directory",
    );
    drop(found);
}

/// Two groups of 409,600 blocks.
const LARGE: Size = Size {
    dblocks: 819_200,
    agblocks: 409_600,
    agcount: 2,
    agblklog: 19,
    log: 409_606,
};

/// The blocks of the five trees of the first group where it has so many runs of free blocks: from AG block `from` on
/// every second block is reserved, those between are an object's, and what is behind is a file's.
fn trees_beside(
    alloc: Global,
    size: &Size,
    runs: u32,
    from: u32,
) -> Result<Option<[usize; 5]>, PlaceFault>
    requires shape { IsShaped size.now.dblocks size.now.agblocks size.now.agcount size.now.agblklog size.now.log 512 128 0 }
    requires front { 1 ≤ from }
    requires end { from + 2 * runs < size.now.agblocks }
    requires inside { size.now.agblocks ≤ size.now.dblocks }
    requires log { size.now.agblocks ≤ size.now.log }
{
    let mut reserved = Vec::new(alloc);
    for i in 0..runs {
        reserved.push((from + 2 * i) as u64)?;
    }
    let ones = vec![in alloc; 1; runs as usize]?;
    let data = object(alloc, 133, ObjectKind::Data, &ones, runs)?;
    let objects = vec![in alloc; data]?;
    let end = from + 2 * runs;
    let rest = file(end as u64, (size.agblocks - end) as u64);
    let placed = place_beside(alloc, size, rest, reserved, objects, from)?;
    Ok(tree_blocks(&placed, runs as usize))
}

/// The blocks of the five trees of the first group, where it has so many runs of free blocks, and a free list of six.
fn tree_blocks(placed: &Placed, runs: usize) -> Option<[usize; 5]> {
    let group = placed.groups.as_slice().first()?;
    let mut blocks = [0; 5];
    for (tree, count) in group.trees.as_slice().iter().zip(&mut blocks) {
        *count = tree.blocks.as_slice().len();
    }
    let as_wanted = group.bno.as_slice().len() == runs && group.agfl.as_slice().len() == 6;
    if as_wanted { Some(blocks) } else { None }
}

#[test]
fn many_free_runs(rt: HostRuntime) {
    let rt = &rt;
    let alloc = rt.alloc();
    for runs in [335, 336, 337] {
        let blocks = must(rt, trees_beside(alloc, &SMALLEST, runs.min(400), 100));
        compare_at(rt, &blocks, &Some([1, 1, 1, 1, 4]), &runs);
    }
    let blocks = must(rt, trees_beside(alloc, &LARGE, 200_000, 3000));
    equal(rt, blocks, Some([400, 400, 1, 1, 1206]));
}
