//! The headers of an allocation group that are due (chapter "Allocation Groups").

ghost use Rattle.std.specs.Prelude.{◌≡◌, ◌<◌, length};
ghost use Rattle.xfs_geom.specs.Volumes.{volume_of};
ghost use Rattle.xfs_heads.specs.FreeList.{unused};
ghost use Rattle.xfs_render.specs.Groups.{IsSoundGroup, due_agf, due_agi, last_entry, root_in, tree_places};

use crate::counters::{levels, newest};
use xfs_geom::{Geometry, InoRec, free_blocks, free_slots, longest, slots};
use xfs_heads::{Agf, Agi};
use xfs_place::GroupPlaced;

/// The blocks of one of the five trees of a group.
pub fn tree_places(placed: &GroupPlaced, tree: usize) -> &[u64]
    requires { tree < length placed.now.trees }
    ensures { result.now ≡ tree_places placed.now tree }
{
    placed.trees.as_slice()[tree].blocks.as_slice()
}

/// The header of free space, apart from its checksum.
pub fn due_agf(g: &Geometry, ag: u32, inodes: &[InoRec], placed: &GroupPlaced) -> Agf
    requires group { ag < g.now.agcount }
    requires sound { IsSoundGroup (volume_of g.now) ag inodes.now placed.now }
    ensures { result ≡ due_agf (volume_of g.now) ag placed.now }
{
    let bno = tree_places(placed, 0).len();
    let cnt = tree_places(placed, 1).len();
    let rmap = tree_places(placed, 4).len();
    let length = g.group_length(ag);
    let listed = placed.agfl.as_slice().len() as u32;
    let free = free_blocks(placed.bno.as_slice()) as u32;
    Agf {
        magicnum: 0x5841_4746,
        versionnum: 1,
        seqno: ag,
        length,
        bnoroot: root_in(g, placed, 0),
        cntroot: root_in(g, placed, 1),
        rmaproot: root_in(g, placed, 4),
        bnolevel: levels(505, 336, placed.bno.as_slice().len()),
        cntlevel: levels(505, 336, placed.cnt.as_slice().len()),
        rmaplevel: levels(168, 91, placed.rmap.as_slice().len()),
        flfirst: 0,
        fllast: last_entry(listed),
        flcount: listed,
        freeblks: free,
        longest: longest(placed.bno.as_slice()),
        btreeblks: (bno + cnt + rmap - 3) as u32,
        uuid: g.uuid,
        rmapblocks: rmap as u32,
        lsn: 0,
        crc: 0,
    }
}

/// The AG block of the root of a tree, which stands last.
fn root_in(g: &Geometry, placed: &GroupPlaced, tree: usize) -> u32
    requires tree { tree < length placed.now.trees }
    requires some { 0 < length (tree_places placed.now tree) }
    ensures { result ≡ root_in (volume_of g.now) placed.now tree }
{
    let places = tree_places(placed, tree);
    (places[places.len() - 1] % g.agblocks as u64) as u32
}

/// The last active entry of a free list that begins at entry 0.
fn last_entry(count: u32) -> u32
    ensures { result ≡ last_entry count }
{
    if count == 0 { 118 } else { count - 1 }
}

/// The header of inodes, apart from its checksum.
pub fn due_agi(g: &Geometry, ag: u32, inodes: &[InoRec], placed: &GroupPlaced) -> Agi
    requires group { ag < g.now.agcount }
    requires sound { IsSoundGroup (volume_of g.now) ag inodes.now placed.now }
    ensures { result ≡ due_agi (volume_of g.now) ag inodes.now placed.now }
{
    let count = slots(inodes) as u32;
    let free = free_slots(inodes) as u32;
    Agi {
        magicnum: 0x5841_4749,
        versionnum: 1,
        seqno: ag,
        length: g.group_length(ag),
        count,
        root: root_in(g, placed, 2),
        level: levels(252, 505, inodes.len()),
        freecount: free,
        newino: newest(inodes),
        dirino: u32::MAX,
        unlinked: no_unlinked(),
        uuid: g.uuid,
        crc: 0,
        lsn: 0,
        free_root: root_in(g, placed, 3),
        free_level: levels(252, 505, placed.fino.as_slice().len()),
    }
}

/// The heads of 64 chains without an inode.
#[tactic(auto, unfolding(xfs_heads::specs::FreeList::unused))]
fn no_unlinked() -> [u32; 64]
    ensures { result ≡ unused 64 }
{
    [u32::MAX; 64]
}
