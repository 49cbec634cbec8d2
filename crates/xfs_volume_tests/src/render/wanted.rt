//! What is wanted of a small volume with objects, and its plan.

ghost use Rattle.std.specs.Prelude.{◌≡◌, length, IfOk};
ghost use Rattle.xfs_geom.specs.Volumes.{stated_volume, volume_of};
ghost use Rattle.xfs_geom.specs.Writing.{IsAcceptedSector};
ghost use Rattle.xfs_empty.specs.Geometry.{HasFirstChunk};
ghost use Rattle.xfs_volume_tests.specs.Rendered.{AreAsked, AreSmallBytes, AreSmallInodes, IsSmall, small_chunks};

use super::slots::list_slots;
use crate::checks::must;
use crate::text::refuse;
use std::alloc::{AllocError, Global};
use std::marker::Sync;
use std::process::Abort;
use std::thread::Threads;
use xfs_collections::BlockList;
use xfs_disk::{BLOCK_SIZE, NoGate, NoMemory, Stamp};
use xfs_empty::{empty_bytes, empty_wanted};
use xfs_geom::{Geometry, InoRec, read_super};
use xfs_place::{GroupInodes, Object, Wanted, place};
use xfs_render::{Bytes, Plan, chunks_are_few, placed_is_ready, render};
use xfs_volume::Records;
use xfs_word::part;

/// The plan of a volume with objects, whose first block has its superblock, made of the blocks that were built for them.
pub fn plan_of<R: Threads + Sync + Abort>(
    rt: &R,
    alloc: Global,
    head: &[u8; BLOCK_SIZE],
    objects: Vec<Object>,
    built: BlockList,
) -> Plan
    requires { AreAsked (length built) objects.items }
{
    let mut sector = [0; 512];
    sector.copy_from_slice(part(head, 0, 512));
    let g = volume_in(rt, &sector);
    let Ok(wanted) = wanted_of(alloc, &g, objects) else {
        refuse(rt, "memory is wanting", "what is wanted");
    };
    let stamp = Stamp {
        seconds: 0,
        nanos: 0,
        generation: 0,
        uuid: g.uuid,
    };
    let Ok(bytes) = bytes_of(alloc, &g, &sector, &stamp, built) else {
        refuse(rt, "memory is wanting", "bytes");
    };
    chunks_are_few(&wanted);
    let Ok(placed) = place(alloc, &wanted) else {
        refuse(rt, "it is not placed", "what is wanted");
    };
    placed_is_ready(&wanted, &placed, &bytes);
    let plan = must(rt, render(rt, alloc, &wanted, &placed, &bytes, 1, &NoGate));
    drop((placed, bytes, wanted));
    plan
}

/// The volume that a superblock states, whose root stands in the first chunk.
#[tactic(auto, using(crate::proofs::Rendered::accepted_at))]
fn volume_in(rt: &impl Abort, sector: &[u8; 512]) -> Geometry
    ensures accepted { IsAcceptedSector sector.now }
    ensures states { stated_volume sector.now ≡ volume_of result }
    ensures first { HasFirstChunk (volume_of result) }
{
    let Ok(g) = read_super(sector, 0, 2048) else {
        refuse(rt, "no superblock", "")
    };
    if g.rootino != 128 || g.log < 24 {
        refuse(rt, "the root stands elsewhere", "");
    }
    g
}

/// What is wanted of a volume with objects.
fn wanted_of(alloc: Global, g: &Geometry, objects: Vec<Object>) -> Result<Wanted, NoMemory>
    ensures { IfOk result (λ w. IsSmall g.now objects.items w) }
{
    let empty = empty_wanted(alloc, g)?;
    let inodes = list_inodes(alloc, g.agcount)?;
    Ok(with_objects(empty, objects, inodes))
}

/// What is wanted with other objects and records of inodes.
fn with_objects(mut wanted: Wanted, objects: Vec<Object>, inodes: Vec<GroupInodes>) -> Wanted
    ensures { result ≡ record wanted { objects = objects.items; inodes = inodes.items } }
{
    wanted.objects = Records::from_vec(objects);
    wanted.inodes = Records::from_vec(inodes);
    wanted
}

/// The records of inodes of so many groups.
fn list_inodes(alloc: Global, groups: u32) -> Result<Vec<GroupInodes>, AllocError>
    ensures { IfOk result (λ all. AreSmallInodes groups all.items) }
{
    let mut all = Vec::new(alloc);
    for ag in 0..groups {
        all.push(GroupInodes {
            records: Records::from_vec(list_records(alloc, ag)?),
        })?;
    }
    Ok(all)
}

/// The records of inodes of a group.
fn list_records(alloc: Global, ag: u32) -> Result<Vec<InoRec>, AllocError>
    ensures { IfOk result (λ records. records.items ≡ small_chunks ag) }
{
    let mut records = Vec::new(alloc);
    if ag == 0 {
        records.push(InoRec {
            startino: 128,
            holemask: 0,
            count: 64,
            freecount: 59,
            free: 0xffff_ffff_ffff_ffe0,
        })?;
    }
    Ok(records)
}

/// What its blocks are made of.
fn bytes_of(
    alloc: Global,
    g: &Geometry,
    sector: &[u8; 512],
    stamp: &Stamp,
    built: BlockList,
) -> Result<Bytes, NoMemory>
    ensures { IfOk result (λ b. AreSmallBytes g.now sector.now stamp.now built b) }
{
    let mut bytes = empty_bytes(alloc, g, sector, stamp)?;
    bytes.objects = built;
    bytes.slots = Records::from_vec(list_slots(alloc, g)?);
    Ok(bytes)
}
