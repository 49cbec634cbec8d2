//! A group from its parts.

ghost use Rattle.std.specs.Prelude.{◌≡◌, ℕ, List, Result, Ok, IfOk};
ghost use Rattle.xfs_heads.specs.declared.free_list.Agfl.{Agfl};
ghost use Rattle.xfs_heads.specs.declared.free_space.Agf.{Agf};
ghost use Rattle.xfs_heads.specs.declared.inodes.Agi.{Agi};
ghost use Rattle.xfs_image.specs.Groups.{group_record};
ghost use Rattle.xfs_groups.specs.Private.Parts.{first_lacking, group_with, unless_there};

use crate::heads::Heads;
use crate::trees::{TreeSeen, Trees};
use std::alloc::Global;
use xfs_disk::NoMemory;
use xfs_geom::{InoRec, RmapRec, Span};
use xfs_heads::{Agf, Agfl, Agi};
use xfs_image::Finding;
use xfs_volume::{GroupRec, Records};

/// A group whose headers and trees are these, or the first of its eight parts that is not there.
pub(crate) fn group_with(
    alloc: Global,
    ag: u32,
    heads: &Heads,
    trees: Trees,
) -> Result<Result<GroupRec, Finding>, NoMemory>
    ensures { IfOk result (λ group. group ≡ group_with ag heads.now trees) }
{
    let part = first_lacking(heads, &trees);
    if part != 0 {
        return Ok(Err(lacking(part, ag)));
    }
    match whole_group(alloc, heads, trees) {
        Ok(group) => Ok(Ok(group)),
        Err(NoMemory) => Err(NoMemory),
    }
}

/// The first of the eight parts of a group that is not there, or 0.
fn first_lacking(heads: &Heads, trees: &Trees) -> u8
    ensures { result ≡ first_lacking heads.now trees.now }
{
    let rmap = unless_there(&trees.rmap, 8, 0);
    let fino = unless_there(&trees.fino, 7, rmap);
    let ino = unless_there(&trees.ino, 6, fino);
    let cnt = unless_there(&trees.cnt, 5, ino);
    let bno = unless_there(&trees.bno, 4, cnt);
    let agfl = unless_there(&heads.agfl, 3, bno);
    let agi = unless_there(&heads.agi, 2, agfl);
    unless_there(&heads.agf, 1, agi)
}

/// The number of a part that is not there, or else that of a later one.
fn unless_there<A>(part: &Option<A>, number: u8, later: u8) -> u8
    ensures { result ≡ unless_there part.now number later }
{
    match part {
        None => number,
        Some(_) => later,
    }
}

/// A group of which no part is lacking.
fn whole_group(alloc: Global, heads: &Heads, trees: Trees) -> Result<GroupRec, NoMemory>
    requires { first_lacking heads.now trees ≡ 0 }
    ensures { IfOk result (λ group. (ag : ℕ) → Ok group ≡ group_with ag heads.now trees) }
{
    let Trees {
        bno,
        cnt,
        ino,
        fino,
        rmap,
    } = trees;
    let agf = heads.agf.unwrap();
    let agi = heads.agi.unwrap();
    let agfl = heads.agfl.unwrap();
    let bno = bno.unwrap();
    let cnt = cnt.unwrap();
    let ino = ino.unwrap();
    let fino = fino.unwrap();
    let rmap = rmap.unwrap();
    match group_of(alloc, &agf, &agi, &agfl, bno, cnt, ino, fino, rmap) {
        Ok(group) => Ok(group),
        Err(NoMemory) => Err(NoMemory),
    }
}

/// A group with these headers and trees.
fn group_of(
    alloc: Global,
    agf: &Agf,
    agi: &Agi,
    agfl: &Agfl,
    bno: TreeSeen<Span>,
    cnt: TreeSeen<Span>,
    ino: TreeSeen<InoRec>,
    fino: TreeSeen<InoRec>,
    rmap: TreeSeen<RmapRec>,
) -> Result<GroupRec, NoMemory>
    ensures { IfOk result (λ group. group ≡ group_record agf.now agi.now agfl.now bno cnt ino fino rmap) }
{
    let (bno, bno_blocks) = bno.into_parts();
    let (cnt, cnt_blocks) = cnt.into_parts();
    let (ino, ino_blocks) = ino.into_parts();
    let (fino, fino_blocks) = fino.into_parts();
    let (rmap, rmap_blocks) = rmap.into_parts();
    let blocks = vec![in alloc;
        bno_blocks,
        cnt_blocks,
        ino_blocks,
        fino_blocks,
        rmap_blocks,
    ]?;
    Ok(GroupRec {
        agf: *agf,
        agi: *agi,
        agfl: *agfl,
        bno,
        cnt,
        ino,
        fino,
        rmap,
        blocks: Records::from_vec(blocks),
    })
}

/// The finding that a part of a group does not read.
fn lacking(part: u8, ag: u32) -> Finding
    ensures { result ≡ Finding.Part part ag }
{
    Finding::Part {
        part,
        place: ag as u64,
    }
}
