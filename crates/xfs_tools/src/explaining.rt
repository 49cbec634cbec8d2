//! `xfs_repair -v`: what was found, in words.

ghost use Rattle.std.specs.Prelude.{◌≡◌, ◌≤◌, length, IfOk};
ghost use Rattle.std.specs.Option.{ForSome};
ghost use Rattle.xfs_disk.specs.Blocks.{bytes_of_block};
ghost use Rattle.xfs_disk.specs.Faults.{HasCause};
ghost use Rattle.xfs_disk.specs.Reads.{OnlyReads};
ghost use Rattle.xfs_geom.specs.Election.{super_of};
ghost use Rattle.xfs_texts.specs.Explaining.{explanation_text};
ghost use Rattle.xfs_tools.specs.Explaining.{IsToldBehindText, IsGroups, IsLook, IsToldBehind, checking, explained, finding_in, groups_in, told_of};

use crate::answer::Answer;
use crate::command_line::RepairWords;
use crate::texts::tell;
use std::alloc::Global;
use std::thread::Threads;
use xfs_disk::{BLOCK_SIZE, Disk, Failed, Gate, Sink, Stamp};
use xfs_geom::read_super;
use xfs_image::Finding;
use xfs_mend::{Outcome, RepairOptions, repair};
use xfs_texts::put_explanation;

/// The bytes of a superblock.
const SECTOR_SIZE: usize = 512;

/// What is known of a volume before it is repaired, where that is to be told in words.
#[derive(Clone, Copy)]
pub(crate) struct Look {
    /// The groups that the primary superblock states, where it was read.
    pub(crate) groups: Option<u32>,
    /// What a check found, where the volume is not only checked.
    pub(crate) found: Option<Finding>,
}

/// Looks at a volume, where what is found is to be told in words. The disk is only read.
pub(crate) fn look_before<R: Threads + Sync, D: Disk, G: Gate>(
    rt: &R,
    alloc: Global,
    words: &RepairWords,
    disk: &mut D,
    stamp: &Stamp,
    gate: &G,
) -> Look
    ensures { IsLook D.holds D.size D.faults D.write_faults D.writes D.tells_stops D.moment D.may_leave D.left_since stamp.now words.now disk.old disk.new result }
{
    if !words.verbose {
        return Look {
            groups: None,
            found: None,
        };
    }
    let groups = stated_groups(disk);
    if words.check {
        return Look {
            groups,
            found: None,
        };
    }
    let outcome = repair(rt, alloc, disk, &checking(words), stamp, gate);
    Look {
        groups,
        found: finding_in(outcome),
    }
}

/// What a check is asked for in the place of a repair.
fn checking(words: &RepairWords) -> RepairOptions
    ensures { result ≡ checking words.now }
{
    RepairOptions {
        check: true,
        ..words.options()
    }
}

/// What was found, by the outcome of a check.
fn finding_in(outcome: Outcome) -> Option<Finding>
    ensures { result ≡ finding_in outcome }
{
    match outcome {
        Outcome::Damaged(finding) => Some(finding),
        _ => None,
    }
}

/// The groups that the primary superblock states, where it was read and is accepted.
fn stated_groups<D: Disk>(disk: &mut D) -> Option<u32>
    ensures groups { IsGroups D.holds D.size D.faults disk.old disk.new result }
    ensures disk { OnlyReads D.size D.holds D.write_faults D.writes D.tells_stops D.moment D.may_leave D.left_since disk.old disk.new }
    ensures faults { D.faults disk.old ≤ D.faults disk.new }
{
    match read_groups(disk) {
        Ok(groups) => groups,
        Err(Failed) => None,
    }
}

/// Reads the primary superblock, and gives the groups that it states where it is accepted.
fn read_groups<D: Disk>(disk: &mut D) -> Result<Option<u32>, Failed>
    ensures groups { IfOk result (λ groups. ForSome (D.holds disk.old) (λ image. 1 ≤ D.size disk.old → groups ≡ groups_in (super_of (bytes_of_block image 0)) (D.size disk.old))) }
    ensures disk { OnlyReads D.size D.holds D.write_faults D.writes D.tells_stops D.moment D.may_leave D.left_since disk.old disk.new }
    ensures cause { HasCause (D.faults disk.old) (D.faults disk.new) result }
{
    let size = match disk.blocks() {
        Ok(size) => size,
        Err(Failed) => return Err(Failed),
    };
    if size == 0 {
        return Ok(None);
    }
    let mut block = [0; BLOCK_SIZE];
    match disk.read(0, &mut block) {
        Ok(()) => {}
        Err(Failed) => return Err(Failed),
    }
    Ok(groups_in(&block, size))
}

/// The groups that the superblock of a block states, where it is accepted as the primary of so many blocks.
fn groups_in(block: &[u8], size: u64) -> Option<u32>
    requires { length block.now ≡ 4096 }
    ensures { result ≡ groups_in (super_of block.now) size }
{
    match read_super(block.split_at(SECTOR_SIZE).0, 0, size) {
        Ok(geometry) => Some(geometry.agcount),
        Err(_) => None,
    }
}

/// What is to be told in words: what was found, where damage is told, a repair was made, or one was due.
pub(crate) fn told_of(verbose: bool, looked: Option<Finding>, answer: Answer) -> Option<Finding>
    ensures { result ≡ told_of verbose looked answer }
{
    if !verbose {
        return None;
    }
    match answer {
        Answer::Damaged(finding) => Some(finding),
        Answer::Repaired(_) | Answer::NoRoom(_) => looked,
        _ => None,
    }
}

/// Puts what was found in words to `err`, where it is to be told, and then the answer's line to its stream.
pub(crate) fn tell_found<O: Sink, E: Sink>(
    out: &mut O,
    err: &mut E,
    groups: Option<u32>,
    found: Option<Finding>,
    answer: Answer,
) -> Result<(), Failed>
    ensures { IsToldBehind O.took O.faults E.took E.faults out.old out.new err.old err.new (explained groups found) answer result }
{
    match found {
        Some(finding) => tell_behind(out, err, groups, &finding, answer),
        None => tell(out, err, answer),
    }
}

/// Puts what was found in words to `err`, and then the answer's line to its stream.
fn tell_behind<O: Sink, E: Sink>(
    out: &mut O,
    err: &mut E,
    groups: Option<u32>,
    finding: &Finding,
    answer: Answer,
) -> Result<(), Failed>
    ensures { IsToldBehindText O.took O.faults E.took E.faults out.old out.new err.old err.new (explanation_text groups finding.now) answer result }
{
    match put_explanation(err, groups, finding) {
        Ok(()) => {}
        Err(Failed) => return Err(Failed),
    }
    tell(out, err, answer)
}
