//! Whether the log is to be blank, and of which cycle (chapter "Journaling Log").

ghost use Rattle.std.specs.Prelude.{◌≡◌, ◌++◌, ◌<◌, ◌≤◌, ◌^◌, ◌&&◌, not, IfOk, MatchOption, OnOk};
ghost use Rattle.std.specs.List.{list_all};
ghost use Rattle.std.specs.List.Sorted.{IsNonDecreasingBy};
ghost use Rattle.xfs_disk.specs.Lists.{is_among};
ghost use Rattle.xfs_geom.specs.Volumes.{volume_of};
ghost use Rattle.xfs_salvage.specs.xfs_laws.Counting.{is_behind};
ghost use Rattle.xfs_naming.specs.Naming.{NumbersAscend};
ghost use Rattle.xfs_volume.specs.declared.files.FileRec.{FileRec};
ghost use Rattle.xfs_request.specs.Cycles.{cycle_of, due_cycle, greatest_cycle, keeps_lsn, kept_lsns, keeps_log, lsn_listed};
ghost use Rattle.xfs_request.specs.Slots.{AreNumbers, is_free};

use crate::links::{is_in_use, numbers_of};
use crate::seen::{SlotSeen, is_free};
use crate::slots::is_one_of;
use std::alloc::Global;
use xfs_disk::NoMemory;
use xfs_geom::Geometry;
use xfs_log::LogState;
use xfs_salvage::{Salvaged, cluster_of, is_among};

/// No cycle of a log is this or a higher one.
const NO_CYCLE: u64 = 1 << 31;

/// The cycle of a blank log, where the log is to be one: where it is not clean, or a number that stays is above its head.
/// `lsns` are the numbers that stay.
///
/// `NoMemory` where the cycle is none that a log can have, as never on an image whose objects are sealed.
pub fn due_cycle(lsns: &[u64], log: &LogState) -> Result<Option<u32>, NoMemory>
    ensures cycle { IfOk result (λ cycle. cycle ≡ due_cycle log.now lsns.now) }
    ensures few { IfOk result (λ cycle. MatchOption cycle (Unit {0}) (λ n. (1 ≤ n) × (n < 2 ^ 31))) }
{
    if keeps_log(log, lsns) {
        return Ok(None);
    }
    let cycle = 1 + greatest_cycle(lsns);
    if cycle >= NO_CYCLE {
        return Err(NoMemory);
    }
    Ok(Some(cycle as u32))
}

/// The log sequence numbers that stay: those of slots that are neither freed nor made anew, and those in the blocks of the kept
/// files. `slots` is what is known of the slots of all clusters, and `lsns` are the numbers in these blocks.
///
/// `NoMemory` where memory is wanting.
#[tactic(auto, unfolding(crate::specs::Cycles::kept_lsns))]
pub fn kept_lsns(
    alloc: Global,
    g: &Geometry,
    kept: &Salvaged,
    slots: &[SlotSeen],
    lsns: &[u64],
) -> Result<Vec<u64>, NoMemory>
    requires files { IsNonDecreasingBy (λ (f : FileRec). f.ino) kept.now.files }
    requires clusters { NumbersAscend 0 kept.now.clusters }
    ensures { IfOk result (λ numbers. numbers.items ≡ kept_lsns (volume_of g.now) kept.now slots.now lsns.now) }
{
    let mut numbers = Vec::new(alloc);
    let used = numbers_of(alloc, kept.files.as_slice())?;
    let mut near = 0;
    for slot in slots {
        push_lsn(g, kept, used.as_slice(), &mut near, slot, &mut numbers)?;
    }
    numbers.extend_from_slice(lsns)?;
    Ok(numbers)
}

/// Adds that of a slot, where it stays.
fn push_lsn(
    g: &Geometry,
    kept: &Salvaged,
    used: &[u64],
    near: &mut usize,
    slot: &SlotSeen,
    numbers: &mut Vec<u64>,
) -> Result<(), NoMemory>
    requires used { AreNumbers kept.now.files used.now }
    requires clusters { NumbersAscend 0 kept.now.clusters }
    ensures { OnOk result (numbers.new.items ≡ numbers.old.items ++ lsn_listed (volume_of g.now) kept.now slot.now) }
{
    if keeps_lsn(g, kept, used, near, slot) {
        numbers.push(slot.lsn)?;
    }
    Ok(())
}

/// Whether a slot keeps its number. `near` is a place among the files at which its own may stand.
fn keeps_lsn(g: &Geometry, kept: &Salvaged, used: &[u64], near: &mut usize, slot: &SlotSeen) -> bool
    requires used { AreNumbers kept.now.files used.now }
    requires clusters { NumbersAscend 0 kept.now.clusters }
    ensures { result ≡ keeps_lsn (volume_of g.now) kept.now slot.now }
{
    if !is_among(kept.clusters.as_slice(), cluster_of(g, slot.ino)) {
        return false;
    }
    is_in_use(used, near, slot.ino) || stays_free(kept, slot)
}

/// Whether a slot is free and not made anew.
fn stays_free(kept: &Salvaged, slot: &SlotSeen) -> bool
    ensures { result ≡ (is_free slot.now.state && not (is_among kept.now.fresh slot.now.ino)) }
{
    is_free(slot.state) && !is_one_of(kept.fresh.as_slice(), slot.ino)
}

/// Whether the log is clean, and no number is above its head.
fn keeps_log(log: &LogState, lsns: &[u64]) -> bool
    ensures { result ≡ keeps_log log.now lsns.now }
{
    match log {
        LogState::Clean { head } => are_behind(*head, lsns),
        LogState::Dirty => false,
    }
}

/// Whether no number is above the head of a log.
fn are_behind(head: u64, lsns: &[u64]) -> bool
    ensures { result ≡ list_all (is_behind head) lsns.now }
{
    for lsn in lsns {
        if !is_behind(head, *lsn) {
            return false;
        }
    }
    true
}

/// Whether a number is all ones, or not above the head of a log.
fn is_behind(head: u64, lsn: u64) -> bool
    ensures { result ≡ is_behind head lsn }
{
    lsn == u64::MAX || lsn <= head
}

/// The greatest cycle of some numbers.
fn greatest_cycle(lsns: &[u64]) -> u64
    ensures value { result ≡ greatest_cycle lsns.now }
    ensures few { result < 2 ^ 32 }
{
    let mut greatest = 0;
    for lsn in lsns {
        let cycle = cycle_of(*lsn);
        if cycle > greatest {
            greatest = cycle;
        }
    }
    greatest
}

/// The cycle of a number.
fn cycle_of(lsn: u64) -> u64
    ensures value { result ≡ cycle_of lsn }
    ensures few { result < 2 ^ 32 }
{
    if lsn == u64::MAX {
        return 0;
    }
    lsn >> 32
}
