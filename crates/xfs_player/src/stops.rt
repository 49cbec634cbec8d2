//! A call that stops after some of its writes, after more of them, and so on.

use crate::calls::{Call, Surroundings};
use crate::disk::{CaseDisk, block_of};
use crate::refusal::Refusal;
use std::alloc::Global;
use std::mem;
use std::thread::Threads;
use xfs_disk::BLOCK_SIZE;

/// How many blocks a call writes, and after how many a stop left first what it must not leave.
#[derive(Drop)]
pub struct Stops {
    pub writes: u64,
    pub wrong: Option<u64>,
}

/// The blocks that a disk holds otherwise than another one.
#[derive(Clone, Copy)]
struct Changes {
    /// How many they are.
    count: u64,
    /// Whether block 0 is one of them.
    begins: bool,
    /// The lowest and the highest of the others.
    ends: Option<(usize, usize)>,
}

/// Makes a call on copies of a disk. One goes on to its end, the others stop after `step` writes, after twice as many, and so on. Each
/// is to hold just `step` blocks more of what the whole call leaves than the one before it, in ascending order, but block 0 last, and all
/// others as they were; and its answer is to tell how many blocks were written. A block that is written as it was is not seen: the
/// disk is to hold other bytes where the call writes (`filled`).
pub fn stop_by_steps(
    rt: &(impl Threads + Sync),
    alloc: Global,
    disk: &CaseDisk,
    step: u64,
    words: &str,
    given: &Surroundings,
) -> Result<Stops, Refusal> {
    let mut whole = disk.copy(alloc)?;
    let stops = stop_in_turn(rt, alloc, disk, step, words, given, &mut whole);
    drop(whole);
    stops
}

/// The same, on a copy for the whole call.
fn stop_in_turn(
    rt: &(impl Threads + Sync),
    alloc: Global,
    disk: &CaseDisk,
    step: u64,
    words: &str,
    given: &Surroundings,
    whole: &mut CaseDisk,
) -> Result<Stops, Refusal> {
    drop(Call::make(rt, alloc, whole, words, given)?);
    let mut last = StoppedDisk {
        disk: disk.copy(alloc)?,
        place: 0,
        done: 0,
    };
    let stops = stop_all(rt, alloc, disk, step, words, given, whole, &mut last);
    drop(last);
    stops
}

/// The same, where no call was stopped so far.
fn stop_all(
    rt: &(impl Threads + Sync),
    alloc: Global,
    disk: &CaseDisk,
    step: u64,
    words: &str,
    given: &Surroundings,
    whole: &CaseDisk,
    last: &mut StoppedDisk,
) -> Result<Stops, Refusal> {
    let writes = whole.writes();
    for _ in 0..writes {
        if last.done >= writes {
            break;
        }
        let written = writes.min(last.done.saturating_add(step));
        if !stop_once(rt, alloc, disk, written, words, given, whole, last)? {
            return Ok(Stops {
                writes,
                wrong: Some(written),
            });
        }
    }
    Ok(Stops {
        writes,
        wrong: wrong_at_end(&last.disk, whole),
    })
}

/// A copy of a disk on which a call stopped, the highest block that was written so far, and how many were.
#[derive(Drop)]
struct StoppedDisk {
    disk: CaseDisk,
    place: usize,
    done: u64,
}

/// Makes the call on a copy that stops after so many writes, and keeps that; no, where it leaves or tells what it must not.
fn stop_once(
    rt: &(impl Threads + Sync),
    alloc: Global,
    disk: &CaseDisk,
    written: u64,
    words: &str,
    given: &Surroundings,
    whole: &CaseDisk,
    last: &mut StoppedDisk,
) -> Result<bool, Refusal> {
    let mut stopped = disk.copy(alloc)?;
    stopped.stop_after(written);
    match stop_copy(rt, alloc, &mut stopped, written, words, given, whole, last) {
        Ok(Some(place)) => {
            last.place = place;
            last.done = written;
            drop(mem::replace(&mut last.disk, stopped));
            Ok(true)
        }
        Ok(None) => {
            drop(stopped);
            Ok(false)
        }
        Err(refusal) => {
            drop(stopped);
            Err(refusal)
        }
    }
}

/// Makes the call on a copy, and says which block is the highest that was written then; `None` where it leaves or tells what it must not.
fn stop_copy(
    rt: &(impl Threads + Sync),
    alloc: Global,
    stopped: &mut CaseDisk,
    written: u64,
    words: &str,
    given: &Surroundings,
    whole: &CaseDisk,
    last: &StoppedDisk,
) -> Result<Option<usize>, Refusal> {
    if !tells_stop(rt, alloc, stopped, written, words, given)? {
        return Ok(None);
    }
    let at_end = written == whole.writes();
    let count = written.saturating_sub(last.done);
    match changes_between(last.disk.image(), stopped.image(), whole.image()) {
        Some(changes) => Ok(changes.next_place(count, last.place, at_end)),
        None => Ok(None),
    }
}

/// Makes the call, and says whether it tells so many written blocks.
fn tells_stop(
    rt: &(impl Threads + Sync),
    alloc: Global,
    stopped: &mut CaseDisk,
    written: u64,
    words: &str,
    given: &Surroundings,
) -> Result<bool, Refusal> {
    match Call::make(rt, alloc, stopped, words, given) {
        Ok(call) => {
            let told = call.tells_fault(alloc, written);
            drop(call);
            told
        }
        Err(refusal) => Err(refusal),
    }
}

/// The number of writes, where all of them did not leave what the whole call does.
fn wrong_at_end(last: &CaseDisk, whole: &CaseDisk) -> Option<u64> {
    if last.image() == whole.image() {
        None
    } else {
        Some(whole.writes())
    }
}

impl Changes {
    /// The highest of the blocks so far, where so many changed, and come behind a block, and block 0 in the end alone.
    fn next_place(&self, count: u64, place: usize, at_end: bool) -> Option<usize> {
        if self.count == count && (at_end || !self.begins) {
            self.highest(place)
        } else {
            None
        }
    }

    /// The highest of the blocks so far, where they come behind a block.
    fn highest(&self, place: usize) -> Option<usize> {
        match self.ends {
            Some((lowest, highest)) => { if place < lowest { Some(highest) } else { None } }
            None => Some(place),
        }
    }
}

/// The blocks that are not as they were before; `None` where one of them is not as it is to be in the end.
fn changes_between(before: &[u8], now: &[u8], whole: &[u8]) -> Option<Changes> {
    let mut changes = Changes {
        count: 0,
        begins: false,
        ends: None,
    };
    for i in 0..now.len() / BLOCK_SIZE {
        let new = block_of(now, i);
        if new != block_of(before, i) {
            if new != block_of(whole, i) {
                return None;
            }
            changes = with_block(changes, i);
        }
    }
    Some(changes)
}

/// The changes with one more block, behind the others.
fn with_block(changes: Changes, block: usize) -> Changes {
    let ends = match changes.ends {
        _ if block == 0 => changes.ends,
        Some((lowest, _)) => Some((lowest, block)),
        None => Some((block, block)),
    };
    Changes {
        count: changes.count.saturating_add(1),
        begins: changes.begins || block == 0,
        ends,
    }
}
