//! Whether a log is clean: nothing stands in it that would have to be replayed.

ghost use Rattle.std.specs.Prelude.{◌≡◌, ◌||◌, ◌==◌, ℕ, ◌+◌, ◌*◌, ◌^◌, ◌<◌, ◌≤◌, ◌↔◌, ◌-◌, drop, length, IfSome};
ghost use Rattle.std.specs.List.{list_all, prefix_len};
ghost use Rattle.xfs_log.specs.Log.{is_unwritten_sector, is_of_cycle, first_cycle, last_header, nearest_header, is_unmount, ends_at, ends_in_unmount, is_unmounted, all_sectors, sector_at, has_unmount_flag, has_cleared_cycles, is_cleared, is_record, head_number, state_of, IsHead, IsAlone};
ghost use Rattle.xfs_log.specs.BlankLog.{blank_log};
ghost use Rattle.xfs_heads.specs.declared.log_state.LogState.TheVariants.{Clean};

use crate::sectors::SectorSeen;
use xfs_heads::LogState;

/// The sectors that the tools of XFS write at once when they clear a log.
const CLEARED: usize = 512;

/// Whether the log of so many `sectors` is clean, in a bounded number of passes. These were seen of it, and those behind them are zeros;
/// each of the first 512 is listed. The log is clean in three cases: it was never written; an unmount record ends at the sector at which
/// the cycle changes; or the tools of XFS cleared it, and such a record stands at its start.
pub fn log_state(seen: &[SectorSeen], sectors: usize) -> LogState
    requires inside { length seen.now ≤ sectors }
    requires listed { length seen.now < 512 → length seen.now ≡ sectors }
    ensures state { result ≡ state_of (all_sectors seen.now sectors) }
    ensures clean { (head : ℕ) → (result ≡ Clean head) ↔ IsHead (all_sectors seen.now sectors) head }
    ensures alone { IsAlone (all_sectors seen.now sectors) }
    ensures blank { (cycle count : ℕ) → 1 ≤ cycle → cycle < 2 ^ 31 → 3 ≤ count → all_sectors seen.now sectors ≡ blank_log cycle count → result ≡ Clean (cycle * 2 ^ 32 + 2) }
{
    find_state(seen, sectors)
}

/// Tries the three cases one after the other. Zeros are of cycle 0, in which none of the two last is.
fn find_state(seen: &[SectorSeen], sectors: usize) -> LogState
    requires inside { length seen.now ≤ sectors }
    requires listed { length seen.now < 512 → length seen.now ≡ sectors }
    ensures { result ≡ state_of (all_sectors seen.now sectors) }
{
    if are_unwritten(seen) {
        return LogState::Clean { head: 1 << 32 };
    }
    let cycle = first_cycle(seen);
    if cycle == 0 {
        return LogState::Dirty;
    }
    let front = count_front(seen, cycle);
    if has_head(seen, sectors, cycle, front) {
        LogState::Clean {
            head: head_number(cycle, front, sectors),
        }
    } else {
        LogState::Dirty
    }
}

/// Whether the record of this cycle that ends before this sector is the last of the log, and unmounts the volume.
fn has_head(seen: &[SectorSeen], sectors: usize, cycle: u32, head: usize) -> bool
    requires whole { length seen.now ≤ sectors }
    requires listed { length seen.now < 512 → length seen.now ≡ sectors }
    requires inside { head ≤ length seen.now }
    requires later { 1 ≤ cycle }
    ensures { result ≡ (is_unmounted (all_sectors seen.now sectors) cycle head || is_cleared (all_sectors seen.now sectors) cycle head) }
{
    is_unmounted(seen, sectors, cycle, head) || is_cleared(seen, sectors, cycle, head)
}

/// Whether none of these sectors was ever written.
fn are_unwritten(seen: &[SectorSeen]) -> bool
    ensures { result ≡ list_all is_unwritten_sector seen.now }
{
    for sector in seen {
        if sector.cycle != 0 || sector.header {
            return false;
        }
    }
    true
}

/// Whether each of these sectors has this cycle.
fn are_of_cycle(seen: &[SectorSeen], cycle: u32) -> bool
    ensures { result ≡ list_all (is_of_cycle cycle) seen.now }
{
    for sector in seen {
        if sector.cycle != cycle {
            return false;
        }
    }
    true
}

/// The cycle of the first sector, or 0 where there is none.
fn first_cycle(seen: &[SectorSeen]) -> u32
    ensures { result ≡ first_cycle seen.now }
{
    match seen.first() {
        Some(sector) => sector.cycle,
        None => 0,
    }
}

/// How many sectors from the start on have this cycle.
fn count_front(seen: &[SectorSeen], cycle: u32) -> usize
    ensures value { result ≡ prefix_len (is_of_cycle cycle) seen.now }
    ensures inside { result ≤ length seen.now }
{
    for (place, sector) in seen.iter().enumerate() {
        if sector.cycle != cycle {
            return place;
        }
    }
    seen.len()
}

/// Whether the first sectors, so many, have this cycle, all others the one before it, and the record that
/// ends there is an unmount record alone.
fn is_unmounted(seen: &[SectorSeen], sectors: usize, cycle: u32, head: usize) -> bool
    requires whole { length seen.now ≤ sectors }
    requires inside { head ≤ length seen.now }
    requires later { 1 ≤ cycle }
    ensures { result ≡ is_unmounted (all_sectors seen.now sectors) cycle head }
{
    if head == 0 {
        return false;
    }
    if !are_of_cycle(&seen[..head], cycle) {
        return false;
    }
    if !are_before(seen, sectors, cycle, head) {
        return false;
    }
    ends_in_unmount(seen, sectors, head)
}

/// Whether all sectors from `head` on have the cycle before this one.
fn are_before(seen: &[SectorSeen], sectors: usize, cycle: u32, head: usize) -> bool
    requires whole { length seen.now ≤ sectors }
    requires inside { head ≤ length seen.now }
    requires later { 1 ≤ cycle }
    ensures { result ≡ list_all (is_of_cycle (cycle - 1)) (drop head (all_sectors seen.now sectors)) }
{
    if !are_zeros_before(seen.len(), sectors, cycle) {
        return false;
    }
    are_of_cycle(&seen[head..], cycle - 1)
}

/// Whether the zeros behind the sectors that are listed have the cycle before this one, or there are none.
fn are_zeros_before(listed: usize, sectors: usize, cycle: u32) -> bool
    ensures { result ≡ (cycle == 1 || listed == sectors) }
{
    cycle == 1 || listed == sectors
}

/// Whether the nearest header, going back from the sector before `head` and around the start, begins a
/// record that ends at `head` and is an unmount record alone.
fn ends_in_unmount(seen: &[SectorSeen], sectors: usize, head: usize) -> bool
    requires whole { length seen.now ≤ sectors }
    requires inside { head ≤ length seen.now }
    ensures { result ≡ ends_in_unmount (all_sectors seen.now sectors) head }
{
    match nearest_header(seen, head) {
        Some(start) => is_unmount(seen, sectors, start) && ends_at(seen, sectors, start, head),
        None => false,
    }
}

/// The place of the nearest header, going back from the sector before `head` and around the start.
#[tactic(auto, unfolding(crate::specs::Log::nearest_header))]
fn nearest_header(seen: &[SectorSeen], head: usize) -> Option<usize>
    requires { head ≤ length seen.now }
    ensures value { result ≡ nearest_header seen.now head }
    ensures inside { IfSome result (λ start. start < length seen.now) }
{
    match last_header(&seen[..head]) {
        Some(start) => Some(start),
        None => last_header(seen),
    }
}

/// The place of the last header among these sectors.
fn last_header(seen: &[SectorSeen]) -> Option<usize>
    ensures value { result ≡ last_header seen.now }
    ensures inside { IfSome result (λ start. start < length seen.now) }
{
    let mut last = None;
    for (place, sector) in seen.iter().enumerate() {
        if sector.header {
            last = Some(place);
        }
    }
    last
}

/// Whether the record that begins at a header is an unmount record alone.
fn is_unmount(seen: &[SectorSeen], sectors: usize, start: usize) -> bool
    requires whole { length seen.now ≤ sectors }
    requires inside { start < length seen.now }
    ensures { result ≡ is_unmount (all_sectors seen.now sectors) start }
{
    let header = seen[start];
    let first_data = (start + header.header_sectors as usize) % sectors;
    header.single && header.len != 0 && has_flag(seen, first_data)
}

/// Whether the sector at a place of the log has the flag of an unmount record. What is not listed has none.
fn has_flag(seen: &[SectorSeen], place: usize) -> bool
    ensures { result ≡ has_unmount_flag (sector_at seen.now place) }
{
    place < seen.len() && seen[place].has_unmount_flag()
}

/// Whether the record that begins at a header ends before the sector `head`, going around.
fn ends_at(seen: &[SectorSeen], sectors: usize, start: usize, head: usize) -> bool
    requires whole { length seen.now ≤ sectors }
    requires inside { start < length seen.now }
    ensures { result ≡ ends_at (all_sectors seen.now sectors) start head }
{
    (start + seen[start].record_sectors()) % sectors == head % sectors
}

/// Whether the tools of XFS cleared the log: they write 512 sectors at once, of which the first, so many,
/// are an unmount record of this cycle. Behind these no sector is zeros, so all are listed.
fn is_cleared(seen: &[SectorSeen], sectors: usize, cycle: u32, head: usize) -> bool
    requires whole { length seen.now ≤ sectors }
    requires listed { length seen.now < 512 → length seen.now ≡ sectors }
    requires inside { head ≤ length seen.now }
    ensures { result ≡ is_cleared (all_sectors seen.now sectors) cycle head }
{
    if seen.len() != sectors {
        return false;
    }
    are_cleared(seen, cycle, head)
}

/// The same, where all sectors are listed.
#[tactic(auto, unfolding(crate::specs::Log::is_cleared))]
fn are_cleared(seen: &[SectorSeen], cycle: u32, head: usize) -> bool
    requires { head ≤ length seen.now }
    ensures { result ≡ is_cleared seen.now cycle head }
{
    CLEARED <= seen.len()
        && 2 <= cycle
        && 1 <= head
        && head < CLEARED
        && has_cleared_cycles(seen, cycle, head)
        && is_record(seen, head)
}

/// Whether the first sectors, so many, have this cycle, those behind them up to sector 512 were never
/// written, and all others have the cycle before it.
#[tactic(auto, unfolding(crate::specs::Log::has_cleared_cycles))]
fn has_cleared_cycles(seen: &[SectorSeen], cycle: u32, head: usize) -> bool
    requires enough { 512 ≤ length seen.now }
    requires later { 1 ≤ cycle }
    requires inside { head ≤ 512 }
    ensures { result ≡ has_cleared_cycles seen.now cycle head }
{
    are_of_cycle(&seen[..head], cycle)
        && are_unwritten(&seen[head..CLEARED])
        && are_of_cycle(&seen[CLEARED..], cycle - 1)
}

/// Whether the first sectors, so many, are an unmount record alone, with its one header at their start.
#[tactic(auto, unfolding(crate::specs::Log::is_record))]
fn is_record(seen: &[SectorSeen], head: usize) -> bool
    requires some { 1 ≤ head }
    requires inside { head ≤ length seen.now }
    ensures { result ≡ is_record seen.now head }
{
    last_header(&seen[..head]) == Some(0)
        && seen[0].record_sectors() == head
        && begins_with_unmount(seen)
}

/// Whether the record that the first sector begins is an unmount record alone, where all sectors are listed.
fn begins_with_unmount(seen: &[SectorSeen]) -> bool
    requires { 1 ≤ length seen.now }
    ensures { result ≡ is_unmount seen.now 0 }
{
    is_unmount(seen, seen.len(), 0)
}

/// The number of the head at a sector in this cycle; behind the last sector a new cycle begins.
#[tactic(auto, unfolding(crate::specs::Log::head_number))]
fn head_number(cycle: u32, head: usize, sectors: usize) -> u64
    ensures { result ≡ head_number cycle head sectors }
{
    if head == sectors {
        (cycle as u64 + 1).saturating_mul(1 << 32)
    } else {
        ((cycle as u64) << 32).saturating_add(head as u64)
    }
}
