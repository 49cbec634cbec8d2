//! The trees of free runs against the blocks without an owner (chapter "AG Free Space Management").

ghost use Rattle.std.specs.Prelude.{◌≡◌, ℕ, ◌+◌, ◌*◌, ◌<◌, ◌≤◌, ◌∷◌, [], List, length, map, IfOk};
ghost use Rattle.std.specs.List.{All};
ghost use Rattle.xfs_geom.specs.Volumes.{volume_of};
ghost use Rattle.xfs_geom.specs.declared.records.Run.{Run};
ghost use Rattle.xfs_volume.specs.Laws.{first_broken, first_difference};
ghost use Rattle.xfs_kinds.specs.Lengths.{by_length};
ghost use Rattle.xfs_space.specs.SpaceLaws.{free_laws, free_spans, span_number, spans_at};
ghost use Rattle.xfs_space.specs.Sorted.{Follow, IsOfOneGroup, span_in};

use crate::splitting::split_runs;
use std::alloc::Global;
use xfs_disk::NoMemory;
use xfs_geom::{Geometry, Run, Span};
use xfs_kinds::{by_length, free_runs};
use xfs_volume::{GroupRec, Law};

/// Stands for a record that is not there.
const NOTHING: u128 = u128::MAX;

/// The first law that the free space trees of the groups break, given the owned runs in order.
///
/// `NoMemory` where memory is wanting.
pub fn free_law(
    alloc: Global,
    g: &Geometry,
    groups: &[GroupRec],
    runs: &[Run],
) -> Result<Option<Law>, NoMemory>
    requires count { length groups.now ≡ g.now.agcount }
    requires follow { Follow 0 runs.now }
    requires groups { All (IsOfOneGroup (volume_of g.now)) runs.now }
    ensures { IfOk result (λ law. law ≡ first_broken (free_laws (volume_of g.now) runs.now 0 groups.now)) }
{
    let mut rest = runs;
    for (index, group) in groups.iter().enumerate() {
        let ag = index as u32;
        let end = g.start_of_group(ag) + g.agblocks as u64;
        let (front, back) = split_runs(rest, end);
        match group_free_law(alloc, g, ag, group, front)? {
            Some(law) => return Ok(Some(law)),
            None => rest = back,
        }
    }
    Ok(None)
}

/// The same for a group, given its owned runs in order.
fn group_free_law(
    alloc: Global,
    g: &Geometry,
    ag: u32,
    group: &GroupRec,
    runs: &[Run],
) -> Result<Option<Law>, NoMemory>
    requires group { ag < g.now.agcount }
    requires follow { Follow (ag * g.now.agblocks) runs.now }
    requires inside { All (λ (r : Run). r.start + r.count ≤ (ag + 1) * g.now.agblocks) runs.now }
    ensures { IfOk result (λ law. law ≡ first_broken (
        spans_at (2 * ag) group.now.bno (free_spans (volume_of g.now) runs.now ag)
        ∷ spans_at (2 * ag + 1) group.now.cnt (by_length (free_spans (volume_of g.now) runs.now ag))
        ∷ [])) }
{
    let free = free_spans(alloc, g, ag, runs)?;
    let place = 2 * ag as u64;
    match spans_law(place, group.bno.as_slice(), &free) {
        Some(law) => Ok(Some(law)),
        None => {
            let ranked = by_length(alloc, &free)?;
            Ok(spans_law(place + 1, group.cnt.as_slice(), &ranked))
        }
    }
}

/// The maximal runs of the group's blocks without an owner, given its owned runs in order.
fn free_spans(alloc: Global, g: &Geometry, ag: u32, runs: &[Run]) -> Result<Vec<Span>, NoMemory>
    requires group { ag < g.now.agcount }
    requires follow { Follow (ag * g.now.agblocks) runs.now }
    requires inside { All (λ (r : Run). r.start + r.count ≤ (ag + 1) * g.now.agblocks) runs.now }
    ensures { IfOk result (λ free. free.items ≡ free_spans (volume_of g.now) runs.now ag) }
{
    let used = spans_of(alloc, g.start_of_group(ag), g.agblocks, runs)?;
    free_runs(alloc, &used, g.group_length(ag))
}

/// The runs as AG blocks of the group that begins at block `base` and has `blocks` blocks.
fn spans_of(alloc: Global, base: u64, blocks: u32, runs: &[Run]) -> Result<Vec<Span>, NoMemory>
    requires behind { All (λ (r : Run). base ≤ r.start) runs.now }
    requires inside { All (λ (r : Run). r.start + r.count ≤ base + blocks) runs.now }
    ensures { IfOk result (λ spans. spans.items ≡ map (span_in base) runs.now) }
{
    let mut spans = Vec::with_capacity(alloc, runs.len())?;
    for run in runs {
        spans.push(Span {
            start: (run.start - base) as u32,
            count: run.count as u32,
        })?;
    }
    Ok(spans)
}

/// The law that a tree's records are those that are due, at a place, where it is broken.
fn spans_law(place: u64, held: &[Span], due: &[Span]) -> Option<Law>
    ensures { result ≡ first_broken (spans_at place held.now due.now ∷ []) }
{
    let found = first_difference(held, due);
    if found.0 == found.1 {
        return None;
    }
    Some(Law {
        law: 2,
        place,
        held: found.0,
        due: found.1,
    })
}

/// Two lists of runs at the first place where they differ, as numbers.
fn first_difference(held: &[Span], due: &[Span]) -> (u128, u128)
    ensures { result ≡ first_difference (map span_number held.now) (map span_number due.now) }
{
    for (index, span) in held.iter().enumerate() {
        match due.get(index) {
            None => return (number_of(span), NOTHING),
            Some(other) => {
                if number_of(span) != number_of(other) {
                    return (number_of(span), number_of(other));
                }
            }
        }
    }
    match due.get(held.len()) {
        None => (0, 0),
        Some(other) => (NOTHING, number_of(other)),
    }
}

/// A run as one number.
fn number_of(span: &Span) -> u128
    ensures { result ≡ span_number span.now }
{
    span.start as u128 * (1 << 32) + span.count as u128
}
