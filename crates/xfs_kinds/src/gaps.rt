//! The free runs between those that are used (chapter "AG Free Space Management").

ghost use Rattle.std.specs.Prelude.{◌≡◌, ℕ, ◌++◌, ◌&&◌, nat_lt, min, not, IfOk, OnOk};
ghost use Rattle.xfs_kinds.specs.FreeRuns.{SpansAscend, AreSeparate, free_of, gap, is_in_spans};

use std::alloc::Global;
use xfs_disk::NoMemory;
use xfs_geom::Span;

/// The maximal runs of the AG blocks below `length` that none of the runs in use has. Those ascend, and no
/// two have a block in common; they may end behind `length`.
///
/// `NoMemory` where memory is wanting.
pub fn free_runs(alloc: Global, used: &[Span], length: u32) -> Result<Vec<Span>, NoMemory>
    requires { SpansAscend 0 used.now }
    ensures runs { IfOk result (λ free. free.items ≡ free_of used.now length) }
    ensures blocks { IfOk result (λ free. (block : ℕ) → is_in_spans free.items block ≡ (nat_lt block length && not (is_in_spans used.now block))) }
    ensures separate { IfOk result (λ free. AreSeparate 0 free.items) }
{
    let mut free = Vec::new(alloc);
    let mut at = 0;
    for span in used {
        if span.count != 0 {
            push_gap(&mut free, at, lesser(span.start, length))?;
            at = span.start as u64 + span.count as u64;
        }
    }
    push_gap(&mut free, at, length)?;
    Ok(free)
}

/// Adds the run of the blocks from `at` on, before `end`, where there are any.
fn push_gap(free: &mut Vec<Span>, at: u64, end: u32) -> Result<(), NoMemory>
    ensures { OnOk result (free.new.items ≡ free.old.items ++ gap at end) }
{
    if at < end as u64 {
        let start = at as u32;
        free.push(Span {
            start,
            count: end - start,
        })?;
    }
    Ok(())
}

/// The lesser of two numbers.
fn lesser(a: u32, b: u32) -> u32
    ensures { result ≡ min a b }
{
    if a < b { a } else { b }
}
