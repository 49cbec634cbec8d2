//! The largest unused spans of a data block.

ghost use Rattle.std.specs.Prelude.{◌≡◌, ◌∷◌, [], List, length, take, ◌++◌};
ghost use Rattle.std.specs.List.{list_any, list_all};
ghost use Rattle.xfs_dirdata.specs.declared.records.FreeSpan.{FreeSpan};
ghost use Rattle.xfs_dirdata.specs.Best.{missing, is_same_span, is_before, with_span, bests_of, Lead, is_best_or_missing, bests_apart, is_other, are_bests};

use crate::records::FreeSpan;

/// What stands in the place of a span that is missing.
const MISSING: FreeSpan = FreeSpan {
    offset: 0,
    length: 0,
};

/// The three longest of these spans, those of equal length by their offsets, and zero for those that are
/// missing (chapter "Directories").
pub fn bestfree(free: &[FreeSpan]) -> [FreeSpan; 3]
    ensures value { result ≡ bests_of free.now }
    ensures lead { Lead free.now result }
{
    let mut bests = [MISSING; 3];
    let mut left = free.len();
    while left > 0 {
        left -= 1;
        bests = with_span(&bests, free[left]);
    }
    bests
}

/// Three spans with one more in its place, without the last.
fn with_span(bests: &[FreeSpan; 3], span: FreeSpan) -> [FreeSpan; 3]
    ensures { result ≡ take 3 (with_span span bests.now) }
{
    let [a, b, c] = *bests;
    if is_before(span, a) {
        return [span, a, b];
    }
    if is_before(span, b) {
        return [a, span, b];
    }
    if is_before(span, c) {
        return [a, b, span];
    }
    [a, b, c]
}

/// Whether a span comes before another: it is longer, or as long and at a lower offset.
fn is_before(a: FreeSpan, b: FreeSpan) -> bool
    ensures { result ≡ is_before a b }
{
    b.length < a.length || a.length == b.length && a.offset < b.offset
}

/// Whether three spans are the largest of these: each is one of them or missing, no two are one, their
/// lengths do not ascend, and no other is longer than the third.
#[tactic(auto, unfolding(crate::specs::Best::are_bests))]
pub fn are_bests(free: &[FreeSpan], a: FreeSpan, b: FreeSpan, c: FreeSpan) -> bool
    ensures { result ≡ are_bests free.now a b c }
{
    if !is_best_or_missing(free, a) {
        return false;
    }
    if !is_best_or_missing(free, b) {
        return false;
    }
    if !is_best_or_missing(free, c) {
        return false;
    }
    if !bests_apart(a, b) {
        return false;
    }
    if !bests_apart(a, c) {
        return false;
    }
    if !bests_apart(b, c) {
        return false;
    }
    if b.length > a.length {
        return false;
    }
    if c.length > b.length {
        return false;
    }
    are_shorter(free, a, b, c)
}

/// Whether each of these spans is one of three, or no longer than the third.
fn are_shorter(free: &[FreeSpan], a: FreeSpan, b: FreeSpan, c: FreeSpan) -> bool
    ensures { result ≡ list_all (is_other a b c) free.now }
{
    free.iter().all(|span| is_other(a, b, c, *span))
}

/// Whether a span is one of three, or no longer than the third.
fn is_other(a: FreeSpan, b: FreeSpan, c: FreeSpan, span: FreeSpan) -> bool
    ensures { result ≡ is_other a b c span }
{
    if span.length <= c.length {
        return true;
    }
    if is_same_span(span, a) {
        return true;
    }
    if is_same_span(span, b) {
        return true;
    }
    is_same_span(span, c)
}

/// Whether a span is one of these or missing.
fn is_best_or_missing(free: &[FreeSpan], span: FreeSpan) -> bool
    ensures { result ≡ is_best_or_missing free.now span }
{
    if is_same_span(span, MISSING) {
        return true;
    }
    has_span(free, span)
}

/// Whether a span is one of these.
fn has_span(free: &[FreeSpan], span: FreeSpan) -> bool
    ensures { result ≡ list_any (is_same_span span) free.now }
{
    free.iter().any(|other| is_same_span(span, *other))
}

/// Whether two spans are not one, or are missing.
fn bests_apart(a: FreeSpan, b: FreeSpan) -> bool
    ensures { result ≡ bests_apart a b }
{
    is_same_span(a, MISSING) || !is_same_span(a, b)
}

/// Whether two spans are one.
fn is_same_span(a: FreeSpan, b: FreeSpan) -> bool
    ensures { result ≡ is_same_span a b }
{
    a.offset == b.offset && a.length == b.length
}
