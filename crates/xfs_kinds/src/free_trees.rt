//! The trees of a group's free runs, by their starts and by their lengths (chapter "AG Free Space
//! Management").

ghost use Rattle.std.specs.Prelude.{◌≡◌, true, false};
ghost use Rattle.std.specs.Option.{option_copied};
ghost use Rattle.xfs_geom.specs.Volumes.{volume_of};
ghost use Rattle.xfs_kinds.specs.FreeTrees.{is_free_run, begins_behind, ranks_behind, start_order, length_order};

use crate::groups::lies_in_group;
use crate::spans::{put_span, read_span};
use std::cmp::Ordering;
use xfs_geom::{Geometry, Span};
use xfs_tree::Kind;

/// The trees of the free runs of an allocation group, ordered by start.
#[derive(Clone, Copy)]
pub struct Bno {
    pub ag: u32,
}

/// The trees of the free runs of an allocation group, ordered by length and then by start.
#[derive(Clone, Copy)]
pub struct Cnt {
    pub ag: u32,
}

impl Kind for Bno {
    ghost use Rattle.std.proofs.Common.{rules, refl};
    ghost use Rattle.xfs_kinds.specs.FreeTrees.{bno_shape};
    ghost use Rattle.xfs_kinds.specs.FreeTreeLaws.{bno_kind};

    type Record = Span;

    type Key = Span;

    const MAGIC: u32 = 0x4142_3342;

    const LONG: bool = false;

    const HIGH: bool = false;

    const RECORD_LEN: usize = 8;

    const KEY_LEN: usize = 8;

    const LEAF_CAP: u64 = 505;

    const NODE_CAP: u64 = 336;

    ghost MAGIC = { 0x4142_3342 };

    ghost LONG = { false };

    ghost HIGH = { false };

    ghost RECORD_LEN = { 8 };

    ghost KEY_LEN = { 8 };

    ghost LEAF_CAP = { 505 };

    ghost NODE_CAP = { 336 };

    ghost shape = { λ k. bno_shape k.ag };

    fn owner(&self) -> u64 {
        self.ag as u64
    }

    fn read_record(&self, bytes: &[u8]) -> Span {
        read_span(bytes)
    }

    fn put_record(&self, item: &Span, bytes: &mut [u8]) {
        put_span(item, bytes);
    }

    fn read_key(&self, bytes: &[u8]) -> Span {
        read_span(bytes)
    }

    fn put_key(&self, key: &Span, bytes: &mut [u8]) {
        put_span(key, bytes);
    }

    fn low_key(&self, item: &Span) -> Span {
        *item
    }

    fn high_key(&self, item: &Span) -> Span {
        *item
    }

    fn order(&self, a: &Span, b: &Span) -> Ordering {
        start_order(a, b)
    }

    fn lawful(&self, g: &Geometry, before: Option<&Span>, item: &Span) -> bool {
        is_free_run(g, self.ag, item) && begins_behind(before, item)
    }

    ghost numbers = { λ _. refl };

    ghost compared = { λ _ a b. refl };

    ghost same = { Prim.search rules };

    ghost kind = { λ k. bno_kind k.ag };
}

impl Kind for Cnt {
    ghost use Rattle.std.proofs.Common.{rules, refl};
    ghost use Rattle.xfs_kinds.specs.FreeTrees.{cnt_shape};
    ghost use Rattle.xfs_kinds.specs.FreeTreeLaws.{cnt_kind};

    type Record = Span;

    type Key = Span;

    const MAGIC: u32 = 0x4142_3343;

    const LONG: bool = false;

    const HIGH: bool = false;

    const RECORD_LEN: usize = 8;

    const KEY_LEN: usize = 8;

    const LEAF_CAP: u64 = 505;

    const NODE_CAP: u64 = 336;

    ghost MAGIC = { 0x4142_3343 };

    ghost LONG = { false };

    ghost HIGH = { false };

    ghost RECORD_LEN = { 8 };

    ghost KEY_LEN = { 8 };

    ghost LEAF_CAP = { 505 };

    ghost NODE_CAP = { 336 };

    ghost shape = { λ k. cnt_shape k.ag };

    fn owner(&self) -> u64 {
        self.ag as u64
    }

    fn read_record(&self, bytes: &[u8]) -> Span {
        read_span(bytes)
    }

    fn put_record(&self, item: &Span, bytes: &mut [u8]) {
        put_span(item, bytes);
    }

    fn read_key(&self, bytes: &[u8]) -> Span {
        read_span(bytes)
    }

    fn put_key(&self, key: &Span, bytes: &mut [u8]) {
        put_span(key, bytes);
    }

    fn low_key(&self, item: &Span) -> Span {
        *item
    }

    fn high_key(&self, item: &Span) -> Span {
        *item
    }

    fn order(&self, a: &Span, b: &Span) -> Ordering {
        length_order(a, b)
    }

    fn lawful(&self, g: &Geometry, before: Option<&Span>, item: &Span) -> bool {
        is_free_run(g, self.ag, item) && ranks_behind(before, item)
    }

    ghost numbers = { λ _. refl };

    ghost compared = { λ _ a b. refl };

    ghost same = { Prim.search rules };

    ghost kind = { λ k. cnt_kind k.ag };
}

/// Whether these are some blocks of the group, behind its first one.
fn is_free_run(g: &Geometry, ag: u32, span: &Span) -> bool
    ensures { result ≡ is_free_run (volume_of g.now) ag span.now }
{
    1 <= span.count
        && 1 <= span.start
        && lies_in_group(g, ag as u64, span.start as u64, span.count as u64)
}

/// The order of the starts.
fn start_order(a: &Span, b: &Span) -> Ordering
    ensures { result ≡ start_order a.now b.now }
{
    a.start.cmp(&b.start)
}

/// The order of the lengths, and of the starts among equal lengths.
fn length_order(a: &Span, b: &Span) -> Ordering
    ensures { result ≡ length_order a.now b.now }
{
    a.count.cmp(&b.count).then(a.start.cmp(&b.start))
}

/// Whether a run begins behind the end of the one before it, and does not touch it.
fn begins_behind(before: Option<&Span>, span: &Span) -> bool
    ensures { result ≡ begins_behind (option_copied before.entry) span.now }
{
    match before {
        Some(before) => (before.start as u64 + before.count as u64) < span.start as u64,
        None => true,
    }
}

/// Whether a run is longer than the one before it, or as long and begins behind its start.
fn ranks_behind(before: Option<&Span>, span: &Span) -> bool
    ensures { result ≡ ranks_behind (option_copied before.entry) span.now }
{
    match before {
        Some(before) => {
            before.count < span.count || before.count == span.count && before.start < span.start
        }
        None => true,
    }
}
