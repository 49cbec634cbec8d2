//! Blocks of a tree's row, taken into a round.

ghost use Rattle.std.specs.Prelude.{◌≡◌, ℕ, ◌+◌, ◌<◌, ◌==◌, [], ◌∷◌, None, Some, false, drop, length, OnOk, Result, ⊤};
ghost use Rattle.std.specs.List.{list_any};
ghost use Rattle.xfs_disk.specs.Blocks.{Image};
ghost use Rattle.xfs_geom.specs.Volumes.{Volume, volume_of};
ghost use Rattle.xfs_tree.specs.Answers.{IsMet};
ghost use Rattle.xfs_forest.specs.Forest.{AreListed, IsGrowing, IsNext, IsPassed, IsTaken, KnowsMet, of_tree, spots_of};
ghost use Rattle.xfs_tree.specs.Reading.{Contents};
ghost use Rattle.xfs_tree.specs.Rules.{place_fault};
ghost use Rattle.xfs_tree.specs.Shape.{Shape};
ghost use Rattle.xfs_tree.specs.declared.unread.Unread.{Unread};

use crate::cells::Cell;
use crate::growing::Growing;
use std::alloc::AllocError;
use xfs_disk::NoMemory;
use xfs_geom::Geometry;
use xfs_tree::{Kind, MetBlocks, Seat, Spot, Unread, can_hold, place_at, tree_layout};

/// The next block of a tree's row, and the first rule, of 1 and 2, that it breaks by its place.
#[derive(Copy)]
pub(crate) struct Next<Key> {
    pub seat: Seat<Key>,
    pub rule: Option<u8>,
}

impl<Key: Copy> Clone for Next<Key> {
    ghost is_clone = { λ x y. y ≡ x };

    ghost is_infallible = { λ _. ⊤ };

    fn clone(&self) -> Result<Next<Key>, AllocError> {
        Ok(*self)
    }
}

/// The next block of a tree's row.
pub(crate) fn next_seat<K: Kind>(
    kind: &K,
    g: &Geometry,
    tree: &Growing<K::Record, K::Key>,
) -> Next<K::Key>
    requires more { tree.now.at < length tree.now.row.items }
    requires met { KnowsMet tree.now }
    ensures next { IsNext g.now.dblocks tree.now result.seat result.rule }
    ensures broken { result.rule ≡ place_fault (K.shape kind.now) (volume_of g.now) tree.now.met.blocks.items result.seat.place }
{
    let seat = tree.row[tree.at];
    Next {
        seat,
        rule: place_rule(kind, g, seat.place, &tree.met),
    }
}

/// The rule, of the first two, that a block breaks by its place.
fn place_rule<K: Kind>(kind: &K, g: &Geometry, place: u64, met: &MetBlocks) -> Option<u8>
    requires { IsMet met.now }
    ensures rule { result ≡ place_fault (K.shape kind.now) (volume_of g.now) met.now.blocks.items place }
    ensures inside { result ≡ None → place < g.now.dblocks }
    ensures fresh { result ≡ None → list_any (λ other. other == place) met.now.blocks.items ≡ false }
{
    if !can_hold(g, &tree_layout(kind), kind.owner(), place) {
        return Some(1);
    }
    if met.holds(place) {
        return Some(2);
    }
    None
}

/// Passes the next block of a tree's row: it is taken into a round, or, where it breaks a rule by its place, put down as the fault
/// of the tree. A tree that has a fault takes part no more.
pub(crate) fn pass_seat<Record: Drop, Key: Copy + Send + Drop>(
    number: usize,
    seat: Seat<Key>,
    rule: Option<u8>,
    tree: &mut Growing<Record, Key>,
    cells: &mut Vec<Cell<Record, Key>>,
) -> Result<(), NoMemory>
    requires more { tree.old.at < length tree.old.row.items }
    requires met { KnowsMet tree.old }
    requires fresh { rule ≡ None → list_any (λ other. other == seat.place) tree.old.met.blocks.items ≡ false }
    ensures passed { OnOk result (IsPassed tree.old tree.new) }
    ensures others { OnOk result ((u : ℕ) → (u ≡ number → ⊥) → of_tree u (spots_of cells.new.items) ≡ of_tree u (spots_of cells.old.items)) }
    ensures listed { OnOk result ((n end : ℕ) → number < n → (rule ≡ None → seat.place < end) → AreListed n end cells.old.items → AreListed n end cells.new.items) }
    ensures grows { OnOk result ((s : Shape Record Key) (v : Volume) (image : Image) (whole : Result (Contents Record) Unread) →
        drop tree.old.at tree.old.row.items ≡ seat ∷ drop (tree.old.at + 1) tree.old.row.items → place_fault s v tree.old.met.blocks.items seat.place ≡ rule →
        ((broken : ℕ) → rule ≡ Some broken → cells.old.items ≡ []) →
        IsGrowing s v image whole tree.old (of_tree number (spots_of cells.old.items)) → IsGrowing s v image whole tree.new (of_tree number (spots_of cells.new.items))) }
{
    if tree.fault.is_some() {
        tree.at += 1;
        return Ok(());
    }
    match rule {
        None => {
            take_seat(number, seat, tree, cells)?;
            Ok(())
        }
        Some(rule) => {
            stop(tree, seat.place, rule);
            Ok(())
        }
    }
}

/// Puts down that the next block of a row breaks a rule by its place.
fn stop<Record: Drop, Key: Drop>(tree: &mut Growing<Record, Key>, place: u64, rule: u8)
    requires more { tree.old.at < length tree.old.row.items }
    requires met { KnowsMet tree.old }
    ensures passed { IsPassed tree.old tree.new }
    ensures fault { tree.new.fault ≡ Some (record { block = place; rule = rule }) }
{
    tree.fault = Some(Unread { block: place, rule });
    tree.at += 1;
}

/// Takes the next block of a tree's row, which was not met, into a round.
fn take_seat<Record: Drop, Key: Copy + Send + Drop>(
    number: usize,
    seat: Seat<Key>,
    tree: &mut Growing<Record, Key>,
    cells: &mut Vec<Cell<Record, Key>>,
) -> Result<(), NoMemory>
    requires more { tree.old.at < length tree.old.row.items }
    requires met { KnowsMet tree.old }
    requires fresh { list_any (λ other. other == seat.place) tree.old.met.blocks.items ≡ false }
    ensures { OnOk result (IsTaken number seat tree.old tree.new cells.old.items cells.new.items) }
{
    let spot = Spot {
        tree: number,
        at: cells.len(),
        level: tree.level,
        seat,
        left: tree.side,
        right: place_at(&tree.row, tree.at + 1),
    };
    tree.met.add(seat.place)?;
    cells.push(Cell {
        spot,
        found: Err(NoMemory),
    })?;
    tree.at += 1;
    tree.side = Some(seat.place);
    Ok(())
}
