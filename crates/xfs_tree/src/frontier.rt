//! Blocks of one level of a tree that stand side by side.

ghost use Rattle.std.specs.Prelude.{◌≡◌, ◌<◌, length, IfOk, slice_get};
ghost use Rattle.xfs_tree.specs.Seats.{seat_at, seats_of};

use crate::kind::Kind;
use crate::seats::Seat;
use std::alloc::Global;
use xfs_disk::NoMemory;

/// A run of neighbouring blocks of one level.
///
/// A root is one place without keys. Every other run has as many `lows` as places and, where keys are pairs,
/// as many `highs`: what the parents state.
#[derive(Drop)]
pub struct Frontier<K: Kind> {
    /// Block numbers, from the left.
    pub places: Vec<u64>,
    pub lows: Vec<K::Key>,
    pub highs: Vec<K::Key>,
    /// The level of these blocks, 0 for leaves.
    pub level: u32,
    /// The run's neighbour on the left of its level, by its block number.
    pub left: Option<u64>,
    /// The run's neighbour on the right of its level, by its block number.
    pub right: Option<u64>,
    /// The block of the first place in a bank.
    pub from: usize,
}

impl<K: Kind> Frontier<K> {
    /// The blocks of the run with the keys that their parents state.
    pub fn seats(&self, alloc: Global) -> Result<Vec<Seat<K::Key>>, NoMemory>
        ensures { IfOk result (λ seats. seats.items ≡ seats_of self.now.places.items self.now.lows.items self.now.highs.items) }
    {
        let mut seats = Vec::new(alloc);
        for i in 0..self.places.len() {
            seats.push(self.seat_at(i))?;
        }
        Ok(seats)
    }

    /// A block of the run with the keys that its parent states.
    fn seat_at(&self, i: usize) -> Seat<K::Key>
        requires { i < length self.now.places.items }
        ensures { result ≡ seat_at self.now.places.items self.now.lows.items self.now.highs.items i }
    {
        Seat {
            place: self.places[i],
            low: key_at(&self.lows, i),
            high: key_at(&self.highs, i),
        }
    }
}

/// The key at a place in a list, where there is one.
fn key_at<Key: Copy>(keys: &[Key], i: usize) -> Option<Key>
    ensures { result ≡ slice_get keys.now i }
{
    keys.get(i).copied()
}
