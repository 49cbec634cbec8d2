//! Blocks of a tree by their places, with the keys that their parents state.

ghost use Rattle.std.specs.Prelude.{◌≡◌, ⊤};

use std::alloc::AllocError;

/// A block of a tree: its number, and the low key and, where keys are pairs, the high key that its parent
/// states. A root has none.
#[derive(Copy)]
pub struct Seat<Key> {
    pub place: u64,
    pub low: Option<Key>,
    pub high: Option<Key>,
}

impl<Key: Copy> Clone for Seat<Key> {
    ghost is_clone = { λ x y. y ≡ x };

    ghost is_infallible = { λ _. ⊤ };

    fn clone(&self) -> Result<Seat<Key>, AllocError> {
        Ok(*self)
    }
}
