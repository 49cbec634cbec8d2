//! A library in memory: the one with no file.

ghost use Rattle.std.specs.Prelude.{◌≡◌, [], Some, Err};

use std::alloc::Global;
use xfs_disk::{Library, LibraryFault, Word};

/// A library with no file. It tells so.
#[derive(Clone, Copy)]
pub struct MemoryLibrary;

impl MemoryLibrary {
    /// The library with no file.
    pub fn make() -> MemoryLibrary
        ensures { ⟦<MemoryLibrary as Library>⟧.files result ≡ Some [] }
    {
        MemoryLibrary
    }
}

impl Library for MemoryLibrary {
    ghost files = { λ _. Some [] };

    ghost faults = { λ _. 0 };

    fn file(&mut self, _alloc: Global, _name: &Word) -> Result<Vec<u8>, LibraryFault>
        ensures { result ≡ Err LibraryFault.Missing }
    {
        Err(LibraryFault::Missing)
    }
}
