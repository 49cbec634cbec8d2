//! A library: files that are found by name.

ghost use Rattle.std.specs.Prelude.{◌≡◌, ℕ, List, Option, Some, None, Err, IfOk};
ghost use Rattle.std.specs.Option.{ForSome};
ghost use Rattle.xfs_disk.specs.Files.{Files, file_named, HasLibraryCause};

use crate::word::Word;
use std::alloc::Global;

/// Why a library gives no file.
#[derive(Clone, Copy, PartialEq, Eq)]
pub enum LibraryFault {
    /// There is no file of this name.
    Missing,
    /// The library failed. Its count of faults has risen.
    Failed,
    /// There is not enough memory.
    NoMemory,
}

/// Files by name. Contracts see the map `files` where the library tells it, and its count `faults`.
pub trait Library {
    ghost files: { Self → Option Files };

    ghost faults: { Self → ℕ };

    /// The bytes of the file of this name.
    fn file(&mut self, alloc: Global, name: &Word) -> Result<Vec<u8>, LibraryFault>
        ensures bytes { IfOk result (λ bytes. ForSome (files self.old) (λ map. file_named name.now map ≡ Some bytes.items)) }
        ensures missing { result ≡ Err LibraryFault.Missing → ForSome (files self.old) (λ map. file_named name.now map ≡ None) }
        ensures files { files self.new ≡ files self.old }
        ensures cause { HasLibraryCause (faults self.old) (faults self.new) result };
}
