//! The names of the entries that have been read.

ghost use Rattle.std.specs.Prelude.{◌≡◌, ℕ, ◌==◌, ◌&&◌, ◌||◌, List, false, OnOk};
ghost use Rattle.std.specs.Str.{bytes_eq};
ghost use Rattle.xfs_proto.specs.EntryNames.{is_entry_name};

use std::alloc::Global;
use std::collections::BTreeSet;
use xfs_disk::NoMemory;

/// Names of entries, each with the place of its directory among the nodes.
#[derive(Drop)]
pub(crate) struct EntryNames<'a> {
    names: BTreeSet<(u64, &'a [u8])>,
}

impl<'a> EntryNames<'a> {
    /// No name.
    pub(crate) fn new(alloc: Global) -> EntryNames<'a>
        ensures { (d : ℕ) (q : List ℕ) → is_entry_name result d q ≡ false }
    {
        EntryNames {
            names: BTreeSet::new(alloc),
        }
    }

    /// Whether a directory's name is there.
    pub(crate) fn has(&self, directory: u64, name: &'a [u8]) -> bool
        ensures { result ≡ is_entry_name self.now directory name.now }
    {
        self.names.contains(&(directory, name))
    }

    /// Adds a name of a directory.
    pub(crate) fn add(&mut self, directory: u64, name: &'a [u8]) -> Result<(), NoMemory>
        ensures { OnOk result ((d : ℕ) (q : List ℕ) → is_entry_name self.new d q ≡ ((directory == d && bytes_eq name.now q) || is_entry_name self.old d q)) }
    {
        let _ = self.names.insert((directory, name))?;
        Ok(())
    }
}
