//! Names that a walk over entries has met.

ghost use Rattle.std.specs.Prelude.{◌≡◌, ℕ, ◌==◌, ◌&&◌, ◌||◌, List, false, not, IfOk, OnOk};
ghost use Rattle.std.specs.Bool.{OnFalse};
ghost use Rattle.std.specs.Str.{bytes_eq};
ghost use Rattle.xfs_links.specs.Met.{is_met};

use std::alloc::Global;
use std::collections::BTreeSet;
use xfs_disk::NoMemory;
use xfs_word::name_hash;

/// Names of entries, each with the directory's number. They stand by the hash of the name first, since names of one directory
/// often begin alike.
#[derive(Drop)]
pub struct MetNames<'a> {
    names: BTreeSet<(u64, u32, &'a [u8])>,
}

impl<'a> MetNames<'a> {
    /// No name.
    pub fn new(alloc: Global) -> MetNames<'a>
        ensures { (d : ℕ) (q : List ℕ) → is_met result d q ≡ false }
    {
        MetNames {
            names: BTreeSet::new(alloc),
        }
    }

    /// Adds a name of a directory, and says whether it was not there.
    pub fn add(&mut self, directory: u64, name: &'a [u8]) -> Result<bool, NoMemory>
        ensures fresh { IfOk result (λ fresh. fresh ≡ not (is_met self.old directory name.now)) }
        ensures met { OnOk result ((d : ℕ) (q : List ℕ) → is_met self.new d q ≡ ((directory == d && bytes_eq name.now q) || is_met self.old d q)) }
        ensures same { IfOk result (λ fresh. OnFalse fresh ((d : ℕ) (q : List ℕ) → is_met self.new d q ≡ is_met self.old d q)) }
    {
        let fresh = self.names.insert((directory, name_hash(name), name))?;
        Ok(fresh)
    }
}
