//! The laws of names, one after another.

ghost use Rattle.std.specs.Prelude.{◌≡◌, ◌<◌, ◌^◌, ◌↔◌, None, IfOk};
ghost use Rattle.xfs_naming.specs.Lawful.{IsNamingLawful};
ghost use Rattle.xfs_volume.specs.Laws.{first_broken};
ghost use Rattle.xfs_naming.specs.Naming.{AreNamed, naming_laws, directory_laws, place_laws, link_laws};
ghost use Rattle.xfs_naming.specs.Ordered.{IsOrdered, IsWalked};

use crate::counts::broken_links;
use crate::directories::broken_directory;
use crate::kinds::kinds_of;
use crate::linking::links_of;
use crate::naming::Names;
use crate::numbering::{numbers_of, with_number};
use crate::places::broken_place;
use crate::walks::walk;
use std::alloc::Global;
use std::collections::BTreeSet;
use xfs_dirdata::EntryRec;
use xfs_disk::NoMemory;
use xfs_volume::{DirRec, FileRec, Law};

/// The first file that breaks the eighth law.
#[tactic(auto, unfolding(crate::specs::Naming::place_laws))]
fn first_place(
    alloc: Global,
    names: &Names,
    reached: &BTreeSet<u64>,
) -> Result<Option<Law>, NoMemory>
    requires ordered { IsOrdered names.now }
    requires named { AreNamed names.now.files.now names.now.entries.now names.now.dirs.now }
    requires walked { IsWalked names.now reached.now.keys }
    ensures { IfOk result (λ law. law ≡ first_broken (place_laws names.now.root names.now.files.now names.now.entries.now names.now.dirs.now)) }
{
    let numbers = with_number(numbers_of(alloc, names)?, names.root)?;
    Ok(broken_place(names, reached, numbers.as_slice()))
}

/// The first file that breaks the ninth law.
#[tactic(auto, unfolding(crate::specs::Naming::link_laws))]
fn first_links(alloc: Global, names: &Names) -> Result<Option<Law>, NoMemory>
    requires ordered { IsOrdered names.now }
    requires named { AreNamed names.now.files.now names.now.entries.now names.now.dirs.now }
    ensures { IfOk result (λ law. law ≡ first_broken (link_laws names.now.root names.now.files.now names.now.entries.now)) }
{
    let second = with_number(numbers_of(alloc, names)?, names.root + 2)?;
    let numbers = with_number(second, names.root + 1)?;
    Ok(broken_links(names, numbers.as_slice()))
}

/// The first of the laws of names that is broken.
#[tactic(auto, unfolding(crate::specs::Naming::naming_laws))]
fn first_law(alloc: Global, names: &Names, reached: &BTreeSet<u64>) -> Result<Option<Law>, NoMemory>
    requires ordered { IsOrdered names.now }
    requires named { AreNamed names.now.files.now names.now.entries.now names.now.dirs.now }
    requires walked { IsWalked names.now reached.now.keys }
    ensures { IfOk result (λ law. law ≡ first_broken (naming_laws names.now.root names.now.files.now names.now.entries.now names.now.dirs.now)) }
{
    match broken_directory(alloc, names)? {
        Some(law) => return Ok(Some(law)),
        None => {}
    }
    match first_place(alloc, names, reached)? {
        Some(law) => return Ok(Some(law)),
        None => {}
    }
    first_links(alloc, names)
}

/// Checks the laws of names: of a volume whose root has this inode number, with the files in use by number, the entries of
/// its directories by directory, and the directories by number. Where one is broken, says which first: a directory that is
/// not whole, or whose names or targets or types are wrong (law 7); a file that is not named as it should be, or a
/// directory that is not reached from the root (law 8); a file whose links are not as many as its names (law 9). Each with
/// the least inode number; for laws 7 and 8 `held` is the number of the test that it fails first.
pub fn check_names(
    alloc: Global,
    root: u64,
    files: &[FileRec],
    entries: &[EntryRec],
    dirs: &[DirRec],
) -> Result<Option<Law>, NoMemory>
    requires named { AreNamed files.now entries.now dirs.now }
    requires low { root < 2 ^ 32 }
    ensures law { IfOk result (λ law. law ≡ first_broken (naming_laws root files.now entries.now dirs.now)) }
    ensures lawful { IfOk result (λ law. law ≡ None ↔ IsNamingLawful root files.now entries.now dirs.now) }
{
    let kinds = kinds_of(alloc, files)?;
    let links = links_of(alloc, entries)?;
    let names = Names {
        root,
        files,
        kinds: kinds.as_slice(),
        entries,
        dirs,
        links: links.as_slice(),
    };
    match walk(alloc, &names) {
        Ok(reached) => first_law(alloc, &names, &reached),
        Err(error) => Err(error),
    }
}
