//! Whether a volume is lawful.

ghost use denote.Param.Send.{IsSync};
ghost use Rattle.std.specs.Prelude.{◌≡◌, ◌++◌, ◌↔◌, None, IfErr, IfOk, IsTrue, OnOk};
ghost use Rattle.xfs_geom.specs.Volumes.{volume_of};
ghost use Rattle.xfs_naming.specs.Lawful.{IsNamingLawful};
ghost use Rattle.xfs_naming.specs.Naming.{naming_laws};
ghost use Rattle.xfs_space.specs.SpaceLaws.{IsSpaceLawful, space_laws};
ghost use Rattle.xfs_volume.specs.Laws.{AreKept, first_broken};
ghost use Rattle.xfs_laws.specs.Counting.{log_laws};
ghost use Rattle.xfs_laws.specs.Lawful.{Differs, IsCatalog, IsVerdict, broken_law, counting_laws, laws_of};

use crate::chunks::check_inodes;
use crate::counters::check_counters;
use crate::entries::check_lists;
use crate::log::check_log;
use crate::named::are_named;
use crate::parts::{are_files, are_groups, are_lsns};
use std::alloc::Global;
use std::thread::{Threads, join};
use xfs_disk::NoMemory;
use xfs_naming::check_names;
use xfs_space::check_space;
use xfs_volume::{Catalog, Law, LawFault};

/// From how many files on the laws of names are judged in a thread of their own.
const FILES_OF_A_THREAD: usize = 4096;

/// Whether a volume is lawful: its blocks have one owner each, its trees say just that, its counters are right, its
/// names hang together, and its log ends behind everything. `Broken` with the first law that is broken, at its least
/// place. Where there are `workers` enough, the names of a volume with many files are judged beside the rest.
pub fn lawful<R: Threads + Sync>(
    rt: &R,
    alloc: Global,
    workers: u32,
    catalog: &Catalog,
) -> Result<(), LawFault>
    requires { IsCatalog catalog.now }
    ensures verdict { IsVerdict (broken_law catalog.now) result }
    ensures kept { OnOk result (AreKept (laws_of catalog.now)) }
    ensures space { OnOk result (IsSpaceLawful (volume_of catalog.now.geometry) catalog.now.groups catalog.now.files) }
    ensures names { OnOk result (IsNamingLawful catalog.now.geometry.rootino catalog.now.files catalog.now.entries catalog.now.dirs) }
    ensures differs { IfErr result Differs }
{
    match first_broken_law(rt, alloc, workers, catalog) {
        Ok(None) => Ok(()),
        Ok(Some(law)) => Err(LawFault::Broken(law)),
        Err(NoMemory) => Err(LawFault::NoMemory),
    }
}

/// The first law that is broken.
fn first_broken_law<R: Threads + Sync>(
    rt: &R,
    alloc: Global,
    workers: u32,
    catalog: &Catalog,
) -> Result<Option<Law>, NoMemory>
    requires { IsCatalog catalog.now }
    ensures law { IfOk result (λ law. law ≡ broken_law catalog.now) }
    ensures space { IfOk result (λ law. law ≡ None → IsSpaceLawful (volume_of catalog.now.geometry) catalog.now.groups catalog.now.files) }
    ensures names { IfOk result (λ law. law ≡ None → IsNamingLawful catalog.now.geometry.rootino catalog.now.files catalog.now.entries catalog.now.dirs) }
{
    if workers < 2 || catalog.files.as_slice().len() < FILES_OF_A_THREAD {
        judge_in_turn(rt, alloc, workers, catalog)
    } else {
        judge_beside(rt, alloc, workers, catalog)
    }
}

/// The first law that is broken, where each is judged behind those before it.
fn judge_in_turn<R: Threads + Sync>(
    rt: &R,
    alloc: Global,
    workers: u32,
    catalog: &Catalog,
) -> Result<Option<Law>, NoMemory>
    requires { IsCatalog catalog.now }
    ensures law { IfOk result (λ law. law ≡ broken_law catalog.now) }
    ensures space { IfOk result (λ law. law ≡ None → IsSpaceLawful (volume_of catalog.now.geometry) catalog.now.groups catalog.now.files) }
    ensures names { IfOk result (λ law. law ≡ None → IsNamingLawful catalog.now.geometry.rootino catalog.now.files catalog.now.entries catalog.now.dirs) }
{
    match judge_numbers(rt, alloc, workers, catalog) {
        Ok(found) => match found {
            Some(law) => Ok(Some(law)),
            None => judge_behind(judge_names(alloc, catalog), catalog),
        },
        Err(NoMemory) => Err(NoMemory),
    }
}

/// The first law that is broken, where those of names are judged in a thread of their own, beside those of space and
/// counts. What these say comes first.
fn judge_beside<R: Threads + Sync>(
    rt: &R,
    alloc: Global,
    workers: u32,
    catalog: &Catalog,
) -> Result<Option<Law>, NoMemory>
    requires { IsCatalog catalog.now }
    ensures law { IfOk result (λ law. law ≡ broken_law catalog.now) }
    ensures space { IfOk result (λ law. law ≡ None → IsSpaceLawful (volume_of catalog.now.geometry) catalog.now.groups catalog.now.files) }
    ensures names { IfOk result (λ law. law ≡ None → IsNamingLawful catalog.now.geometry.rootino catalog.now.files catalog.now.entries catalog.now.dirs) }
{
    let (names, numbers) = join(
        rt,
        || -> Result<Option<Law>, NoMemory>
            requires { IsCatalog catalog.now }
            ensures { IfOk result (λ law. law ≡ first_broken (naming_laws catalog.entry.now.geometry.rootino catalog.entry.now.files catalog.entry.now.entries catalog.entry.now.dirs)) × IfOk result (λ law. law ≡ None → IsNamingLawful catalog.entry.now.geometry.rootino catalog.entry.now.files catalog.entry.now.entries catalog.entry.now.dirs) }
        { judge_names(alloc, catalog) },
        || -> Result<Option<Law>, NoMemory>
            requires { IsSync R.row × IsCatalog catalog.now }
            ensures { IfOk result (λ law. law ≡ first_broken (space_laws (volume_of catalog.entry.now.geometry) catalog.entry.now.groups catalog.entry.now.files ++ counting_laws catalog.entry.now)) × IfOk result (λ law. law ≡ None → IsSpaceLawful (volume_of catalog.entry.now.geometry) catalog.entry.now.groups catalog.entry.now.files) }
        { judge_numbers(rt, alloc, workers, catalog) },
    );
    judge_all(numbers, names, catalog)
}

/// The first law that is broken, where this is known of space and counts, and of names.
fn judge_all(
    numbers: Result<Option<Law>, NoMemory>,
    names: Result<Option<Law>, NoMemory>,
    catalog: &Catalog,
) -> Result<Option<Law>, NoMemory>
    requires catalog { IsCatalog catalog.now }
    requires numbers { IfOk numbers (λ law. law ≡ first_broken (space_laws (volume_of catalog.now.geometry) catalog.now.groups catalog.now.files ++ counting_laws catalog.now)) }
    requires space { IfOk numbers (λ law. law ≡ None → IsSpaceLawful (volume_of catalog.now.geometry) catalog.now.groups catalog.now.files) }
    requires law { IfOk names (λ law. law ≡ first_broken (naming_laws catalog.now.geometry.rootino catalog.now.files catalog.now.entries catalog.now.dirs)) }
    requires names { IfOk names (λ law. law ≡ None → IsNamingLawful catalog.now.geometry.rootino catalog.now.files catalog.now.entries catalog.now.dirs) }
    ensures law { IfOk result (λ law. law ≡ broken_law catalog.now) }
    ensures space { IfOk result (λ law. law ≡ None → IsSpaceLawful (volume_of catalog.now.geometry) catalog.now.groups catalog.now.files) }
    ensures names { IfOk result (λ law. law ≡ None → IsNamingLawful catalog.now.geometry.rootino catalog.now.files catalog.now.entries catalog.now.dirs) }
{
    match numbers {
        Ok(found) => match found {
            Some(law) => Ok(Some(law)),
            None => judge_behind(names, catalog),
        },
        Err(NoMemory) => Err(NoMemory),
    }
}

/// The first law behind those of space and counts that is broken, where this is known of names.
fn judge_behind(
    names: Result<Option<Law>, NoMemory>,
    catalog: &Catalog,
) -> Result<Option<Law>, NoMemory>
    requires catalog { IsCatalog catalog.now }
    requires law { IfOk names (λ law. law ≡ first_broken (naming_laws catalog.now.geometry.rootino catalog.now.files catalog.now.entries catalog.now.dirs)) }
    requires names { IfOk names (λ law. law ≡ None → IsNamingLawful catalog.now.geometry.rootino catalog.now.files catalog.now.entries catalog.now.dirs) }
    ensures law { IfOk result (λ law. law ≡ first_broken (naming_laws catalog.now.geometry.rootino catalog.now.files catalog.now.entries catalog.now.dirs
        ++ log_laws catalog.now.groups catalog.now.log catalog.now.lsns)) }
    ensures names { IfOk result (λ law. law ≡ None → IsNamingLawful catalog.now.geometry.rootino catalog.now.files catalog.now.entries catalog.now.dirs) }
{
    match names {
        Ok(found) => match found {
            Some(law) => Ok(Some(law)),
            None => Ok(judge_log(catalog)),
        },
        Err(NoMemory) => Err(NoMemory),
    }
}

/// The first law of space or of counts that is broken.
fn judge_numbers<R: Threads + Sync>(
    rt: &R,
    alloc: Global,
    workers: u32,
    catalog: &Catalog,
) -> Result<Option<Law>, NoMemory>
    requires { IsCatalog catalog.now }
    ensures law { IfOk result (λ law. law ≡ first_broken (space_laws (volume_of catalog.now.geometry) catalog.now.groups catalog.now.files ++ counting_laws catalog.now)) }
    ensures space { IfOk result (λ law. law ≡ None → IsSpaceLawful (volume_of catalog.now.geometry) catalog.now.groups catalog.now.files) }
{
    let groups = catalog.groups.as_slice();
    let files = catalog.files.as_slice();
    match check_space(rt, alloc, workers, &catalog.geometry, groups, files) {
        Ok(found) => match found {
            Some(law) => Ok(Some(law)),
            None => Ok(check_counts(catalog)),
        },
        Err(NoMemory) => Err(NoMemory),
    }
}

/// The first law of names that is broken.
fn judge_names(alloc: Global, catalog: &Catalog) -> Result<Option<Law>, NoMemory>
    requires { IsCatalog catalog.now }
    ensures law { IfOk result (λ law. law ≡ first_broken (naming_laws catalog.now.geometry.rootino catalog.now.files catalog.now.entries catalog.now.dirs)) }
    ensures names { IfOk result (λ law. law ≡ None → IsNamingLawful catalog.now.geometry.rootino catalog.now.files catalog.now.entries catalog.now.dirs) }
{
    let root = catalog.geometry.rootino;
    let files = catalog.files.as_slice();
    let entries = catalog.entries.as_slice();
    check_names(alloc, root, files, entries, catalog.dirs.as_slice())
}

/// The first number that says that the log has something to do.
fn judge_log(catalog: &Catalog) -> Option<Law>
    requires { IsCatalog catalog.now }
    ensures { result ≡ first_broken (log_laws catalog.now.groups catalog.now.log catalog.now.lsns) }
{
    let groups = catalog.groups.as_slice();
    check_log(groups, &catalog.log, catalog.lsns.as_slice())
}

/// The first law of counts that is broken.
fn check_counts(catalog: &Catalog) -> Option<Law>
    requires { IsCatalog catalog.now }
    ensures { result ≡ first_broken (counting_laws catalog.now) }
{
    let groups = catalog.groups.as_slice();
    if let Some(law) = check_inodes(&catalog.geometry, catalog.files.as_slice(), groups) {
        return Some(law);
    }
    if let Some(law) = check_counters(&catalog.geometry, groups, &catalog.counts) {
        return Some(law);
    }
    check_lists(groups)
}

/// Whether the parts of a catalog are sound by themselves, so that its laws can be judged: a group for each of the
/// volume's, with lawful records; files with lawful extents, by number; a record for each directory, and the entries of
/// these in the same order; blocks of the volume.
///
/// The view of an image always passes: that is the law `views_are_catalogs` of `xfs_views`.
pub fn is_catalog(catalog: &Catalog) -> bool
    ensures { IsTrue result ↔ IsCatalog catalog.now }
{
    let g = &catalog.geometry;
    let groups = catalog.groups.as_slice();
    let files = catalog.files.as_slice();
    if groups.len() != g.agcount as usize {
        return false;
    }
    if !are_groups(g, groups) {
        return false;
    }
    if !are_files(g, files) {
        return false;
    }
    if !are_named(files, catalog.entries.as_slice(), catalog.dirs.as_slice()) {
        return false;
    }
    are_lsns(g, catalog.lsns.as_slice())
}
