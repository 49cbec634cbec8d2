//! Whether names would have to change.

ghost use Rattle.std.specs.Prelude.{◌≡◌, ℕ, ◌<◌, ◌^◌, if◌then◌else◌, length, map, IfOk};
ghost use Rattle.std.specs.Option.{is_some};
ghost use Rattle.xfs_naming.specs.Naming.{AreNamed, naming_laws};
ghost use Rattle.xfs_volume.specs.Laws.{first_broken};
ghost use Rattle.xfs_volume.specs.declared.files.FileRec.{FileRec};
ghost use Rattle.xfs_request.specs.Slots.{links_due};
ghost use Rattle.xfs_rebuild.specs.Names.{AreDueNames, made_files, with_made_files, with_nlink};
ghost use Rattle.xfs_rebuild.specs.NamesJudged.{AreNamesJudged};
ghost use Rattle.xfs_rebuild.specs.declared.names.Judged.TheVariants.{Change, Stay};

use crate::due_files::{add_made, all_due, dirs_with, set_links};
use std::alloc::Global;
use xfs_dirdata::EntryRec;
use xfs_disk::NoMemory;
use xfs_laws::are_named;
use xfs_naming::{check_names, links_of};
use xfs_render::SlotWanted;
use xfs_salvage::Salvaged;
use xfs_volume::{DirRec, FileRec, Records};

/// What there is to be named: the files that the volume then has, with as many links as the kept entries give them, its
/// directories, and what else was kept.
#[derive(Drop)]
pub(crate) struct DueNames {
    pub files: Records<FileRec>,
    pub entries: Records<EntryRec>,
    pub dirs: Records<DirRec>,
    pub clusters: Records<u64>,
    pub fresh: Records<u64>,
}

/// Whether names have to change.
#[derive(Drop)]
pub(crate) enum Judged {
    /// They stay; these are the kept clusters.
    Stay(Records<u64>),
    /// They have to change; this is what there is to be named.
    Change(DueNames),
}

/// Whether what there is to be named breaks a law of names, whatever numbers of links are set.
///
/// `NoMemory` where memory is wanting, or where files, entries and directories are not in the order of those of an image.
#[tactic(auto, unfolding(crate::specs::Names::needs_names))]
pub(crate) fn judge_names(
    alloc: Global,
    root: u64,
    kept: Salvaged,
    slots: &[SlotWanted],
) -> Result<Judged, NoMemory>
    requires low { root < 2 ^ 32 }
    ensures { IfOk result (AreNamesJudged root kept slots.now) }
{
    let names = due_names(alloc, root, kept, slots)?;
    let breaks = breaks_names(
        alloc,
        root,
        names.files.as_slice(),
        names.entries.as_slice(),
        names.dirs.as_slice(),
    )?;
    Ok(names_or_clusters(breaks, names))
}

/// The names where they have to change, else the clusters.
fn names_or_clusters(breaks: bool, names: DueNames) -> Judged
    ensures { result ≡ (if breaks then Change names else Stay names.clusters) }
{
    if breaks {
        return Judged::Change(names);
    }
    let DueNames { clusters, .. } = names;
    Judged::Stay(clusters)
}

/// What there is to be named.
#[tactic(auto, unfolding(crate::specs::Names::due_files))]
fn due_names(
    alloc: Global,
    root: u64,
    kept: Salvaged,
    slots: &[SlotWanted],
) -> Result<DueNames, NoMemory>
    requires low { root < 2 ^ 32 }
    ensures { IfOk result (λ names. AreDueNames root kept slots.now names) }
{
    let dues = match links_of_kept(alloc, root, &kept) {
        Ok(dues) => dues,
        Err(NoMemory) => {
            drop(kept);
            return Err(NoMemory);
        }
    };
    let Salvaged {
        clusters,
        files,
        fresh,
        entries,
        dirs,
    } = kept;
    let files = due_files(files.into_vec(), dues.as_slice(), slots)?;
    let dirs = dirs_with(root, fresh.as_slice(), dirs.into_vec())?;
    Ok(DueNames {
        files: Records::from_vec(files),
        entries,
        dirs: Records::from_vec(dirs),
        clusters,
        fresh,
    })
}

/// How many links each kept file is to have.
fn links_of_kept(alloc: Global, root: u64, kept: &Salvaged) -> Result<Vec<u32>, NoMemory>
    requires low { root < 2 ^ 32 }
    ensures { IfOk result (λ dues. dues.items ≡ map (links_due root kept.now.files kept.now.entries) kept.now.files) }
{
    let files = kept.files.as_slice();
    let entries = kept.entries.as_slice();
    if !are_named(files, entries, kept.dirs.as_slice()) {
        return Err(NoMemory);
    }
    let links = links_of(alloc, entries)?;
    all_due(alloc, root, files, entries, links.as_slice())
}

/// The files, where each is to have so many links, with those that are made anew.
fn due_files(
    files: Vec<FileRec>,
    dues: &[u32],
    slots: &[SlotWanted],
) -> Result<Vec<FileRec>, NoMemory>
    requires { length dues.now ≡ length files.items }
    ensures { (due : FileRec → ℕ) → dues.now ≡ map due files.items
        → IfOk result (λ all. all.items ≡ with_made_files (made_files slots.now) (map (λ (f : FileRec). with_nlink f (due f)) files.items)) }
{
    let mut files = files;
    set_links(files.as_mut_slice(), dues);
    add_made(slots, &mut files)?;
    Ok(files)
}

/// Whether a law of names is broken.
fn breaks_names(
    alloc: Global,
    root: u64,
    files: &[FileRec],
    entries: &[EntryRec],
    dirs: &[DirRec],
) -> Result<bool, NoMemory>
    requires low { root < 2 ^ 32 }
    ensures breaks { IfOk result (λ breaks. breaks ≡ is_some (first_broken (naming_laws root files.now entries.now dirs.now))) }
    ensures named { IfOk result (λ _. AreNamed files.now entries.now dirs.now) }
{
    if !are_named(files, entries, dirs) {
        return Err(NoMemory);
    }
    let law = check_names(alloc, root, files, entries, dirs)?;
    Ok(law.is_some())
}
