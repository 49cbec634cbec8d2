//! Links by what they name.

ghost use Rattle.std.specs.Prelude.{◌≡◌, IfOk, map};
ghost use Rattle.std.specs.List.Sorted.{IsNonDecreasingBy};
ghost use Rattle.xfs_naming.specs.declared.runs.Link.{Link};
ghost use Rattle.xfs_naming.specs.Ordered.{AreLinks, link_of};

use crate::runs::Link;
use std::alloc::{AllocError, Global};
use xfs_dirdata::EntryRec;

/// The link that an entry is.
fn link_of(entry: &EntryRec) -> Link
    ensures { result ≡ link_of entry.now }
{
    Link {
        target: entry.ino,
        dir: entry.dir,
    }
}

/// A link for each entry, in the order of the entries.
fn each_link(alloc: Global, entries: &[EntryRec]) -> Result<Vec<Link>, AllocError>
    ensures { IfOk result (λ links. links.items ≡ map link_of entries.now) }
{
    entries.iter().map(|entry| link_of(entry)).collect(alloc)
}

/// A link for each entry, in the order of what they name.
pub fn links_of(alloc: Global, entries: &[EntryRec]) -> Result<Vec<Link>, AllocError>
    ensures rise { IfOk result (λ links. IsNonDecreasingBy (λ (l : Link). l.target) links.items) }
    ensures linked { IfOk result (λ links. AreLinks entries.now links.items) }
{
    let mut links = each_link(alloc, entries)?;
    links.sort_by_key(|link| link.target)?;
    Ok(links)
}
