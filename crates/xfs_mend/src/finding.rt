//! What is found first of a volume.

ghost use Rattle.std.specs.Prelude.{◌≡◌, ◌-◌, ◌≤◌, length, None, Ok, IfErr, IfOk};
ghost use Rattle.std.specs.Option.{ForSome};
ghost use Rattle.xfs_geom.specs.Election.{elected};
ghost use Rattle.xfs_geom.specs.Electing.{vote_of};
ghost use Rattle.xfs_geom.specs.Volumes.{volume_of, stated_volume};
ghost use Rattle.xfs_disk.specs.Reads.{OnlyReads};
ghost use Rattle.xfs_laws.specs.Lawful.{broken_law};
ghost use Rattle.xfs_image.specs.Consistent.{backup_found, finding, law_found, view_found};
ghost use Rattle.xfs_image.specs.View.{view};
ghost use Rattle.xfs_scan.specs.Evidence.{view_seen};
ghost use Rattle.xfs_backups.specs.Backups.{first_disagreeing};
ghost use Rattle.xfs_backups.specs.Causes.{HasMendCause};

use std::alloc::Global;
use std::thread::Threads;
use xfs_backups::{MendFault, find_disagreeing};
use xfs_disk::{Disk, Failed};
use xfs_geom::{Elected, Geometry};
use xfs_image::Finding;
use xfs_laws::{is_catalog, lawful};
use xfs_scan::Seen;
use xfs_volume::{Catalog, LawFault};

/// The first thing that is wrong with a volume which says this: a geometry that comes from a backup, a part that does not read,
/// a law that is broken, a backup that does not agree. Laws are judged by one worker or more.
pub(crate) fn find_first<R: Threads + Sync, D: Disk>(
    rt: &R,
    alloc: Global,
    workers: u32,
    disk: &mut D,
    chosen: &Elected,
    seen: &Seen,
) -> Result<Option<Finding>, MendFault>
    requires sector { length chosen.now.sector ≡ 512 }
    requires stated { volume_of chosen.now.geometry ≡ stated_volume chosen.now.sector }
    requires inside { chosen.now.geometry.dblocks ≤ D.size disk.old }
    requires elects { ForSome (D.holds disk.old) (λ image. elected image ≡ Ok (vote_of chosen.now)) }
    requires view { ForSome (D.holds disk.old) (λ image. view_seen seen.now ≡ view chosen.now.geometry image) }
    ensures found { IfOk result (λ found. ForSome (D.holds disk.old) (λ image. found ≡ finding broken_law chosen.now.geometry image)) }
    ensures cause { HasMendCause (D.faults disk.old) (D.faults disk.new) result }
    ensures disk { OnlyReads D.size D.holds D.write_faults D.writes D.tells_stops D.moment D.may_leave D.left_since disk.old disk.new }
{
    if chosen.from != 0 {
        return Ok(Some(Finding::Part { part: 0, place: 0 }));
    }
    match judge(rt, alloc, workers, seen) {
        Ok(Some(found)) => Ok(Some(found)),
        Ok(None) => find_backup(disk, &chosen.geometry, &chosen.sector),
        Err(fault) => Err(fault),
    }
}

/// The part that does not read, or the first law that is broken.
fn judge<R: Threads + Sync>(
    rt: &R,
    alloc: Global,
    workers: u32,
    seen: &Seen,
) -> Result<Option<Finding>, MendFault>
    ensures found { IfOk result (λ found. found ≡ view_found broken_law (view_seen seen.now) None) }
    ensures fault { IfErr result (λ fault. fault ≡ MendFault.NoMemory) }
{
    match seen {
        Seen::Whole(catalog) => judge_catalog(rt, alloc, workers, catalog),
        Seen::Apart(_, Ok(catalog)) => judge_catalog(rt, alloc, workers, catalog),
        Seen::Apart(_, Err(found)) => Ok(Some(*found)),
    }
}

/// The first law that is broken. A disk that does not tell what it holds, as a file, says nothing of what was read from it. So
/// the catalog is tested here, though of each image the view is one whose laws can be judged.
fn judge_catalog<R: Threads + Sync>(
    rt: &R,
    alloc: Global,
    workers: u32,
    catalog: &Catalog,
) -> Result<Option<Finding>, MendFault>
    ensures found { IfOk result (λ found. found ≡ law_found (broken_law catalog.now) None) }
    ensures fault { IfErr result (λ fault. fault ≡ MendFault.NoMemory) }
{
    if !is_catalog(catalog) {
        return Err(MendFault::NoMemory);
    }
    match lawful(rt, alloc, workers, catalog) {
        Ok(()) => Ok(None),
        Err(LawFault::Broken(law)) => Ok(Some(Finding::Law(law))),
        Err(LawFault::NoMemory) => Err(MendFault::NoMemory),
    }
}

/// The first backup that does not agree.
fn find_backup<D: Disk>(
    disk: &mut D,
    geometry: &Geometry,
    primary: &[u8],
) -> Result<Option<Finding>, MendFault>
    requires sector { length primary.now ≡ 512 }
    requires stated { volume_of geometry.now ≡ stated_volume primary.now }
    requires inside { geometry.now.dblocks ≤ D.size disk.old }
    ensures found { IfOk result (λ found. ForSome (D.holds disk.old) (λ image.
        found ≡ backup_found (first_disagreeing primary.now image 1 (geometry.now.agcount - 1)))) }
    ensures cause { HasMendCause (D.faults disk.old) (D.faults disk.new) result }
    ensures disk { OnlyReads D.size D.holds D.write_faults D.writes D.tells_stops D.moment D.may_leave D.left_since disk.old disk.new }
{
    match find_disagreeing(disk, geometry, primary) {
        Ok(None) => Ok(None),
        Ok(Some(group)) => Ok(Some(Finding::Part {
            part: 10,
            place: group as u64,
        })),
        Err(Failed) => Err(MendFault::ReadFault),
    }
}
