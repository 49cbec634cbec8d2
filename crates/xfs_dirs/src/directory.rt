//! A directory, read from a disk.

ghost use Rattle.std.specs.Prelude.{◌≡◌, ◌+◌, ◌≤◌, true, None, length, unwrap_or, IfOk};
ghost use Rattle.std.specs.Option.{ForSome};
ghost use Rattle.xfs_geom.specs.Volumes.{volume_of};
ghost use Rattle.xfs_disk.specs.Reads.{OnlyReads};
ghost use Rattle.xfs_inode.specs.Files.{are_extents};
ghost use Rattle.xfs_image.specs.Directories.{entries_of, is_whole, parent_of};
ghost use Rattle.xfs_image.specs.Slots.{slot_bytes};
ghost use Rattle.xfs_dirs.specs.Answers.{HasDirCause};
ghost use Rattle.xfs_dirs.specs.Gathered.{BlocksInOrder, is_whole_kept, mapped_of_kept};

use crate::blocks::read_extents;
use crate::found::{DirFound, DirectoryFault};
use crate::gathered::Gathered;
use crate::short::read_form;
use crate::whole_forms::is_whole_directory;
use std::alloc::Global;
use std::sync::ledger::Ledger;
use xfs_collections::Steps;
use xfs_disk::{Disk, NoMemory};
use xfs_geom::Geometry;
use xfs_volume::{FileRec, Records};

/// The directory `file` with its entries (chapter "Directories"); `slot` has the 512 bytes of its inode, and its extents lie
/// in the volume. Each of its blocks is read once, and counts as a step, also where the read fails. `ReadFault` only where a
/// read failed.
pub fn read_directory<D: Disk, L: Ledger>(
    alloc: Global,
    g: &Geometry,
    disk: &mut D,
    slot: &[u8],
    file: &FileRec,
    steps: &mut Steps<L>,
) -> Result<DirFound, DirectoryFault>
    requires slot { length slot.now ≡ 512 }
    requires inside { g.now.dblocks ≤ D.size disk.old }
    requires held { ForSome (D.holds disk.old) (λ image. slot_bytes (volume_of g.now) image file.now.ino ≡ slot.now) }
    requires extents { are_extents (volume_of g.now) None file.now.extents ≡ true }
    ensures entries { IfOk result (λ found. ForSome (D.holds disk.old) (λ image. found.entries ≡ entries_of (volume_of g.now) image file.now)) }
    ensures parent { IfOk result (λ found. ForSome (D.holds disk.old) (λ image. found.parent ≡ parent_of (volume_of g.now) image file.now)) }
    ensures whole { IfOk result (λ found. ForSome (D.holds disk.old) (λ image. found.whole ≡ is_whole (volume_of g.now) image file.now)) }
    ensures cause { HasDirCause (D.faults disk.old) (D.faults disk.new) result }
    ensures disk { OnlyReads D.size D.holds D.write_faults D.writes D.tells_stops D.moment D.may_leave D.left_since disk.old disk.new }
    ensures reads { D.reads disk.new + steps.old ≤ D.reads disk.old + steps.new }
{
    if file.core.format == 1 {
        return match read_form(alloc, file.ino, file.core.size, slot) {
            Ok(found) => Ok(found),
            Err(NoMemory) => Err(DirectoryFault::NoMemory),
        };
    }
    let gathered = match read_extents(alloc, g, disk, file.ino, file.extents.as_slice(), steps) {
        Ok(gathered) => gathered,
        Err(fault) => return Err(fault),
    };
    match judged(alloc, file.ino, file.core.size, gathered) {
        Ok(found) => Ok(found),
        Err(NoMemory) => Err(DirectoryFault::NoMemory),
    }
}

/// What was gathered of a directory of this size, in bytes, with the check of its blocks.
fn judged(alloc: Global, dir: u64, size: u64, gathered: Gathered) -> Result<DirFound, NoMemory>
    requires { BlocksInOrder gathered.kept }
    ensures entries { IfOk result (λ found. found.entries ≡ gathered.entries.items) }
    ensures parent { IfOk result (λ found. found.parent ≡ unwrap_or gathered.parent 0) }
    ensures whole { IfOk result (λ found. found.whole ≡ is_whole_kept dir size (mapped_of_kept gathered.kept)) }
{
    let whole = is_whole_directory(alloc, dir, size, &gathered.kept)?;
    Ok(DirFound {
        parent: gathered.parent.unwrap_or(0),
        whole,
        entries: Records::from_vec(gathered.entries),
    })
}
