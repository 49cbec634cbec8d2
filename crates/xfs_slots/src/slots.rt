//! The slots of inodes, read one by one (chapter "On-disk Inode").

ghost use Rattle.std.specs.Prelude.{◌≡◌, ◌+◌, ◌≤◌, [], ◌∷◌, true, Some, None, length, OnOk};
ghost use Rattle.std.specs.Option.{ForSome};
ghost use Rattle.xfs_geom.specs.Volumes.{volume_of};
ghost use Rattle.xfs_disk.specs.Reads.{OnlyReads};
ghost use Rattle.xfs_inode.specs.Files.{are_extents};
ghost use Rattle.xfs_inode.specs.Slots.{slot_read};
ghost use Rattle.xfs_inode.specs.Sound.{IsSound};
ghost use Rattle.xfs_volume.specs.Names.{is_directory};
ghost use Rattle.xfs_image.specs.Slots.{slot_bytes};
ghost use Rattle.xfs_slots.specs.Causes.{HasReadCause};
ghost use Rattle.xfs_slots.specs.Gathered.{held_in, gathered_both, of_directory, of_file, of_found, of_read, of_slot};

use crate::faults::PartFault;
use crate::inodes::{InodeFeature, Inodes};
use std::alloc::Global;
use std::sync::ledger::Ledger;
use xfs_collections::Steps;
use xfs_dirs::{DirFound, DirectoryFault, read_directory};
use xfs_disk::{Disk, NoMemory};
use xfs_geom::Geometry;
use xfs_inode::{BoxedFile, FileRead, InodeFault, SlotRead, read_file_of};
use xfs_volume::{DirRec, FileRec};

/// The type of a directory, in the upper four bits of a mode.
const DIRECTORY: u16 = 4;

/// Takes up the slot of an inode, of 512 bytes, that reads so by itself.
#[tactic(auto, unfolding(xfs_image::specs::Slots::reads_as))]
pub fn see_slot<D: Disk, L: Ledger>(
    alloc: Global,
    g: &Geometry,
    disk: &mut D,
    ino: u64,
    slot: &[u8],
    read: &SlotRead,
    inodes: &mut Inodes,
    steps: &mut Steps<L>,
) -> Result<(), PartFault>
    requires slot { length slot.now ≡ 512 }
    requires itself { read.now ≡ slot_read (volume_of g.now) ino slot.now }
    requires inside { g.now.dblocks ≤ D.size disk.old }
    requires held { ForSome (D.holds disk.old) (λ image. slot_bytes (volume_of g.now) image ino ≡ slot.now) }
    ensures held { OnOk result (ForSome (D.holds disk.old) (λ image. held_in inodes.new ≡ gathered_both (held_in inodes.old) (of_slot (volume_of g.now) image ino))) }
    ensures cause { HasReadCause (D.faults disk.old) (D.faults disk.new) result }
    ensures disk { OnlyReads D.size D.holds D.write_faults D.writes D.tells_stops D.moment D.may_leave D.left_since disk.old disk.new }
    ensures reads { D.reads disk.new + steps.old ≤ D.reads disk.old + steps.new }
{
    match read_file_of(alloc, g, disk, ino, slot, read, steps) {
        Ok(file) => take_read(alloc, g, disk, ino, slot, file, inodes, steps),
        Err(InodeFault::ReadFault) => Err(PartFault::ReadFault),
        Err(InodeFault::NoMemory) => Err(PartFault::NoMemory),
    }
}

/// Takes up what a slot reads as.
pub fn take_read<D: Disk, L: Ledger>(
    alloc: Global,
    g: &Geometry,
    disk: &mut D,
    ino: u64,
    slot: &[u8],
    read: FileRead,
    inodes: &mut Inodes,
    steps: &mut Steps<L>,
) -> Result<(), PartFault>
    requires slot { length slot.now ≡ 512 }
    requires inside { g.now.dblocks ≤ D.size disk.old }
    requires held { ForSome (D.holds disk.old) (λ image. slot_bytes (volume_of g.now) image ino ≡ slot.now) }
    requires sound { IsSound (volume_of g.now) ino read }
    ensures held { OnOk result (ForSome (D.holds disk.old) (λ image. held_in inodes.new ≡ gathered_both (held_in inodes.old) (of_read (volume_of g.now) image ino read))) }
    ensures cause { HasReadCause (D.faults disk.old) (D.faults disk.new) result }
    ensures disk { OnlyReads D.size D.holds D.write_faults D.writes D.tells_stops D.moment D.may_leave D.left_since disk.old disk.new }
    ensures reads { D.reads disk.new + steps.old ≤ D.reads disk.old + steps.new }
{
    match read {
        FileRead::Free => Ok(()),
        FileRead::File(file) => take_file(alloc, g, disk, slot, file, inodes, steps),
        FileRead::FileWithoutAttrs(file) => take_bare(alloc, g, disk, slot, file, inodes, steps),
        FileRead::Unsupported { what } => {
            inodes.pass(ino, Some(InodeFeature { ino, what }));
            Ok(())
        }
        FileRead::Unsound => {
            inodes.pass(ino, None);
            Ok(())
        }
    }
}

/// Takes up a file without its attributes.
fn take_bare<D: Disk, L: Ledger>(
    alloc: Global,
    g: &Geometry,
    disk: &mut D,
    slot: &[u8],
    file: BoxedFile,
    inodes: &mut Inodes,
    steps: &mut Steps<L>,
) -> Result<(), PartFault>
    requires slot { length slot.now ≡ 512 }
    requires inside { g.now.dblocks ≤ D.size disk.old }
    requires held { ForSome (D.holds disk.old) (λ image. slot_bytes (volume_of g.now) image file.ino ≡ slot.now) }
    requires extents { are_extents (volume_of g.now) None file.extents ≡ true }
    ensures held { OnOk result (ForSome (D.holds disk.old) (λ image. held_in inodes.new ≡ gathered_both (held_in inodes.old) (of_file (volume_of g.now) image file (file.ino ∷ []) (Some file.ino)))) }
    ensures cause { HasReadCause (D.faults disk.old) (D.faults disk.new) result }
    ensures disk { OnlyReads D.size D.holds D.write_faults D.writes D.tells_stops D.moment D.may_leave D.left_since disk.old disk.new }
    ensures reads { D.reads disk.new + steps.old ≤ D.reads disk.old + steps.new }
{
    match note_bare(file.as_file().ino, inodes) {
        Ok(()) => take_file(alloc, g, disk, slot, file, inodes, steps),
        Err(NoMemory) => {
            drop(file);
            Err(PartFault::NoMemory)
        }
    }
}

/// Notes that an inode's file has lost its attributes.
fn note_bare(ino: u64, inodes: &mut Inodes) -> Result<(), NoMemory>
    ensures { OnOk result (held_in inodes.new ≡ gathered_both (held_in inodes.old) (record { files = []; bare = ino ∷ []; entries = []; dirs = []; unread = Some ino; feature = None })) }
{
    inodes.bare.push(ino)?;
    inodes.pass(ino, None);
    Ok(())
}

/// Takes up a file, and its entries where it is a directory.
fn take_file<D: Disk, L: Ledger>(
    alloc: Global,
    g: &Geometry,
    disk: &mut D,
    slot: &[u8],
    file: BoxedFile,
    inodes: &mut Inodes,
    steps: &mut Steps<L>,
) -> Result<(), PartFault>
    requires slot { length slot.now ≡ 512 }
    requires inside { g.now.dblocks ≤ D.size disk.old }
    requires held { ForSome (D.holds disk.old) (λ image. slot_bytes (volume_of g.now) image file.ino ≡ slot.now) }
    requires extents { are_extents (volume_of g.now) None file.extents ≡ true }
    ensures held { OnOk result (ForSome (D.holds disk.old) (λ image. held_in inodes.new ≡ gathered_both (held_in inodes.old) (of_file (volume_of g.now) image file [] None))) }
    ensures cause { HasReadCause (D.faults disk.old) (D.faults disk.new) result }
    ensures disk { OnlyReads D.size D.holds D.write_faults D.writes D.tells_stops D.moment D.may_leave D.left_since disk.old disk.new }
    ensures reads { D.reads disk.new + steps.old ≤ D.reads disk.old + steps.new }
{
    match take_directory(alloc, g, disk, slot, file.as_file(), inodes, steps) {
        Ok(()) => {}
        Err(fault) => {
            drop(file);
            return Err(fault);
        }
    }
    match push_file(file, inodes) {
        Ok(()) => Ok(()),
        Err(NoMemory) => Err(PartFault::NoMemory),
    }
}

/// Adds a file, which is moved here alone: from where it stands apart into the list.
fn push_file(file: BoxedFile, inodes: &mut Inodes) -> Result<(), NoMemory>
    ensures { OnOk result (held_in inodes.new ≡ gathered_both (held_in inodes.old) (record { files = file ∷ []; bare = []; entries = []; dirs = []; unread = None; feature = None })) }
{
    inodes.files.push(file.into_file())?;
    Ok(())
}

/// Takes up what is found of a file that is a directory, and its entries.
fn take_directory<D: Disk, L: Ledger>(
    alloc: Global,
    g: &Geometry,
    disk: &mut D,
    slot: &[u8],
    file: &FileRec,
    inodes: &mut Inodes,
    steps: &mut Steps<L>,
) -> Result<(), PartFault>
    requires slot { length slot.now ≡ 512 }
    requires inside { g.now.dblocks ≤ D.size disk.old }
    requires held { ForSome (D.holds disk.old) (λ image. slot_bytes (volume_of g.now) image file.now.ino ≡ slot.now) }
    requires extents { are_extents (volume_of g.now) None file.now.extents ≡ true }
    ensures held { OnOk result (ForSome (D.holds disk.old) (λ image. held_in inodes.new ≡ gathered_both (held_in inodes.old) (of_directory (volume_of g.now) image file.now))) }
    ensures cause { HasReadCause (D.faults disk.old) (D.faults disk.new) result }
    ensures disk { OnlyReads D.size D.holds D.write_faults D.writes D.tells_stops D.moment D.may_leave D.left_since disk.old disk.new }
    ensures reads { D.reads disk.new + steps.old ≤ D.reads disk.old + steps.new }
{
    if !is_directory(file) {
        return Ok(());
    }
    match read_directory(alloc, g, disk, slot, file, steps) {
        Ok(found) => match push_directory(file.ino, found, inodes) {
            Ok(()) => Ok(()),
            Err(NoMemory) => Err(PartFault::NoMemory),
        },
        Err(DirectoryFault::ReadFault) => Err(PartFault::ReadFault),
        Err(DirectoryFault::NoMemory) => Err(PartFault::NoMemory),
    }
}

/// Adds what is found of a directory, and its entries.
fn push_directory(ino: u64, found: DirFound, inodes: &mut Inodes) -> Result<(), NoMemory>
    ensures { OnOk result (held_in inodes.new ≡ gathered_both (held_in inodes.old) (of_found ino found)) }
{
    let DirFound {
        parent,
        whole,
        entries,
    } = found;
    let mut entries = entries.into_vec();
    inodes.entries.append(&mut entries)?;
    inodes.dirs.push(DirRec { ino, parent, whole })?;
    Ok(())
}

/// Whether the file is a directory.
fn is_directory(file: &FileRec) -> bool
    ensures { result ≡ is_directory file.now }
{
    file.core.mode >> 12 == DIRECTORY
}
