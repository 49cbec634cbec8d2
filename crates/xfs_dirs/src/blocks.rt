//! The mapped blocks of a directory, read from a disk in file order, each once.

ghost use Rattle.std.specs.Prelude.{◌≡◌, ℕ, ◌+◌, ◌<◌, ◌≤◌, true, None, length, IfOk, OnOk};
ghost use Rattle.std.specs.Option.{ForSome};
ghost use Rattle.xfs_geom.specs.Groups.{block_of_address};
ghost use Rattle.xfs_geom.specs.Volumes.{volume_of};
ghost use Rattle.xfs_disk.specs.Reads.{OnlyReads};
ghost use Rattle.xfs_kinds.specs.FileTrees.{is_extent};
ghost use Rattle.xfs_inode.specs.Files.{are_extents};
ghost use Rattle.xfs_image.specs.Directories.{blocks_of_extent};
ghost use Rattle.xfs_dirs.specs.Answers.{HasDirCause};
ghost use Rattle.xfs_dirs.specs.Gathered.{AreBelow, BlocksInOrder, file_block, found_of, found_nothing, with_file_block, with_file_blocks, blocks_in_extents};

use crate::entries::entries_where;
use crate::found::DirectoryFault;
use crate::gathered::{Gathered, keep_block};
use crate::seals::is_own;
use std::alloc::Global;
use std::sync::ledger::Ledger;
use xfs_collections::Steps;
use xfs_disk::{BLOCK_SIZE, Disk, Failed, NoMemory};
use xfs_geom::Geometry;
use xfs_word::Extent;

/// What the blocks of these extents give, those that are not written yet among them.
pub fn read_extents<D: Disk, L: Ledger>(
    alloc: Global,
    g: &Geometry,
    disk: &mut D,
    dir: u64,
    extents: &[Extent],
    steps: &mut Steps<L>,
) -> Result<Gathered, DirectoryFault>
    requires extents { are_extents (volume_of g.now) None extents.now ≡ true }
    requires inside { g.now.dblocks ≤ D.size disk.old }
    ensures found { IfOk result (λ gathered. ForSome (D.holds disk.old) (λ image. found_of gathered ≡ with_file_blocks (volume_of g.now) dir found_nothing (blocks_in_extents (volume_of g.now) image extents.now))) }
    ensures order { IfOk result (λ gathered. BlocksInOrder gathered.kept) }
    ensures cause { HasDirCause (D.faults disk.old) (D.faults disk.new) result }
    ensures disk { OnlyReads D.size D.holds D.write_faults D.writes D.tells_stops D.moment D.may_leave D.left_since disk.old disk.new }
    ensures reads { D.reads disk.new + steps.old ≤ D.reads disk.old + steps.new }
{
    let mut gathered = Gathered::new(alloc);
    for extent in extents {
        match read_extent(alloc, g, disk, dir, extent, &mut gathered, steps) {
            Ok(()) => {}
            Err(fault) => return Err(fault),
        }
    }
    Ok(gathered)
}

/// Takes up the blocks of an extent.
fn read_extent<D: Disk, L: Ledger>(
    alloc: Global,
    g: &Geometry,
    disk: &mut D,
    dir: u64,
    extent: &Extent,
    gathered: &mut Gathered,
    steps: &mut Steps<L>,
) -> Result<(), DirectoryFault>
    requires extent { is_extent (volume_of g.now) extent.now ≡ true }
    requires inside { g.now.dblocks ≤ D.size disk.old }
    requires below { AreBelow gathered.old.kept extent.now.offset }
    ensures found { OnOk result (ForSome (D.holds disk.old) (λ image. found_of gathered.new ≡ with_file_blocks (volume_of g.now) dir (found_of gathered.old) (blocks_of_extent (volume_of g.now) image extent.now))) }
    ensures below { OnOk result (AreBelow gathered.new.kept (extent.now.offset + extent.now.count)) }
    ensures cause { HasDirCause (D.faults disk.old) (D.faults disk.new) result }
    ensures disk { OnlyReads D.size D.holds D.write_faults D.writes D.tells_stops D.moment D.may_leave D.left_since disk.old disk.new }
    ensures reads { D.reads disk.new + steps.old ≤ D.reads disk.old + steps.new }
{
    let start = start_of(g, extent);
    let mut block = [0; BLOCK_SIZE];
    for i in 0..extent.count {
        steps.tick();
        match disk.read(start + i, &mut block) {
            Ok(()) => {}
            Err(Failed) => return Err(DirectoryFault::ReadFault),
        }
        match take_block(
            alloc,
            g,
            dir,
            start + i,
            extent.offset + i,
            &block,
            gathered,
        ) {
            Ok(()) => {}
            Err(NoMemory) => return Err(DirectoryFault::NoMemory),
        }
    }
    Ok(())
}

/// Takes up a block that was read.
fn take_block(
    alloc: Global,
    g: &Geometry,
    dir: u64,
    place: u64,
    offset: u64,
    block: &[u8],
    gathered: &mut Gathered,
) -> Result<(), NoMemory>
    requires size { length block.now ≡ 4096 }
    requires inside { place < g.now.dblocks }
    requires below { AreBelow gathered.old.kept offset }
    ensures found { OnOk result (found_of gathered.new ≡ with_file_block (volume_of g.now) dir (found_of gathered.old) (file_block place offset block.now)) }
    ensures below { OnOk result (AreBelow gathered.new.kept (offset + 1)) }
{
    let own = is_own(g, dir, place, offset, block);
    let entries = entries_where(alloc, dir, own, offset, block)?;
    gathered.take(entries)?;
    keep_block(alloc, own, offset, block, &mut gathered.kept)?;
    Ok(())
}

/// The number of the first block of an extent.
fn start_of(g: &Geometry, extent: &Extent) -> u64
    requires { is_extent (volume_of g.now) extent.now ≡ true }
    ensures { result ≡ block_of_address g.now.agblocks g.now.agblklog extent.now.start }
{
    let size = 1u64 << g.agblklog;
    let group = (extent.start / size) as u32;
    g.start_of_group(group) + extent.start % size
}
