//! Files, read from a disk.

ghost use Rattle.std.specs.Prelude.{◌≡◌, ℕ, ◌+◌, ◌<◌, ◌≤◌, [], ◌∷◌, List, Some, None, false, length, IfSome, IfOk, OnOk, option_map};
ghost use Rattle.std.specs.Option.{ForSome, option_copied};
ghost use Rattle.xfs_disk.specs.Faults.{HasCause};
ghost use Rattle.xfs_geom.specs.Volumes.{volume_of};
ghost use Rattle.xfs_disk.specs.Reads.{OnlyReads};
ghost use Rattle.xfs_disk.specs.Blocks.{bytes_of_block};
ghost use Rattle.xfs_inode.specs.Files.{contents_of};
ghost use Rattle.xfs_inode.specs.Sound.{IsSound};
ghost use Rattle.xfs_inode.specs.Slots.{slot_read};
ghost use Rattle.xfs_inode.specs.Named.{IsTopNamed, HasInodeCause, named_attr, named_link, named_top, slot_reads, tree_below, tree_under};

use crate::deciding::decide_read;
use crate::faults::InodeFault;
use crate::files::FileRead;
use crate::named::Needs;
use crate::naming::needs_of;
use crate::reading::{SlotRead, read_slot};
use std::alloc::Global;
use std::sync::ledger::Ledger;
use xfs_collections::Steps;
use xfs_disk::{BLOCK_SIZE, Disk, Failed, NoMemory};
use xfs_geom::Geometry;
use xfs_kinds::Bmbt;
use xfs_tree::{Frontier, Tree, TreeFault, read_below};

/// What the slot of an inode, of 512 bytes, reads as with the blocks of the disk that it names (chapter "On-disk
/// Inode"). `ReadFault` only where a read failed. Each block that is read counts as a step, also where the read
/// fails.
pub fn read_file<D: Disk, L: Ledger>(
    alloc: Global,
    g: &Geometry,
    disk: &mut D,
    ino: u64,
    slot: &[u8],
    steps: &mut Steps<L>,
) -> Result<FileRead, InodeFault>
    requires slot { length slot.now ≡ 512 }
    requires inside { g.now.dblocks ≤ D.size disk.old }
    ensures read { IfOk result (λ read. ForSome (D.holds disk.old) (λ image. read ≡ slot_reads (volume_of g.now) image ino slot.now)) }
    ensures sound { IfOk result (λ read. IsSound (volume_of g.now) ino read) }
    ensures cause { HasInodeCause (D.faults disk.old) (D.faults disk.new) result }
    ensures disk { OnlyReads D.size D.holds D.write_faults D.writes D.tells_stops D.moment D.may_leave D.left_since disk.old disk.new }
    ensures reads { D.reads disk.new + steps.old ≤ D.reads disk.old + steps.new }
{
    let read = read_slot(g, ino, slot);
    read_file_of(alloc, g, disk, ino, slot, &read, steps)
}

/// The same of a slot that reads so by itself.
pub fn read_file_of<D: Disk, L: Ledger>(
    alloc: Global,
    g: &Geometry,
    disk: &mut D,
    ino: u64,
    slot: &[u8],
    read: &SlotRead,
    steps: &mut Steps<L>,
) -> Result<FileRead, InodeFault>
    requires slot { length slot.now ≡ 512 }
    requires itself { read.now ≡ slot_read (volume_of g.now) ino slot.now }
    requires inside { g.now.dblocks ≤ D.size disk.old }
    ensures read { IfOk result (λ file. ForSome (D.holds disk.old) (λ image. file ≡ slot_reads (volume_of g.now) image ino slot.now)) }
    ensures sound { IfOk result (λ file. IsSound (volume_of g.now) ino file) }
    ensures cause { HasInodeCause (D.faults disk.old) (D.faults disk.new) result }
    ensures disk { OnlyReads D.size D.holds D.write_faults D.writes D.tells_stops D.moment D.may_leave D.left_since disk.old disk.new }
    ensures reads { D.reads disk.new + steps.old ≤ D.reads disk.old + steps.new }
{
    match needs_of(alloc, g, ino, slot, read) {
        Ok(needs) => read_needed(alloc, g, disk, ino, slot, read, &needs, steps),
        Err(NoMemory) => Err(InodeFault::NoMemory),
    }
}

/// What a slot reads as, with the blocks that it names read.
fn read_needed<D: Disk, L: Ledger>(
    alloc: Global,
    g: &Geometry,
    disk: &mut D,
    ino: u64,
    slot: &[u8],
    read: &SlotRead,
    needs: &Needs,
    steps: &mut Steps<L>,
) -> Result<FileRead, InodeFault>
    requires slot { length slot.now ≡ 512 }
    requires itself { read.now ≡ slot_read (volume_of g.now) ino slot.now }
    requires inside { g.now.dblocks ≤ D.size disk.old }
    requires top { IsTopNamed (named_top (volume_of g.now) ino slot.now) needs.now.top }
    requires attr_leaf { needs.now.attr_leaf ≡ named_attr (volume_of g.now) ino slot.now }
    requires link { needs.now.link ≡ named_link (volume_of g.now) ino slot.now }
    requires attr_inside { IfSome needs.now.attr_leaf (λ block. block < g.now.dblocks) }
    requires link_inside { IfSome needs.now.link (λ block. block < g.now.dblocks) }
    ensures read { IfOk result (λ read. ForSome (D.holds disk.old) (λ image. read ≡ slot_reads (volume_of g.now) image ino slot.now)) }
    ensures sound { IfOk result (λ read. IsSound (volume_of g.now) ino read) }
    ensures cause { HasInodeCause (D.faults disk.old) (D.faults disk.new) result }
    ensures disk { OnlyReads D.size D.holds D.write_faults D.writes D.tells_stops D.moment D.may_leave D.left_since disk.old disk.new }
    ensures reads { D.reads disk.new + steps.old ≤ D.reads disk.old + steps.new }
{
    let tree = match read_top(alloc, g, disk, ino, &needs.top, steps) {
        Ok(tree) => tree,
        Err(fault) => return Err(fault),
    };
    if names_blocks(needs) {
        return read_blocks(alloc, g, disk, ino, slot, read, needs, tree.as_ref(), steps);
    }
    match decide_read(alloc, g, ino, slot, read, tree.as_ref(), None, None) {
        Ok(file) => Ok(file),
        Err(NoMemory) => Err(InodeFault::NoMemory),
    }
}

/// Whether a slot names a block beside those of a tree, which most do not.
fn names_blocks(needs: &Needs) -> bool
    ensures attr_leaf { result ≡ false → needs.now.attr_leaf ≡ None }
    ensures link { result ≡ false → needs.now.link ≡ None }
{
    needs.attr_leaf.is_some() || needs.link.is_some()
}

/// What a slot reads as, with the blocks that it names beside those of a tree read.
fn read_blocks<D: Disk, L: Ledger>(
    alloc: Global,
    g: &Geometry,
    disk: &mut D,
    ino: u64,
    slot: &[u8],
    read: &SlotRead,
    needs: &Needs,
    tree: Option<&Tree<Bmbt>>,
    steps: &mut Steps<L>,
) -> Result<FileRead, InodeFault>
    requires slot { length slot.now ≡ 512 }
    requires itself { read.now ≡ slot_read (volume_of g.now) ino slot.now }
    requires inside { g.now.dblocks ≤ D.size disk.old }
    requires tree { ForSome (D.holds disk.old) (λ image. option_map contents_of (option_copied tree) ≡ tree_under (volume_of g.now) image ino (named_top (volume_of g.now) ino slot.now)) }
    requires attr_leaf { needs.now.attr_leaf ≡ named_attr (volume_of g.now) ino slot.now }
    requires link { needs.now.link ≡ named_link (volume_of g.now) ino slot.now }
    requires attr_inside { IfSome needs.now.attr_leaf (λ block. block < g.now.dblocks) }
    requires link_inside { IfSome needs.now.link (λ block. block < g.now.dblocks) }
    ensures read { IfOk result (λ read. ForSome (D.holds disk.old) (λ image. read ≡ slot_reads (volume_of g.now) image ino slot.now)) }
    ensures sound { IfOk result (λ read. IsSound (volume_of g.now) ino read) }
    ensures cause { HasInodeCause (D.faults disk.old) (D.faults disk.new) result }
    ensures disk { OnlyReads D.size D.holds D.write_faults D.writes D.tells_stops D.moment D.may_leave D.left_since disk.old disk.new }
    ensures reads { D.reads disk.new + steps.old ≤ D.reads disk.old + steps.new }
{
    let mut attr_leaf = [0; BLOCK_SIZE];
    match read_named(g, disk, needs.attr_leaf, &mut attr_leaf, steps) {
        Ok(()) => {}
        Err(Failed) => return Err(InodeFault::ReadFault),
    }
    let mut link = [0; BLOCK_SIZE];
    match read_named(g, disk, needs.link, &mut link, steps) {
        Ok(()) => {}
        Err(Failed) => return Err(InodeFault::ReadFault),
    }
    match decide_read(
        alloc,
        g,
        ino,
        slot,
        read,
        tree,
        given(needs.attr_leaf, &attr_leaf),
        given(needs.link, &link),
    ) {
        Ok(file) => Ok(file),
        Err(NoMemory) => Err(InodeFault::NoMemory),
    }
}

/// What reads from the level under the root of a data fork, where there is one and it reads.
fn read_top<D: Disk, L: Ledger>(
    alloc: Global,
    g: &Geometry,
    disk: &mut D,
    ino: u64,
    top: &Option<Frontier<Bmbt>>,
    steps: &mut Steps<L>,
) -> Result<Option<Tree<Bmbt>>, InodeFault>
    requires { g.now.dblocks ≤ D.size disk.old }
    ensures read { IfOk result (λ tree. ForSome (D.holds disk.old) (λ image. option_map contents_of tree ≡ tree_below (volume_of g.now) image ino top.now)) }
    ensures cause { HasInodeCause (D.faults disk.old) (D.faults disk.new) result }
    ensures disk { OnlyReads D.size D.holds D.write_faults D.writes D.tells_stops D.moment D.may_leave D.left_since disk.old disk.new }
    ensures reads { D.reads disk.new + steps.old ≤ D.reads disk.old + steps.new }
{
    match top {
        None => Ok(None),
        Some(top) => match read_below(alloc, &Bmbt { ino }, g, disk, top, steps) {
            Ok(tree) => Ok(Some(tree)),
            Err(TreeFault::Unread(_)) => Ok(None),
            Err(TreeFault::ReadFault) => Err(InodeFault::ReadFault),
            Err(TreeFault::NoMemory) => Err(InodeFault::NoMemory),
        },
    }
}

/// Reads a block, where one is named, and counts it as a step.
fn read_named<D: Disk, L: Ledger>(
    g: &Geometry,
    disk: &mut D,
    named: Option<u64>,
    block: &mut [u8],
    steps: &mut Steps<L>,
) -> Result<(), Failed>
    requires inside { g.now.dblocks ≤ D.size disk.old }
    requires named { IfSome named (λ place. place < g.now.dblocks) }
    requires block { length block.old ≡ 4096 }
    ensures bytes { OnOk result (ForSome (D.holds disk.old) (λ image. IfSome named (λ place. bytes_of_block image place ≡ block.new))) }
    ensures whole { length block.new ≡ 4096 }
    ensures cause { HasCause (D.faults disk.old) (D.faults disk.new) result }
    ensures disk { OnlyReads D.size D.holds D.write_faults D.writes D.tells_stops D.moment D.may_leave D.left_since disk.old disk.new }
    ensures reads { D.reads disk.new + steps.old ≤ D.reads disk.old + steps.new }
    ensures ticks { steps.new ≤ steps.old + 1 }
{
    match named {
        None => Ok(()),
        Some(place) => {
            steps.tick();
            match disk.read(place, block) {
                Ok(()) => Ok(()),
                Err(Failed) => Err(Failed),
            }
        }
    }
}

/// The bytes of a block, where one is named.
fn given(named: Option<u64>, block: &[u8]) -> Option<&[u8]>
    ensures { option_copied result ≡ option_map (λ _. block.now) named }
{
    match named {
        None => None,
        Some(_) => Some(block),
    }
}
