//! Extents in the forks of a slot (chapter "Data Extents").

ghost use Rattle.std.specs.Prelude.{◌≡◌, ℕ, ◌+◌, ◌*◌, ◌<◌, ◌≤◌, length, IfSome};
ghost use Rattle.xfs_word.specs.Field.{part_of};
ghost use Rattle.xfs_geom.specs.Volumes.{volume_of};
ghost use Rattle.xfs_kinds.specs.FileTrees.{extent_of};
ghost use Rattle.xfs_inode.specs.Forks.{attr_extent, attr_place, fork_extent, has_attr_extent, has_link_extent, link_place, only_block, core_type};

use crate::forks::fork_bytes;
use crate::layouts::inode::{DATA_FORK, EXTENT_SIZE, SLOT_SIZE};
use crate::support::attribute_start;
use xfs_geom::Geometry;
use xfs_kinds::Bmbt;
use xfs_tree::Kind;
use xfs_volume::Core;
use xfs_word::{Extent, part};

/// The type of a file, in the upper four bits of its mode.
pub fn core_type(core: &Core) -> u16
    ensures { result ≡ core_type core.now }
{
    core.mode / 4096
}

/// An extent of the data fork.
pub fn fork_extent(slot: &[u8], i: usize) -> Extent
    requires { 192 + 16 * i ≤ length slot.now }
    ensures { result ≡ fork_extent slot.now i }
{
    extent_at(slot, DATA_FORK + EXTENT_SIZE * i)
}

/// The block of a leaf of attributes, or `None` where there is none inside the volume.
pub fn attr_place(g: &Geometry, core: &Core, slot: &[u8]) -> Option<u64>
    requires { length slot.now ≡ 512 }
    ensures value { result ≡ attr_place (volume_of g.now) core.now slot.now }
    ensures room { IfSome result (λ _. 192 + 8 * core.now.forkoff ≤ 512) }
    ensures inside { IfSome result (λ block. block < g.now.dblocks) }
{
    if !has_attr_extent(core) {
        return None;
    }
    only_block(g, &attr_extent(core, slot))
}

/// Whether the attribute fork has one extent, and it lies inside the slot.
fn has_attr_extent(core: &Core) -> bool
    ensures { result ≡ has_attr_extent core.now }
{
    if core.forkoff == 0 {
        return false;
    }
    core.aformat == 2
        && core.anextents == 1
        && attribute_start(core.forkoff) + EXTENT_SIZE <= SLOT_SIZE
}

/// The only extent of the attribute fork.
pub fn attr_extent(core: &Core, slot: &[u8]) -> Extent
    requires { 192 + 8 * core.now.forkoff ≤ length slot.now }
    ensures { result ≡ attr_extent core.now slot.now }
{
    extent_at(slot, attribute_start(core.forkoff))
}

/// The block of a symbolic link's target, or `None` where there is none inside the volume.
pub fn link_place(g: &Geometry, core: &Core, slot: &[u8]) -> Option<u64>
    requires { length slot.now ≡ 512 }
    ensures value { result ≡ link_place (volume_of g.now) core.now slot.now }
    ensures inside { IfSome result (λ block. block < g.now.dblocks) }
{
    if !has_link_extent(core) {
        return None;
    }
    only_block(g, &fork_extent(slot, 0))
}

/// Whether the data fork is that of a symbolic link and has one extent, which lies inside the fork.
fn has_link_extent(core: &Core) -> bool
    ensures { result ≡ has_link_extent core.now }
{
    if core_type(core) != 10 || core.format != 2 {
        return false;
    }
    core.nextents == 1 && core.forkoff <= 41 && EXTENT_SIZE <= fork_bytes(core.forkoff)
}

/// The block of an extent of one block, or `None` where it does not lie in the volume.
fn only_block(g: &Geometry, extent: &Extent) -> Option<u64>
    ensures value { result ≡ only_block (volume_of g.now) extent.now }
    ensures inside { IfSome result (λ block. block < g.now.dblocks) }
{
    if extent.count == 1 {
        g.block_of_address(extent.start)
    } else {
        None
    }
}

/// The extent in the 16 bytes from an offset on.
fn extent_at(slot: &[u8], at: usize) -> Extent
    requires { at + 16 ≤ length slot.now }
    ensures { result ≡ extent_of (part_of slot.now at 16) }
{
    Bmbt { ino: 0 }.read_record(part(slot, at, EXTENT_SIZE))
}
