//! The root and the system inodes, made anew (chapter "On-disk Inode").

ghost use Rattle.std.specs.Prelude.{◌≡◌, ◌<◌, ◌^◌, IfOk};
ghost use Rattle.xfs_geom.specs.Volumes.{volume_of};
ghost use Rattle.xfs_request.specs.Fresh.{new_slot, new_root_core, new_root_fork, new_root_slot, new_system_core, new_system_slot};

use std::alloc::Global;
use xfs_dirdata::put_short;
use xfs_disk::{NoMemory, Stamp, Word};
use xfs_empty::{fresh_core, time_of};
use xfs_geom::Geometry;
use xfs_inodebuild::ForkWanted;
use xfs_render::{SlotBase, SlotWanted};
use xfs_volume::Core;

/// The bytes of the short form of a directory without entries.
const EMPTY_FORM: usize = 6;

/// A directory with permissions 0755.
const ROOT_MODE: u16 = 0x41ed;

/// A regular file without permissions.
const SYSTEM_MODE: u16 = 0x8000;

/// The flag of the inode of the realtime bitmap.
const NEW_BITMAP: u16 = 4;

/// The core of the root.
fn new_root_core(g: &Geometry, stamp: &Stamp) -> Core
    ensures { result ≡ new_root_core (volume_of g.now) stamp.now }
{
    Core {
        format: 1,
        nlink: 2,
        size: EMPTY_FORM as u64,
        ..fresh_core(g, time_of(stamp), stamp.generation, g.rootino, ROOT_MODE)
    }
}

/// The core of a system inode.
fn new_system_core(g: &Geometry, stamp: &Stamp, ino: u64) -> Core
    requires { g.now.rootino < 2 ^ 32 }
    ensures { result ≡ new_system_core (volume_of g.now) stamp.now ino }
{
    let flags = if ino == g.rootino + 1 { NEW_BITMAP } else { 0 };
    Core {
        flags,
        ..fresh_core(g, time_of(stamp), stamp.generation, ino, SYSTEM_MODE)
    }
}

/// The data fork of the root.
fn new_root_fork(alloc: Global, g: &Geometry) -> Result<ForkWanted, NoMemory>
    requires { g.now.rootino < 2 ^ 32 }
    ensures { IfOk result (λ fork. fork ≡ new_root_fork (volume_of g.now)) }
{
    let mut form = [0; EMPTY_FORM];
    put_short(g.rootino, &[], &mut form);
    Ok(ForkWanted {
        format: 1,
        size: EMPTY_FORM as u64,
        nblocks: 0,
        nextents: 0,
        bytes: Word::from_slice(alloc, &form)?,
    })
}

/// What is wanted of the slot of the root.
fn new_root_slot(alloc: Global, g: &Geometry, stamp: &Stamp) -> Result<SlotWanted, NoMemory>
    requires { g.now.rootino < 2 ^ 32 }
    ensures { IfOk result (λ slot. slot ≡ new_root_slot (volume_of g.now) stamp.now) }
{
    let fork = new_root_fork(alloc, g)?;
    Ok(SlotWanted {
        ino: g.rootino,
        base: SlotBase::Fresh(new_root_core(g, stamp)),
        drop_attrs: None,
        fork: Some(fork),
        nlink: None,
    })
}

/// What is wanted of the slot of a system inode.
fn new_system_slot(g: &Geometry, stamp: &Stamp, ino: u64) -> SlotWanted
    requires { g.now.rootino < 2 ^ 32 }
    ensures { result ≡ new_system_slot (volume_of g.now) stamp.now ino }
{
    SlotWanted {
        ino,
        base: SlotBase::Fresh(new_system_core(g, stamp, ino)),
        drop_attrs: None,
        fork: None,
        nlink: None,
    }
}

/// What is wanted of the slot of an inode that is made anew: of the root, or of a system inode.
pub(crate) fn new_slot(
    alloc: Global,
    g: &Geometry,
    stamp: &Stamp,
    ino: u64,
) -> Result<SlotWanted, NoMemory>
    requires { g.now.rootino < 2 ^ 32 }
    ensures { IfOk result (λ slot. slot ≡ new_slot (volume_of g.now) stamp.now ino) }
{
    if ino == g.rootino {
        return new_root_slot(alloc, g, stamp);
    }
    Ok(new_system_slot(g, stamp, ino))
}
