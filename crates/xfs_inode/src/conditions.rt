//! The rules that the core of a file keeps (chapter "On-disk Inode").

ghost use Rattle.std.specs.Prelude.{◌≡◌, ℕ, ◌<◌, ◌≤◌, ◌+◌, ◌*◌, length, true, IfSome};
ghost use Rattle.std.specs.Option.{option_copied};
ghost use Rattle.xfs_geom.specs.Volumes.{volume_of};
ghost use Rattle.xfs_inode.specs.Files.{device_of, has_format, has_forkoff, has_link_target, holds_target, is_core, is_link, is_local_whole, link_seal, states_no_fork};
ghost use Rattle.xfs_inode.specs.Forks.{link_place, core_type};

use crate::extents::{core_type, fork_extent, link_place};
use crate::forks::fork_bytes;
use crate::layouts::link::{BYTES, LONGEST_TARGET, OFFSET};
use xfs_geom::Geometry;
use xfs_volume::Core;
use xfs_word::{Seal, SealKind, get32, sealed};

/// Whether a core is that of a file.
pub fn is_core(core: &Core) -> bool
    ensures value { result ≡ is_core core.now }
    ensures forkoff { result ≡ true → core.now.forkoff ≤ 41 }
    ensures fits { result ≡ true → core.now.format ≡ 1 → core.now.size ≤ 336 }
{
    if !has_format(core_type(core), core.format) || !has_forkoff(core_type(core), core.forkoff) {
        return false;
    }
    if core.size >= 1 << 63 {
        return false;
    }
    if core.forkoff == 0 && !states_no_fork(core) {
        return false;
    }
    is_local_whole(core)
}

/// Whether a data fork of a type of file can have a format.
fn has_format(kind: u16, format: u8) -> bool
    ensures { result ≡ has_format kind format }
{
    match kind {
        8 => format == 2 || format == 3,
        4 => format == 1 || format == 2 || format == 3,
        10 => format == 1 || format == 2,
        1 | 2 | 6 | 12 => format == 0,
        _ => false,
    }
}

/// Whether the attribute fork begins inside the slot, and for a directory behind 48 bytes or more.
fn has_forkoff(kind: u16, forkoff: u8) -> bool
    ensures { result ≡ has_forkoff kind forkoff }
{
    forkoff <= 41 && (kind != 4 || forkoff == 0 || 6 <= forkoff)
}

/// Whether a core states no attribute fork.
fn states_no_fork(core: &Core) -> bool
    ensures { result ≡ states_no_fork core.now }
{
    core.anextents == 0 && (core.aformat == 0 || core.aformat == 2)
}

/// Whether what a data fork in the inode itself holds fits it, and the target of a symbolic link has some bytes.
fn is_local_whole(core: &Core) -> bool
    ensures value { result ≡ is_local_whole core.now }
    ensures fits { result ≡ true → core.now.forkoff ≤ 41 → core.now.format ≡ 1 → core.now.size ≤ 336 }
{
    if core.format != 1 {
        return true;
    }
    core.size <= fork_bytes(core.forkoff) as u64 && (core_type(core) != 10 || 1 <= core.size)
}

/// Whether a symbolic link of one block has one that holds its target.
pub fn has_link_target(
    g: &Geometry,
    ino: u64,
    core: &Core,
    slot: &[u8],
    link: Option<&[u8]>,
) -> bool
    requires slot { length slot.now ≡ 512 }
    requires link { IfSome (option_copied link) (λ block. length block ≡ 4096) }
    ensures value { result ≡ has_link_target (volume_of g.now) ino core.now slot.now (option_copied link.entry) }
    ensures short { result ≡ true → core_type core.now ≡ 10 → core.now.format ≡ 2 → core.now.size ≤ 1024 }
{
    if core_type(core) != 10 || core.format != 2 {
        return true;
    }
    match (link_place(g, core, slot), link) {
        (Some(place), Some(block)) => holds_target(g, ino, core, slot, place, block),
        _ => false,
    }
}

/// Whether the block of a symbolic link, at its place, holds the whole target (chapter "Symbolic Links").
fn holds_target(g: &Geometry, ino: u64, core: &Core, slot: &[u8], place: u64, block: &[u8]) -> bool
    requires slot { length slot.now ≡ 512 }
    requires place { place < g.now.dblocks }
    requires block { length block.now ≡ 4096 }
    ensures value { result ≡ holds_target (volume_of g.now) ino core.now slot.now place block.now }
    ensures short { result ≡ true → core.now.size ≤ 1024 }
{
    if core.size < 1 || core.size > LONGEST_TARGET || fork_extent(slot, 0).offset != 0 {
        return false;
    }
    if !sealed(&link_seal(g, ino, place), block) {
        return false;
    }
    get32(block, OFFSET.offset) == 0 && get32(block, BYTES.offset) as u64 == core.size
}

/// The seal of the block of a symbolic link.
fn link_seal(g: &Geometry, ino: u64, place: u64) -> Seal
    requires { place < g.now.dblocks }
    ensures { result ≡ link_seal (volume_of g.now) ino place }
{
    Seal {
        kind: SealKind::Symlink,
        place: 8 * place,
        owner: Some(ino),
        uuid: g.uuid,
    }
}
