//! The record of a file.

ghost use Rattle.std.specs.Prelude.{◌≡◌, ℕ, ◌≤◌, length, IfSome, IfOk};
ghost use Rattle.std.specs.Option.{option_copied};
ghost use Rattle.xfs_inode.specs.Forks.{core_type};
ghost use Rattle.xfs_inode.specs.Files.{device_of, file_record, target_in, link_target};

use crate::attributes::AttrHeld;
use crate::extents::core_type;
use crate::files::BoxedFile;
use crate::held::DataHeld;
use crate::layouts::inode::{DATA_FORK, DEVICE};
use crate::layouts::link::TARGET;
use std::alloc::{AllocError, Global};
use xfs_volume::{Core, FileRec, Rest};
use xfs_word::{get32, part};

/// The record of a file whose data fork and attribute fork hold this. It is set apart where it is made, so that it need not move.
pub fn file_record(
    alloc: Global,
    ino: u64,
    core: &Core,
    slot: &[u8],
    link: Option<&[u8]>,
    held: DataHeld,
    fork: AttrHeld,
) -> Result<BoxedFile, AllocError>
    requires slot { length slot.now ≡ 512 }
    requires link { IfSome (option_copied link) (λ block. length block ≡ 4096) }
    requires fits { core.now.format ≡ 1 → core.now.size ≤ 336 }
    requires short { core_type core.now ≡ 10 → core.now.format ≡ 2 → core.now.size ≤ 1024 }
    ensures { IfOk result (λ file. file ≡ file_record ino core.now slot.now (option_copied link.entry) held fork) }
{
    let target = link_target(alloc, core, slot, link)?;
    let device = device_of(core, slot);
    let (extents, tree) = held.into_lists();
    let (attrs, attr_extents) = fork.into_lists();
    let rest = Rest::new(alloc, attr_extents, tree, attrs, target, device)?;
    let file = FileRec {
        ino,
        core: *core,
        extents,
        rest,
    };
    BoxedFile::new(alloc, file)
}

/// The target of a symbolic link; empty for another file.
fn link_target(
    alloc: Global,
    core: &Core,
    slot: &[u8],
    link: Option<&[u8]>,
) -> Result<Vec<u8>, AllocError>
    requires slot { length slot.now ≡ 512 }
    requires link { IfSome (option_copied link) (λ block. length block ≡ 4096) }
    requires fits { core.now.format ≡ 1 → core.now.size ≤ 336 }
    requires short { core_type core.now ≡ 10 → core.now.format ≡ 2 → core.now.size ≤ 1024 }
    ensures { IfOk result (λ target. target.items ≡ link_target core.now slot.now (option_copied link.entry)) }
{
    if core_type(core) == 10 && core.format == 1 {
        return Vec::from_slice(alloc, part(slot, DATA_FORK, core.size as usize));
    }
    if core_type(core) == 10 && core.format == 2 {
        return target_in(alloc, core, link);
    }
    Ok(Vec::new(alloc))
}

/// The target that the block of a symbolic link holds.
fn target_in(alloc: Global, core: &Core, link: Option<&[u8]>) -> Result<Vec<u8>, AllocError>
    requires link { IfSome (option_copied link) (λ block. length block ≡ 4096) }
    requires short { core.now.size ≤ 1024 }
    ensures { IfOk result (λ target. target.items ≡ target_in core.now (option_copied link.entry)) }
{
    match link {
        None => Ok(Vec::new(alloc)),
        Some(block) => Vec::from_slice(alloc, part(block, TARGET, core.size as usize)),
    }
}

/// The number of a device; 0 for another file.
fn device_of(core: &Core, slot: &[u8]) -> u32
    requires { length slot.now ≡ 512 }
    ensures { result ≡ device_of core.now slot.now }
{
    if core_type(core) == 2 || core_type(core) == 6 {
        get32(slot, DEVICE.offset)
    } else {
        0
    }
}
