//! The blocks of directories, of symbolic links and of the data of files (chapters "Directories" and "Symbolic Links").

ghost use Rattle.std.specs.Prelude.{◌≡◌, ◌<◌, ◌*◌, [], length, slice_index_or, All, OnOk};
ghost use Rattle.xfs_geom.specs.Volumes.{volume_of};
ghost use Rattle.xfs_render.specs.Drafts.{IsDraft};
ghost use Rattle.xfs_render.specs.Objects.{AddsObject, AddsObjects, IsObjectBlock, IsSealedBlock, directory_kind, object_seal};

use crate::draft::Draft;
use crate::object_blocks::ObjectBlock;
use crate::object_seals::{seal_data, seal_free, seal_index, seal_link};
use xfs_collections::BlockList;
use xfs_disk::{BLOCK_SIZE, NoMemory};
use xfs_geom::Geometry;
use xfs_place::ObjectKind;
use xfs_word::SealKind;

/// Puts down the blocks of objects, made of the blocks that were built for them.
pub fn add_objects(
    g: &Geometry,
    blocks: &[ObjectBlock],
    built: &BlockList,
    draft: &mut Draft,
) -> Result<(), NoMemory>
    requires count { length built.now ≡ length blocks.now }
    requires inside { All (λ at. at.place < g.now.dblocks) blocks.now }
    requires draft { IsDraft draft.old }
    ensures { OnOk result (AddsObjects (volume_of g.now) blocks.now built.now (length blocks.now) draft.old draft.new) }
{
    for (j, at) in blocks.iter().enumerate() {
        add_object(g, at, built, j, draft)?;
    }
    Ok(())
}

/// Puts down the block of an object, made of a block of a list. Data of a file takes no bytes.
fn add_object(
    g: &Geometry,
    at: &ObjectBlock,
    built: &BlockList,
    j: usize,
    draft: &mut Draft,
) -> Result<(), NoMemory>
    requires inside { at.now.place < g.now.dblocks }
    requires built { j < length built.now }
    requires draft { IsDraft draft.old }
    ensures { OnOk result (AddsObject (volume_of g.now) at.now (slice_index_or built.now j []) draft.old draft.new) }
{
    match at.kind {
        ObjectKind::Data => draft.add_shared(at.place, built, j),
        ObjectKind::Directory | ObjectKind::Symlink => add_built(g, at, built, j, draft),
    }
}

/// Puts down the block of an object, made of a block of a list, with bytes of its own.
fn add_built(
    g: &Geometry,
    at: &ObjectBlock,
    built: &BlockList,
    j: usize,
    draft: &mut Draft,
) -> Result<(), NoMemory>
    requires inside { at.now.place < g.now.dblocks }
    requires built { j < length built.now }
    requires draft { IsDraft draft.old }
    ensures { OnOk result (AddsObject (volume_of g.now) at.now (slice_index_or built.now j []) draft.old draft.new) }
{
    add_sealed(g, at, built.view(j), draft)
}

/// Puts down the block of an object, made of what was built for it, with bytes of its own.
fn add_sealed(
    g: &Geometry,
    at: &ObjectBlock,
    built: &[u8],
    draft: &mut Draft,
) -> Result<(), NoMemory>
    requires inside { at.now.place < g.now.dblocks }
    requires built { length built.now ≡ 4096 }
    requires draft { IsDraft draft.old }
    ensures { OnOk result (AddsObject (volume_of g.now) at.now built.now draft.old draft.new) }
{
    let mut block = [0; BLOCK_SIZE];
    put_object(g, at, built, &mut block);
    draft.add_block(at.place, &block)
}

/// Writes the block of an object: what was built for it, and sealed for its owner at its place, unless it is data of a file.
fn put_object(g: &Geometry, at: &ObjectBlock, built: &[u8], block: &mut [u8])
    requires inside { at.now.place < g.now.dblocks }
    requires built { length built.now ≡ 4096 }
    requires block { length block.old ≡ 4096 }
    ensures { IsObjectBlock (volume_of g.now) at.now built.now block.new }
{
    block.copy_from_slice(built);
    match at.kind {
        ObjectKind::Directory => seal_directory(g, at, block),
        ObjectKind::Symlink => seal_link(g, at, block),
        ObjectKind::Data => {}
    }
}

/// Seals a block of a directory, by its magic number.
fn seal_directory(g: &Geometry, at: &ObjectBlock, block: &mut [u8])
    requires inside { at.now.place < g.now.dblocks }
    requires block { length block.old ≡ 4096 }
    ensures { IsSealedBlock (object_seal (volume_of g.now) (directory_kind block.old) at.now) block.old block.new }
{
    if SealKind::DirData.is_magic_right(block) {
        seal_data(g, at, block);
    } else if SealKind::DirFree.is_magic_right(block) {
        seal_free(g, at, block);
    } else {
        seal_index(g, at, block);
    }
}
