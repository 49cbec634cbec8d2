//! Seals of the blocks of a directory.

ghost use Rattle.std.specs.Prelude.{◌≡◌, ◌*◌, ◌<◌, length, Some};
ghost use Rattle.xfs_word.specs.Seal.{is_sealed, layout_of};
ghost use Rattle.xfs_geom.specs.Volumes.{volume_of};
ghost use Rattle.xfs_image.specs.Directories.{is_own, is_sealed_as};
ghost use Rattle.xfs_dirs.specs.Gathered.{file_block};

use xfs_dirindex::layouts::index_block::{LEAF_MAGIC, NODE_LEAF_MAGIC, NODE_MAGIC};
use xfs_dirindex::layouts::{FREE_START, INDEX_START};
use xfs_geom::Geometry;
use xfs_word::{Seal, SealKind, sealed};

/// Whether block `place` of the volume, which stands at block `offset` of the directory's file, is sealed for the directory
/// as what it has to be there: a data block, a free block, or a block of the index (chapter "Directories").
pub fn is_own(g: &Geometry, dir: u64, place: u64, offset: u64, block: &[u8]) -> bool
    requires size { length block.now ≡ 4096 }
    requires inside { place < g.now.dblocks }
    ensures { result ≡ is_own (volume_of g.now) dir (file_block place offset block.now) }
{
    if offset < INDEX_START {
        return is_sealed_as(g, dir, place, SealKind::DirData, block);
    }
    if offset >= FREE_START {
        return is_sealed_as(g, dir, place, SealKind::DirFree, block);
    }
    is_index_sealed(g, dir, place, LEAF_MAGIC, block)
        || is_index_sealed(g, dir, place, NODE_LEAF_MAGIC, block)
        || is_index_sealed(g, dir, place, NODE_MAGIC, block)
}

/// Whether a block is sealed for the directory as a block of an index with this magic number.
fn is_index_sealed(g: &Geometry, dir: u64, place: u64, magic: u16, block: &[u8]) -> bool
    requires size { length block.now ≡ 4096 }
    requires inside { place < g.now.dblocks }
    ensures { result ≡ is_sealed (record { kind = SealKind.Index magic; place = 8 * place; owner = Some dir; uuid = g.now.uuid }) block.now }
{
    is_sealed_as(g, dir, place, SealKind::Index { magic }, block)
}

/// Whether a block is sealed for the directory as one of this kind.
fn is_sealed_as(g: &Geometry, dir: u64, place: u64, kind: SealKind, block: &[u8]) -> bool
    requires size { length block.now ≡ (layout_of kind).size }
    requires inside { place < g.now.dblocks }
    ensures { result ≡ is_sealed (record { kind = kind; place = 8 * place; owner = Some dir; uuid = g.now.uuid }) block.now }
{
    let seal = Seal {
        kind,
        place: 8 * place,
        owner: Some(dir),
        uuid: g.uuid,
    };
    sealed(&seal, block)
}
