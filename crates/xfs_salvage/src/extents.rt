//! Whether the extents of a file can be those of a volume (chapter "Data Extents").

ghost use Rattle.std.specs.Prelude.{◌≡◌, ◌<◌, ◌↔◌, None, IsTrue};
ghost use Rattle.std.specs.List.{All};
ghost use Rattle.xfs_geom.specs.Volumes.{volume_of};
ghost use Rattle.xfs_kinds.specs.FileTrees.{bmbt_shape};
ghost use Rattle.xfs_views.specs.xfs_space.Parts.{HasLawfulForks};
ghost use Rattle.xfs_tree.specs.Rules.{are_lawful};

use xfs_geom::Geometry;
use xfs_kinds::Bmbt;
use xfs_tree::Kind;
use xfs_volume::FileRec;
use xfs_word::Extent;

/// Whether all extents of a file, and the tree of them, lie in the volume.
pub(crate) fn is_file(g: &Geometry, file: &FileRec) -> bool
    ensures { IsTrue result ↔ HasLawfulForks (volume_of g.now) file.now }
{
    if !are_extents(g, file.ino, file.extents.as_slice()) {
        return false;
    }
    if !are_extents(g, file.ino, file.rest.attr_extents()) {
        return false;
    }
    are_blocks(g, file.rest.tree())
}

/// Whether the extents of a fork lie in the volume, in file order.
fn are_extents(g: &Geometry, ino: u64, extents: &[Extent]) -> bool
    ensures { result ≡ are_lawful (bmbt_shape ino) (volume_of g.now) None extents.now }
{
    let kind = Bmbt { ino };
    let mut before = None;
    for extent in extents {
        if !kind.lawful(g, before, extent) {
            return false;
        }
        before = Some(extent);
    }
    true
}

/// Whether some blocks lie in the volume.
fn are_blocks(g: &Geometry, blocks: &[u64]) -> bool
    ensures { IsTrue result ↔ All (λ block. block < g.now.dblocks) blocks.now }
{
    for block in blocks {
        if *block >= g.dblocks {
            return false;
        }
    }
    true
}
