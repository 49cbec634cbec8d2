//! Whether files are as the check wants them.

ghost use Rattle.std.specs.Prelude.{◌≡◌, ◌<◌, None, IsTrue};
ghost use Rattle.std.specs.List.{All};
ghost use Rattle.xfs_geom.specs.Volumes.{volume_of};
ghost use Rattle.xfs_tree.specs.Rules.{are_lawful};
ghost use Rattle.xfs_space.specs.Parts.{HasLawfulForks};

use xfs_geom::Geometry;
use xfs_kinds::Bmbt;
use xfs_tree::Kind;
use xfs_volume::FileRec;

/// Whether each record is lawful behind the one in front of it.
fn are_lawful<K: Kind>(kind: &K, g: &Geometry, records: &[K::Record]) -> bool
    ensures { result ≡ are_lawful (K.shape kind.now) (volume_of g.now) None records.now }
{
    let mut before = None;
    for item in records {
        if !kind.lawful(g, before.as_ref(), item) {
            return false;
        }
        before = Some(*item);
    }
    true
}

/// Whether a file has lawful extents.
fn is_file(g: &Geometry, file: &FileRec) -> bool
    ensures { IsTrue result → HasLawfulForks (volume_of g.now) file.now }
{
    let kind = Bmbt { ino: file.ino };
    are_lawful(&kind, g, file.extents.as_slice())
        && are_lawful(&kind, g, file.rest.attr_extents())
        && are_inside(g, file.rest.tree())
}

/// Whether the blocks are those of the volume.
fn are_inside(g: &Geometry, blocks: &[u64]) -> bool
    ensures { IsTrue result → All (λ block. block < g.now.dblocks) blocks.now }
{
    blocks.iter().all(|block| *block < g.dblocks)
}

/// Whether the files have lawful extents.
pub fn are_files(g: &Geometry, files: &[FileRec]) -> bool
    ensures { IsTrue result → All (HasLawfulForks (volume_of g.now)) files.now }
{
    for file in files {
        if !is_file(g, file) {
            return false;
        }
    }
    true
}
