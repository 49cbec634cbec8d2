//! Whether what was found of directories, and clusters, stand as the calls of `xfs_names` want them.

ghost use Rattle.std.specs.Prelude.{◌≡◌, ℕ, ◌<◌, ◌^◌, false, map, IsTrue};
ghost use Rattle.std.specs.List.{All};
ghost use Rattle.xfs_volume.specs.declared.directories.DirRec.{DirRec};
ghost use Rattle.xfs_naming.specs.Naming.{NumbersAscend};
ghost use Rattle.xfs_links.specs.Entries.{is_kept_node};

use xfs_links::NodeRec;
use xfs_volume::DirRec;

const LIMIT: u64 = 1 << 32;

pub fn are_ordered(dirs: &[DirRec], clusters: &[u64]) -> bool
    ensures dirs { IsTrue result → NumbersAscend 0 (map (λ (d : DirRec). d.ino) dirs.now) }
    ensures clusters { IsTrue result → All (λ (first : ℕ). first < 2 ^ 32) clusters.now }
{
    if !dirs_ascend(dirs) {
        return false;
    }
    clusters.iter().all(|first| *first < LIMIT)
}

fn dirs_ascend(dirs: &[DirRec]) -> bool
    ensures { IsTrue result → NumbersAscend 0 (map (λ (d : DirRec). d.ino) dirs.now) }
{
    let mut low = 0;
    for dir in dirs {
        if dir.ino < low || dir.ino >= LIMIT {
            return false;
        }
        low = dir.ino + 1;
    }
    true
}

/// Whether no file has the number.
pub fn is_free(nodes: &[NodeRec], ino: u64) -> bool
    ensures { IsTrue result → is_kept_node nodes.now ino ≡ false }
{
    if has_number(nodes, ino) {
        return false;
    }
    true
}

fn has_number(nodes: &[NodeRec], ino: u64) -> bool
    ensures { result ≡ is_kept_node nodes.now ino }
{
    nodes.iter().any(|node| node.ino == ino)
}
