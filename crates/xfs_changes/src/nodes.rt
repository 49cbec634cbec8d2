//! The files of a volume as nodes of its tree of names, and the first inodes of its clusters.

ghost use Rattle.std.specs.Prelude.{◌≡◌, ◌++◌, ◌<◌, ◌^◌, [], ◌∷◌, true, IfOk, IsTrue, OnOk};
ghost use Rattle.std.specs.List.{All};
ghost use Rattle.xfs_geom.specs.Volumes.{volume_of};
ghost use Rattle.xfs_links.specs.Entries.{AreEntries, AreFiles, NodesAscend, is_directory_number};
ghost use Rattle.xfs_names.specs.Having.{node_of};
ghost use Rattle.xfs_changes.specs.Nodes.{first_of_cluster, firsts_of_clusters, nodes_of_files};

use std::alloc::Global;
use xfs_dirdata::EntryRec;
use xfs_disk::NoMemory;
use xfs_geom::Geometry;
use xfs_links::NodeRec;
use xfs_names::is_directory_near;
use xfs_volume::FileRec;

/// The files, each by its number and kind.
pub fn nodes_of_files(alloc: Global, files: &[FileRec]) -> Result<Vec<NodeRec>, NoMemory>
    ensures { IfOk result (λ nodes. nodes.items ≡ nodes_of_files files.now) }
{
    let mut nodes = Vec::new(alloc);
    for file in files {
        nodes.push(node_of(file))?;
    }
    Ok(nodes)
}

/// A file by its number and kind.
fn node_of(file: &FileRec) -> NodeRec
    ensures { result ≡ node_of file.now }
{
    NodeRec {
        ino: file.ino,
        kind: (file.core.mode >> 12) as u8,
    }
}

/// The first inode of each cluster. `NoMemory` where memory is wanting, or where a cluster lies outside the volume.
pub fn firsts_of_clusters(
    alloc: Global,
    g: &Geometry,
    clusters: &[u64],
) -> Result<Vec<u64>, NoMemory>
    ensures inodes { IfOk result (λ inodes. inodes.items ≡ firsts_of_clusters (volume_of g.now) clusters.now) }
    ensures low { IfOk result (λ inodes. All (λ first. first < 2 ^ 32) inodes.items) }
{
    let mut inodes = Vec::new(alloc);
    for cluster in clusters {
        push_inode(g, *cluster, &mut inodes)?;
    }
    Ok(inodes)
}

/// Adds the first inode of a cluster.
fn push_inode(g: &Geometry, cluster: u64, inodes: &mut Vec<u64>) -> Result<(), NoMemory>
    requires low { All (λ first. first < 2 ^ 32) inodes.old.items }
    ensures more { OnOk result (inodes.new.items ≡ inodes.old.items ++ first_of_cluster (volume_of g.now) cluster ∷ []) }
    ensures low { OnOk result (All (λ first. first < 2 ^ 32) inodes.new.items) }
{
    if cluster >= g.dblocks {
        return Err(NoMemory);
    }
    inodes.push(g.inode_of_slot(cluster, 0))?;
    Ok(())
}

/// Whether names can be decided for these files and entries: files ascend by number, entries stand by directory and are of
/// directories among the files, and the root is one. So it is of what is kept of any image.
pub fn can_connect(nodes: &[NodeRec], entries: &[EntryRec], root: u64) -> bool
    ensures files { IsTrue result → AreFiles nodes.now }
    ensures entries { IsTrue result → AreEntries nodes.now entries.now }
    ensures root { IsTrue result → is_directory_number nodes.now root ≡ true }
{
    are_files(nodes) && are_entries(nodes, entries) && is_directory_near(nodes, &mut 0, root)
}

/// Whether files ascend by numbers below 2^32.
fn are_files(nodes: &[NodeRec]) -> bool
    ensures { IsTrue result → AreFiles nodes.now }
{
    if nodes.len() >= 1 << 32 {
        return false;
    }
    let mut least = 0;
    for node in nodes {
        if node.ino < least || node.ino >= 1 << 32 {
            return false;
        }
        least = node.ino + 1;
    }
    true
}

/// Whether entries stand by directory, each of a directory among the files.
fn are_entries(nodes: &[NodeRec], entries: &[EntryRec]) -> bool
    requires { NodesAscend 0 nodes.now }
    ensures { IsTrue result → AreEntries nodes.now entries.now }
{
    let mut near = 0;
    let mut least = 0;
    for entry in entries {
        if entry.dir < least || !is_directory_near(nodes, &mut near, entry.dir) {
            return false;
        }
        near = near.saturating_sub(1);
        least = entry.dir;
    }
    true
}
