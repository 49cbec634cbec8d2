//! What the parts of a catalog keep by themselves, before any law.

ghost use Rattle.std.specs.Prelude.{◌≡◌, ◌<◌, ◌≤◌, ◌↔◌, length, None, IsTrue};
ghost use Rattle.std.specs.List.{All};
ghost use Rattle.xfs_geom.specs.Volumes.{volume_of};
ghost use Rattle.xfs_tree.specs.Rules.{are_lawful};
ghost use Rattle.xfs_space.specs.Parts.{AreGroups, AreOfGroup, HasLawfulForks, IsLawfulGroup};
ghost use Rattle.xfs_volume.specs.declared.catalogs.BlockLsn.{BlockLsn};
ghost use Rattle.xfs_volume.specs.declared.groups.TreeBlocks.{TreeBlocks};

use xfs_geom::Geometry;
use xfs_kinds::{Bmbt, Bno, Cnt, Fino, Ino, Rmap};
use xfs_tree::Kind;
use xfs_volume::{BlockLsn, FileRec, GroupRec, TreeBlocks};

/// The trees of a group.
const TREES: usize = 5;

/// The entries of a free list.
const ENTRIES: u32 = 119;

/// Whether the groups of a volume, from the first on, are sound by themselves.
pub fn are_groups(g: &Geometry, groups: &[GroupRec]) -> bool
    requires { length groups.now ≤ g.now.agcount }
    ensures { IsTrue result ↔ AreGroups (volume_of g.now) 0 groups.now }
{
    let mut ag = 0;
    for group in groups {
        if !is_group(g, ag, group) {
            return false;
        }
        ag += 1;
    }
    true
}

/// Whether a group is sound by itself: its free list names blocks of the group, the records of its trees are lawful, and
/// its trees stand in the group.
fn is_group(g: &Geometry, ag: u32, group: &GroupRec) -> bool
    requires { ag < g.now.agcount }
    ensures { IsTrue result ↔ IsLawfulGroup (volume_of g.now) ag group.now }
{
    if group.agfl.count > ENTRIES {
        return false;
    }
    if !group.agfl.has_blocks(g, ag) {
        return false;
    }
    if !are_lawful(&Bno { ag }, g, group.bno.as_slice()) {
        return false;
    }
    if !are_lawful(&Cnt { ag }, g, group.cnt.as_slice()) {
        return false;
    }
    if !are_lawful(&Ino { ag }, g, group.ino.as_slice()) {
        return false;
    }
    if !are_lawful(&Fino { ag }, g, group.fino.as_slice()) {
        return false;
    }
    if !are_lawful(&Rmap { ag }, g, group.rmap.as_slice()) {
        return false;
    }
    if group.blocks.as_slice().len() != TREES {
        return false;
    }
    are_trees(g, ag, group.blocks.as_slice())
}

/// Whether some records are lawful in their order.
fn are_lawful<K: Kind>(kind: &K, g: &Geometry, records: &[K::Record]) -> bool
    ensures { result ≡ are_lawful (K.shape kind.now) (volume_of g.now) None records.now }
{
    let mut before = None;
    for record in records {
        if !kind.lawful(g, before, record) {
            return false;
        }
        before = Some(record);
    }
    true
}

/// Whether all blocks of some trees lie in a group.
fn are_trees(g: &Geometry, ag: u32, trees: &[TreeBlocks]) -> bool
    ensures { IsTrue result ↔ All (λ (tree : TreeBlocks). AreOfGroup (volume_of g.now) ag tree.blocks) trees.now }
{
    for tree in trees {
        if !are_of_group(g, ag, tree.blocks.as_slice()) {
            return false;
        }
    }
    true
}

/// Whether some blocks lie in a group.
fn are_of_group(g: &Geometry, ag: u32, blocks: &[u64]) -> bool
    ensures { IsTrue result ↔ AreOfGroup (volume_of g.now) ag blocks.now }
{
    for block in blocks {
        if *block >= g.dblocks || *block / g.agblocks as u64 != ag as u64 {
            return false;
        }
    }
    true
}

/// Whether some files are sound by themselves: their extents are lawful and their trees stand in the volume.
pub fn are_files(g: &Geometry, files: &[FileRec]) -> bool
    ensures { IsTrue result ↔ All (HasLawfulForks (volume_of g.now)) files.now }
{
    for file in files {
        if !is_file(g, file) {
            return false;
        }
    }
    true
}

/// Whether a file is sound by itself.
fn is_file(g: &Geometry, file: &FileRec) -> bool
    ensures { IsTrue result ↔ HasLawfulForks (volume_of g.now) file.now }
{
    let kind = Bmbt { ino: file.ino };
    if !are_lawful(&kind, g, file.extents.as_slice()) {
        return false;
    }
    if !are_lawful(&kind, g, file.rest.attr_extents()) {
        return false;
    }
    are_of_volume(g, file.rest.tree())
}

/// Whether some blocks lie in the volume.
fn are_of_volume(g: &Geometry, blocks: &[u64]) -> bool
    ensures { IsTrue result ↔ All (λ block. block < g.now.dblocks) blocks.now }
{
    for block in blocks {
        if *block >= g.dblocks {
            return false;
        }
    }
    true
}

/// Whether some log sequence numbers stand in blocks of the volume.
pub fn are_lsns(g: &Geometry, lsns: &[BlockLsn]) -> bool
    ensures { IsTrue result ↔ All (λ (l : BlockLsn). l.block < g.now.dblocks) lsns.now }
{
    for lsn in lsns {
        if lsn.block >= g.dblocks {
            return false;
        }
    }
    true
}
