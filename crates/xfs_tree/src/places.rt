//! Which blocks can be of a tree, and how they are sealed and linked.

ghost use Rattle.std.specs.Prelude.{◌≡◌, ℕ, ◌*◌, ◌/◌, ◌<◌, ◌^◌, false, IsTrue};
ghost use Rattle.xfs_geom.specs.Volumes.{volume_of};
ghost use Rattle.xfs_geom.specs.Groups.{block_of_address};
ghost use Rattle.xfs_tree.specs.Blocks.{block_of_pointer};
ghost use Rattle.xfs_tree.specs.Rules.{is_of_root_cluster, can_hold, block_seal, address_or_ones, is_sibling};

use crate::layout::Layout;
use xfs_geom::Geometry;
use xfs_word::{Seal, SealKind};

/// Whether a block can be one of the owner's tree: it lies in the group, or for an inode's tree in the
/// volume, has no fixed use and is not of the root's cluster.
pub fn can_hold(g: &Geometry, layout: &Layout, owner: u64, block: u64) -> bool
    ensures value { result ≡ can_hold (volume_of g.now) layout.now owner block }
    ensures inside { IsTrue result → block < g.now.dblocks }
{
    if block >= g.dblocks {
        return false;
    }
    if !layout.long && block / g.agblocks as u64 != owner {
        return false;
    }
    !g.is_fixed(block) && !is_of_root_cluster(g, block)
}

/// Whether a block is one of the four whose inodes are the root and its neighbours.
fn is_of_root_cluster(g: &Geometry, block: u64) -> bool
    ensures { result ≡ is_of_root_cluster (volume_of g.now) block }
{
    let cluster = root_cluster(g);
    cluster <= block && block - cluster < 4
}

/// The first of the blocks whose inodes are the root and its neighbours.
fn root_cluster(g: &Geometry) -> u64
    ensures { result ≡ block_of_address g.now.agblocks g.now.agblklog (g.now.rootino / 32 * 4) }
{
    g.number_of_address(g.rootino / 32 * 4)
}

/// How a block of the owner's tree is sealed.
pub(crate) fn block_seal(g: &Geometry, layout: &Layout, owner: u64, block: u64) -> Seal
    requires { block < g.now.dblocks }
    ensures { result ≡ block_seal (volume_of g.now) layout.now owner block }
{
    let kind = if layout.long {
        SealKind::LongTree
    } else {
        SealKind::ShortTree {
            magic: layout.magic,
        }
    };
    Seal {
        kind,
        place: 8 * block,
        owner: Some(owner),
        uuid: g.uuid,
    }
}

/// Whether a pointer to a sibling is that of the neighbour on the level, or all ones where there is none.
pub(crate) fn is_sibling(
    g: &Geometry,
    layout: &Layout,
    owner: u64,
    neighbour: Option<u64>,
    pointer: u64,
) -> bool
    requires owner { layout.now.long ≡ false → owner < 2 ^ 32 }
    requires pointer { layout.now.long ≡ false → pointer < 2 ^ 32 }
    ensures { result ≡ is_sibling (volume_of g.now) layout.now owner neighbour pointer }
{
    let Some(block) = neighbour else {
        return pointer == layout.no_sibling();
    };
    if layout.long {
        pointer == address_or_ones(g, block)
    } else {
        owner * g.agblocks as u64 + pointer == block
    }
}

/// The address of a block; one outside the volume gives all ones.
fn address_or_ones(g: &Geometry, block: u64) -> u64
    ensures { result ≡ address_or_ones (volume_of g.now) block }
{
    if block < g.dblocks {
        g.address_of_block(block)
    } else {
        u64::MAX
    }
}
