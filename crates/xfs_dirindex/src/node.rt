//! The node form of a directory.

ghost use Rattle.std.specs.Prelude.{◌≡◌, true, false, length, IfErr, OnOk};
ghost use Rattle.xfs_dirindex.specs.Faults.{OnUnsoundIndex};
ghost use Rattle.xfs_dirindex.specs.Mapped.{OffsetsAscend, mapped};
ghost use Rattle.xfs_dirindex.specs.Node.{is_whole_node};

use crate::data::read_blocks;
use crate::free_blocks::are_free;
use crate::index_tree::check_tree;
use crate::seen::{DirSeen, IndexFault};
use crate::values::has_size;
use std::alloc::Global;

/// Whether a directory is whole in the node form, apart from its seals. `Unsound` where it breaks a rule
/// of this form (chapter "Directories").
#[tactic(auto, unfolding(crate::specs::Node::is_whole_node))]
pub fn check_node(alloc: Global, dir: &DirSeen) -> Result<(), IndexFault>
    requires mapped { length dir.now.blocks ≡ length dir.now.offsets.items }
    requires ascending { OffsetsAscend 0 dir.now.offsets.items }
    ensures whole { OnOk result (is_whole_node dir.now.dir dir.now.size (mapped dir.now.offsets.items dir.now.blocks) ≡ true) }
    ensures unsound { IfErr result (λ fault. OnUnsoundIndex fault (is_whole_node dir.now.dir dir.now.size (mapped dir.now.offsets.items dir.now.blocks) ≡ false)) }
{
    let taken = match read_blocks(alloc, dir) {
        Ok(taken) => taken,
        Err(fault) => return Err(fault),
    };
    if !has_size(&taken.bests, dir.size) {
        return Err(IndexFault::Unsound);
    }
    match check_tree(alloc, dir, &taken.due) {
        Ok(()) => {}
        Err(fault) => return Err(fault),
    }
    if are_free(dir, &taken.bests) {
        Ok(())
    } else {
        Err(IndexFault::Unsound)
    }
}
