//! The blocks of objects, before they get places and seals.

ghost use Rattle.std.specs.Prelude.{◌≡◌, ◌<◌, ◌≤◌, ◌++◌, [], ◌∷◌, nat_le, if◌then◌else◌, length, IfOk, OnOk};
ghost use Rattle.std.specs.Option.{option_copied};
ghost use Rattle.xfs_geom.specs.Volumes.{volume_of};
ghost use Rattle.xfs_word.specs.Field.{zeros};
ghost use Rattle.xfs_filled.specs.Contents.{all_blocks, blocks_of_place, blocks_in, padded, block_of_target, target_head};
ghost use Rattle.xfs_filled.specs.Sites.{IsSite};

use crate::directories::{FORK_ROOM, MadeDirectory};
use crate::site::{Site, content_at, directory_at};
use std::alloc::Global;
use xfs_collections::BlockList;
use xfs_disk::{BLOCK_SIZE, NoMemory};
use xfs_proto::ProtoKind;

/// The magic number of the block of a symbolic link (chapter "Symbolic Links").
const LINK_MAGIC: u32 = 0x5853_4c4d;

/// The bytes that its seal has, between how many bytes the target has and the target.
const SEAL_SIZE: usize = 44;

/// The blocks of all objects: those of directories, and behind them those of the other files.
pub fn list_blocks(alloc: Global, site: &Site<'_>) -> Result<BlockList, NoMemory>
    requires site { IsSite site.now.geometry.now site.now.starts.now site.now.nodes.now site.now.contents.now site.now.directories.now site.now.order.now }
    ensures { IfOk result (λ bank. bank ≡ all_blocks (volume_of site.now.geometry.now) site.now.starts.now site.now.nodes.now site.now.contents.now) }
{
    let mut bank = BlockList::make(alloc);
    for k in site.order {
        push_file(alloc, site, *k, &mut bank)?;
    }
    Ok(bank)
}

/// Adds the blocks of the file at a place.
fn push_file(alloc: Global, site: &Site<'_>, k: usize, bank: &mut BlockList) -> Result<(), NoMemory>
    requires site { IsSite site.now.geometry.now site.now.starts.now site.now.nodes.now site.now.contents.now site.now.directories.now site.now.order.now }
    requires inside { k < length site.now.nodes.now }
    ensures { OnOk result (bank.new ≡ bank.old ++ blocks_of_place (volume_of site.now.geometry.now) site.now.starts.now site.now.nodes.now site.now.contents.now k) }
{
    match &site.nodes[k].kind {
        ProtoKind::Regular { .. } => content_at(site, k).push_blocks(bank),
        ProtoKind::Directory => push_directory(directory_at(site, k), bank),
        ProtoKind::Link(target) => push_target(alloc, target.bytes(), bank),
        ProtoKind::Block { .. } | ProtoKind::Character { .. } | ProtoKind::Pipe => Ok(()),
    }
}

/// Adds the blocks of a directory.
fn push_directory(directory: Option<&MadeDirectory>, bank: &mut BlockList) -> Result<(), NoMemory>
    ensures { OnOk result (bank.new ≡ bank.old ++ blocks_in (option_copied directory.entry)) }
{
    let Some(made) = directory else {
        return Ok(());
    };
    bank.push_bank(&made.blocks)
}

/// A block that begins with a part, and is zero behind it.
fn padded(alloc: Global, part: &[u8]) -> Result<Vec<u8>, NoMemory>
    requires few { length part.now ≤ 4096 }
    ensures { IfOk result (λ block. block.items ≡ padded part.now) }
{
    let mut block = Vec::from_slice(alloc, part)?;
    let zeros = list_zeros(alloc, BLOCK_SIZE - part.len())?;
    block.extend_from_slice(&zeros)?;
    Ok(block)
}

/// So many zeros.
#[tactic(auto, unfolding(xfs_word::specs::Field::zeros))]
fn list_zeros(alloc: Global, count: usize) -> Result<Vec<u8>, NoMemory>
    ensures { IfOk result (λ bytes. bytes.items ≡ zeros count) }
{
    Ok(vec![in alloc; 0; count]?)
}

/// Adds the block of a target that has one.
fn push_target(alloc: Global, target: &[u8], bank: &mut BlockList) -> Result<(), NoMemory>
    requires { length target.now ≤ 1024 }
    ensures { OnOk result (bank.new ≡ bank.old ++ (if nat_le (length target.now) 336 then [] else block_of_target target.now ∷ [])) }
{
    if target.len() <= FORK_ROOM {
        return Ok(());
    }
    let mut front = target_head(alloc, target)?;
    front.extend_from_slice(target)?;
    let block = padded(alloc, &front)?;
    bank.push(&block)?;
    Ok(())
}

/// What stands in front of a target in its block, apart from its seal.
fn target_head(alloc: Global, target: &[u8]) -> Result<Vec<u8>, NoMemory>
    requires { length target.now ≤ 1024 }
    ensures { IfOk result (λ head. head.items ≡ target_head target.now) }
{
    let mut head = Vec::from_slice(alloc, &LINK_MAGIC.to_be_bytes())?;
    head.extend_from_slice(&0_u32.to_be_bytes())?;
    head.extend_from_slice(&(target.len() as u32).to_be_bytes())?;
    let seal = list_zeros(alloc, SEAL_SIZE)?;
    head.extend_from_slice(&seal)?;
    Ok(head)
}
