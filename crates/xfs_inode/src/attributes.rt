//! The attribute fork of a slot (chapter "Extended Attributes").

ghost use Rattle.std.specs.Prelude.{◌≡◌, ℕ, ◌+◌, ◌*◌, ◌<◌, ◌≤◌, ◌-◌, [], ◌∷◌, List, Some, None, length, IfSome, IfOk, Result};
ghost use Rattle.std.specs.Option.{option_copied};
ghost use Rattle.xfs_word.specs.declared.extents.Extent.{Extent};
ghost use Rattle.xfs_attr.specs.Leaf.{leaf_of};
ghost use Rattle.xfs_attr.specs.ShortForm.{short_attributes};
ghost use Rattle.xfs_attr.specs.Readings.{IsReading};
ghost use Rattle.xfs_attr.specs.declared.attributes.Attr.{Attr};
ghost use Rattle.xfs_attr.specs.declared.attributes.AttrFault.{AttrFault};
ghost use Rattle.xfs_geom.specs.Volumes.{volume_of};
ghost use Rattle.xfs_inode.specs.Slots.{attribute_start};
ghost use Rattle.xfs_inode.specs.Forks.{attr_extent, attr_place};
ghost use Rattle.xfs_inode.specs.Files.{attr_fork, feature_of, fork_with, index_seal, is_attr_leaf, leaf_feature, leaf_held, no_attrs, remote};
ghost use Rattle.xfs_word.specs.Field.{part_of};

use crate::extents::{attr_extent, attr_place};
use crate::layouts::inode::SLOT_SIZE;
use crate::support::attribute_start;
use std::alloc::{AllocError, Global};
use std::marker::Model;
use xfs_attr::{Attr, AttrFault, Attrs, read_leaf, read_short_attributes};
use xfs_disk::NoMemory;
use xfs_geom::Geometry;
use xfs_volume::Core;
use xfs_word::{Extent, Seal, SealKind, part, sealed};

/// The magic number of a leaf of attributes.
const LEAF: u16 = 0x3bee;

/// The magic number of a node over leaves.
const NODE: u16 = 0x3ebe;

/// What an attribute fork that reads holds.
#[derive(Drop)]
pub struct AttrHeld {
    attrs: Attrs,
    extents: Vec<Extent>,
    blocks: Vec<u64>,
}

impl Model for AttrHeld {
    ghost use Rattle.xfs_inode.specs.Files.{AttrFork};

    ghost Value = { AttrFork };

    ghost view = { λ held. record { attrs = held.attrs; extents = held.extents.items; blocks = held.blocks.items } };
}

impl AttrHeld {
    /// No attributes and no extents.
    pub fn none(alloc: Global) -> AttrHeld
        ensures { result ≡ no_attrs }
    {
        AttrHeld {
            attrs: Attrs::from_vec(Vec::new(alloc)),
            extents: Vec::new(alloc),
            blocks: Vec::new(alloc),
        }
    }

    /// The blocks of the fork.
    pub fn blocks(&self) -> &[u64]
        ensures { result.now ≡ self.now.blocks }
    {
        self.blocks.as_slice()
    }

    /// The attributes and the extents.
    pub fn into_lists(self) -> (Vec<Attr>, Vec<Extent>)
        ensures attrs { result.0.items ≡ self.attrs }
        ensures extents { result.1.items ≡ self.extents }
    {
        let AttrHeld { attrs, extents, .. } = self;
        (attrs.into_vec(), extents)
    }
}

/// The number of what is not supported in the block of a leaf: 2 more than one block, 1 a value outside the leaf.
pub fn feature_of(
    alloc: Global,
    g: &Geometry,
    ino: u64,
    place: Option<u64>,
    attr_leaf: Option<&[u8]>,
) -> Result<Option<u8>, NoMemory>
    requires place { IfSome place (λ place. place < g.now.dblocks) }
    requires attr_leaf { IfSome (option_copied attr_leaf) (λ block. length block ≡ 4096) }
    ensures { IfOk result (λ what. what ≡ feature_of (volume_of g.now) ino place (option_copied attr_leaf.entry)) }
{
    match (place, attr_leaf) {
        (Some(place), Some(block)) => leaf_feature(alloc, g, ino, place, block),
        _ => Ok(None),
    }
}

/// The number of what is not supported in the block of a leaf, at its place.
fn leaf_feature(
    alloc: Global,
    g: &Geometry,
    ino: u64,
    place: u64,
    block: &[u8],
) -> Result<Option<u8>, NoMemory>
    requires place { place < g.now.dblocks }
    requires block { length block.now ≡ 4096 }
    ensures { IfOk result (λ what. what ≡ leaf_feature (volume_of g.now) ino place block.now) }
{
    if sealed(&index_seal(g, ino, NODE, place), block) {
        return Ok(Some(2));
    }
    if !sealed(&index_seal(g, ino, LEAF, place), block) {
        return Ok(None);
    }
    match read_leaf(alloc, block) {
        Err(AttrFault::Unsupported { .. }) => Ok(Some(1)),
        Err(AttrFault::Unsound) => Ok(None),
        Err(AttrFault::NoMemory) => Err(NoMemory),
        Ok(_) => Ok(None),
    }
}

/// The attribute fork of a slot, where it reads.
pub fn attr_fork(
    alloc: Global,
    g: &Geometry,
    ino: u64,
    core: &Core,
    slot: &[u8],
    attr_leaf: Option<&[u8]>,
) -> Result<Option<AttrHeld>, NoMemory>
    requires slot { length slot.now ≡ 512 }
    requires forkoff { core.now.forkoff ≤ 41 }
    requires attr_leaf { IfSome (option_copied attr_leaf) (λ block. length block ≡ 4096) }
    ensures { IfOk result (λ held. held ≡ attr_fork (volume_of g.now) ino core.now slot.now (option_copied attr_leaf.entry)) }
{
    if core.forkoff == 0 {
        return Ok(Some(AttrHeld::none(alloc)));
    }
    match core.aformat {
        1 => short_held(alloc, core, slot),
        2 if core.anextents == 0 => Ok(Some(AttrHeld::none(alloc))),
        2 => leaf_held(alloc, g, ino, core, slot, attr_leaf),
        _ => Ok(None),
    }
}

/// What the short form in an attribute fork holds.
fn short_held(alloc: Global, core: &Core, slot: &[u8]) -> Result<Option<AttrHeld>, NoMemory>
    requires slot { length slot.now ≡ 512 }
    requires forkoff { core.now.forkoff ≤ 41 }
    ensures { IfOk result (λ held. held ≡ fork_with [] [] (short_attributes (part_of slot.now (attribute_start core.now.forkoff) (512 - attribute_start core.now.forkoff)))) }
{
    let start = attribute_start(core.forkoff);
    match read_short_attributes(alloc, part(slot, start, SLOT_SIZE - start)) {
        Ok(attrs) => Ok(Some(AttrHeld {
            attrs,
            extents: Vec::new(alloc),
            blocks: Vec::new(alloc),
        })),
        Err(AttrFault::NoMemory) => Err(NoMemory),
        Err(AttrFault::Unsound) | Err(AttrFault::Unsupported { .. }) => Ok(None),
    }
}

/// What the leaf of an attribute fork holds.
fn leaf_held(
    alloc: Global,
    g: &Geometry,
    ino: u64,
    core: &Core,
    slot: &[u8],
    attr_leaf: Option<&[u8]>,
) -> Result<Option<AttrHeld>, NoMemory>
    requires slot { length slot.now ≡ 512 }
    requires attr_leaf { IfSome (option_copied attr_leaf) (λ block. length block ≡ 4096) }
    ensures { IfOk result (λ held. held ≡ leaf_held (volume_of g.now) ino core.now slot.now (attr_place (volume_of g.now) core.now slot.now) (option_copied attr_leaf.entry)) }
{
    match (attr_place(g, core, slot), attr_leaf) {
        (Some(place), Some(block)) => placed_leaf(alloc, g, ino, core, slot, place, block),
        _ => Ok(None),
    }
}

/// What the leaf of an attribute fork, at its place, holds.
fn placed_leaf(
    alloc: Global,
    g: &Geometry,
    ino: u64,
    core: &Core,
    slot: &[u8],
    place: u64,
    block: &[u8],
) -> Result<Option<AttrHeld>, NoMemory>
    requires slot { length slot.now ≡ 512 }
    requires room { 192 + 8 * core.now.forkoff ≤ 512 }
    requires place { place < g.now.dblocks }
    requires block { length block.now ≡ 4096 }
    ensures { IfOk result (λ held. held ≡ leaf_held (volume_of g.now) ino core.now slot.now (Some place) (Some block.now)) }
{
    let extent = attr_extent(core, slot);
    if extent.offset != 0 || !sealed(&index_seal(g, ino, LEAF, place), block) {
        return Ok(None);
    }
    match read_leaf(alloc, block) {
        Ok(attrs) => leaf_with(alloc, attrs, extent, place),
        Err(AttrFault::NoMemory) => Err(NoMemory),
        Err(AttrFault::Unsound) | Err(AttrFault::Unsupported { .. }) => Ok(None),
    }
}

/// An attribute fork of one extent, which is one block.
fn leaf_with(
    alloc: Global,
    attrs: Attrs,
    extent: Extent,
    place: u64,
) -> Result<Option<AttrHeld>, NoMemory>
    ensures { IfOk result (λ held. held ≡ Some (record { attrs = attrs; extents = extent ∷ []; blocks = place ∷ [] })) }
{
    let extents = vec![in alloc; extent]?;
    let blocks = vec![in alloc; place]?;
    Ok(Some(AttrHeld {
        attrs,
        extents,
        blocks,
    }))
}

/// The seal of a block of an inode's index, with its magic number.
fn index_seal(g: &Geometry, ino: u64, magic: u16, place: u64) -> Seal
    requires { place < g.now.dblocks }
    ensures { result ≡ index_seal (volume_of g.now) ino magic place }
{
    Seal {
        kind: SealKind::Index { magic },
        place: 8 * place,
        owner: Some(ino),
        uuid: g.uuid,
    }
}
