//! Writes the header of a tree's block, and seals the block.

ghost use Rattle.std.specs.Prelude.{◌≡◌, ℕ, ◌+◌, ◌*◌, ◌^◌, ◌<◌, true, false, length, Some, IsTrue, IfSome, ◌≤◌};
ghost use Rattle.std.specs.List.{All};
ghost use Rattle.xfs_word.specs.Field.{field_of, part_of, KeepsBeside, KeepsParts};
ghost use Rattle.xfs_word.specs.Seal.{layout_of, is_ready, is_sealed};
ghost use Rattle.xfs_geom.specs.Volumes.{volume_of};
ghost use Rattle.xfs_tree.specs.Layout.{IsLayout, header_len};
ghost use Rattle.xfs_tree.specs.Blocks.{level_of, count_of, left_of, right_of, capacity, block_of_pointer};
ghost use Rattle.xfs_tree.specs.Rules.{block_seal, can_hold, is_sibling};
ghost use Rattle.xfs_treebuild.specs.Packing.{lsn_of};
ghost use Rattle.xfs_treebuild.specs.Private.Placed.{IsHeaded};

use crate::neighbours::{left_of, right_of};
use xfs_geom::Geometry;
use xfs_tree::headers::{long, short};
use xfs_tree::{Kind, Layout, tree_layout};
use xfs_word::{Seal, SealKind, put_part, put16, put32, put64, seal};

/// Where a long header has no field: its last 4 bytes.
const LONG_PAD: usize = 68;

/// What a header states beside the identifier of the volume.
#[derive(Clone, Copy)]
pub(crate) struct Header {
    pub magic: u32,
    pub level: u16,
    /// How many records or children the block has.
    pub count: u16,
    /// The pointers to the siblings.
    pub left: u64,
    pub right: u64,
    /// The block's own number.
    pub place: u64,
    pub owner: u64,
}

/// Writes the header of the block at place `i` of the row of its level, and seals the block.
pub(crate) fn put_head<K: Kind>(
    kind: &K,
    g: &Geometry,
    level: u32,
    count: usize,
    row: &[u64],
    i: usize,
    block: &mut [u8],
)
    requires level { level < 2 ^ 16 }
    requires count { count ≤ capacity (K.shape kind.now).layout level }
    requires row { i < length row.now }
    requires can_hold { All (λ place. IsTrue (can_hold (volume_of g.now) (K.shape kind.now).layout (K.shape kind.now).owner place)) row.now }
    requires block { length block.old ≡ 4096 }
    ensures headed { IsHeaded (volume_of g.now) (K.shape kind.now).layout (K.shape kind.now).owner level row.now i block.new }
    ensures count { count_of block.new ≡ count }
    ensures keeps { KeepsBeside block.old block.new 0 (header_len (K.shape kind.now).layout) }
    ensures keeps_parts { KeepsParts block.old block.new 0 (header_len (K.shape kind.now).layout) }
{
    let layout = tree_layout(kind);
    let owner = kind.owner();
    let header = Header {
        magic: layout.magic,
        level: level as u16,
        count: short_count(&layout, level, count),
        left: sibling(g, &layout, owner, left_of(row, i)),
        right: sibling(g, &layout, owner, right_of(row, i)),
        place: row[i],
        owner,
    };
    put_header(g, &layout, &header, block);
}

/// How many records or children a block has, as its header states it.
fn short_count(layout: &Layout, level: u32, count: usize) -> u16
    requires sound { IsLayout layout.now }
    requires room { count ≤ capacity layout.now level }
    ensures { result ≡ count }
{
    count as u16
}

/// The pointer to a sibling: all ones where there is none.
fn sibling(g: &Geometry, layout: &Layout, owner: u64, place: Option<u64>) -> u64
    requires owner { layout.now.long ≡ false → owner < 2 ^ 32 }
    requires can_hold { IfSome place (λ place. IsTrue (can_hold (volume_of g.now) layout.now owner place)) }
    ensures value { IsTrue (is_sibling (volume_of g.now) layout.now owner place result) }
    ensures short { layout.now.long ≡ false → result < 2 ^ 32 }
{
    match place {
        Some(place) => pointer_to(g, layout, owner, place),
        None => layout.no_sibling(),
    }
}

/// The pointer to a block: an AG block of the owner's group, or an address.
pub(crate) fn pointer_to(g: &Geometry, layout: &Layout, _owner: u64, place: u64) -> u64
    requires { IsTrue (can_hold (volume_of g.now) layout.now _owner place) }
    ensures value { block_of_pointer (volume_of g.now) layout.now _owner result ≡ place }
    ensures sibling { IsTrue (is_sibling (volume_of g.now) layout.now _owner (Some place) result) }
    ensures short { layout.now.long ≡ false → result < 2 ^ 32 }
{
    if layout.long {
        g.address_of_block(place)
    } else {
        place % g.agblocks as u64
    }
}

/// Writes a header, and seals the block. The log sequence number is 0.
pub(crate) fn put_header(g: &Geometry, layout: &Layout, header: &Header, block: &mut [u8])
    requires block { length block.old ≡ 4096 }
    requires magic { header.now.magic ≡ layout.now.magic }
    requires long_magic { layout.now.long ≡ true → layout.now.magic ≡ 0x424d_4133 }
    requires inside { header.now.place < g.now.dblocks }
    requires left { layout.now.long ≡ false → header.now.left < 2 ^ 32 }
    requires right { layout.now.long ≡ false → header.now.right < 2 ^ 32 }
    requires owner { layout.now.long ≡ false → header.now.owner < 2 ^ 32 }
    ensures sealed { IsTrue (is_sealed (block_seal (volume_of g.now) layout.now header.now.owner header.now.place) block.new) }
    ensures level { level_of block.new ≡ header.now.level }
    ensures count { count_of block.new ≡ header.now.count }
    ensures lsn { lsn_of layout.now block.new ≡ 0 }
    ensures left { left_of layout.now block.new ≡ header.now.left }
    ensures right { right_of layout.now block.new ≡ header.now.right }
    ensures pad { layout.now.long ≡ true → field_of block.new 68 4 ≡ 0 }
    ensures keeps { KeepsBeside block.old block.new 0 (header_len layout.now) }
    ensures keeps_parts { KeepsParts block.old block.new 0 (header_len layout.now) }
{
    if layout.long {
        put_long(&g.uuid, header, block);
    } else {
        put_short(&g.uuid, header, block);
    }
}

/// Writes and seals a header of a block whose tree belongs to an allocation group.
fn put_short(uuid: &[u8; 16], header: &Header, block: &mut [u8])
    requires block { length block.old ≡ 4096 }
    requires inside { header.now.place < 2 ^ 26 }
    requires left { header.now.left < 2 ^ 32 }
    requires right { header.now.right < 2 ^ 32 }
    requires owner { header.now.owner < 2 ^ 32 }
    ensures sealed { IsTrue (is_sealed (record { kind = SealKind.ShortTree header.now.magic; place = 8 * header.now.place; owner = Some header.now.owner; uuid = uuid.now }) block.new) }
    ensures level { field_of block.new 4 2 ≡ header.now.level }
    ensures count { field_of block.new 6 2 ≡ header.now.count }
    ensures left { field_of block.new 8 4 ≡ header.now.left }
    ensures right { field_of block.new 12 4 ≡ header.now.right }
    ensures lsn { field_of block.new 24 8 ≡ 0 }
    ensures keeps { KeepsBeside block.old block.new 0 56 }
    ensures keeps_parts { KeepsParts block.old block.new 0 56 }
{
    state_short(uuid, header, block);
    let kind = SealKind::ShortTree {
        magic: header.magic,
    };
    seal_block(kind, uuid, header, block);
}

/// Writes all of a short header but the checksum.
fn state_short(uuid: &[u8; 16], header: &Header, block: &mut [u8])
    requires block { length block.old ≡ 4096 }
    requires inside { header.now.place < 2 ^ 26 }
    requires left { header.now.left < 2 ^ 32 }
    requires right { header.now.right < 2 ^ 32 }
    requires owner { header.now.owner < 2 ^ 32 }
    ensures magic { field_of block.new 0 4 ≡ header.now.magic }
    ensures level { field_of block.new 4 2 ≡ header.now.level }
    ensures count { field_of block.new 6 2 ≡ header.now.count }
    ensures left { field_of block.new 8 4 ≡ header.now.left }
    ensures right { field_of block.new 12 4 ≡ header.now.right }
    ensures place { field_of block.new 16 8 ≡ 8 * header.now.place }
    ensures lsn { field_of block.new 24 8 ≡ 0 }
    ensures uuid { part_of block.new 32 16 ≡ uuid.now }
    ensures owner { field_of block.new 48 4 ≡ header.now.owner }
    ensures keeps { KeepsBeside block.old block.new 0 52 }
    ensures keeps_parts { KeepsParts block.old block.new 0 52 }
{
    state_opening(header, block);
    state_short_siblings(header, block);
    state_short_place(uuid, header, block);
}

/// Writes what both headers begin with.
fn state_opening(header: &Header, block: &mut [u8])
    requires { length block.old ≡ 4096 }
    ensures magic { field_of block.new 0 4 ≡ header.now.magic }
    ensures level { field_of block.new 4 2 ≡ header.now.level }
    ensures count { field_of block.new 6 2 ≡ header.now.count }
    ensures keeps { KeepsBeside block.old block.new 0 8 }
    ensures keeps_parts { KeepsParts block.old block.new 0 8 }
{
    put32(block, short::MAGIC.offset, header.magic);
    put16(block, short::LEVEL.offset, header.level);
    put16(block, short::NUMRECS.offset, header.count);
}

/// Writes the siblings in a short header.
fn state_short_siblings(header: &Header, block: &mut [u8])
    requires block { length block.old ≡ 4096 }
    requires left { header.now.left < 2 ^ 32 }
    requires right { header.now.right < 2 ^ 32 }
    ensures left { field_of block.new 8 4 ≡ header.now.left }
    ensures right { field_of block.new 12 4 ≡ header.now.right }
    ensures keeps { KeepsBeside block.old block.new 8 8 }
    ensures keeps_parts { KeepsParts block.old block.new 8 8 }
{
    put32(block, short::LEFTSIB.offset, header.left as u32);
    put32(block, short::RIGHTSIB.offset, header.right as u32);
}

/// Writes the own address in a short header and what stands behind it, all but the checksum.
fn state_short_place(uuid: &[u8; 16], header: &Header, block: &mut [u8])
    requires block { length block.old ≡ 4096 }
    requires inside { header.now.place < 2 ^ 26 }
    requires owner { header.now.owner < 2 ^ 32 }
    ensures place { field_of block.new 16 8 ≡ 8 * header.now.place }
    ensures lsn { field_of block.new 24 8 ≡ 0 }
    ensures uuid { part_of block.new 32 16 ≡ uuid.now }
    ensures owner { field_of block.new 48 4 ≡ header.now.owner }
    ensures keeps { KeepsBeside block.old block.new 16 36 }
    ensures keeps_parts { KeepsParts block.old block.new 16 36 }
{
    put64(block, short::BNO.offset, 8 * header.place);
    put64(block, short::LSN.offset, 0);
    put_part(block, short::UUID.offset, uuid);
    put32(block, short::OWNER.offset, header.owner as u32);
}

/// Writes and seals a header of a block whose tree belongs to an inode, with zeros behind its fields.
fn put_long(uuid: &[u8; 16], header: &Header, block: &mut [u8])
    requires block { length block.old ≡ 4096 }
    requires magic { header.now.magic ≡ 0x424d_4133 }
    requires inside { header.now.place < 2 ^ 26 }
    ensures sealed { IsTrue (is_sealed (record { kind = SealKind.LongTree; place = 8 * header.now.place; owner = Some header.now.owner; uuid = uuid.now }) block.new) }
    ensures level { field_of block.new 4 2 ≡ header.now.level }
    ensures count { field_of block.new 6 2 ≡ header.now.count }
    ensures left { field_of block.new 8 8 ≡ header.now.left }
    ensures right { field_of block.new 16 8 ≡ header.now.right }
    ensures lsn { field_of block.new 32 8 ≡ 0 }
    ensures pad { field_of block.new 68 4 ≡ 0 }
    ensures keeps { KeepsBeside block.old block.new 0 72 }
    ensures keeps_parts { KeepsParts block.old block.new 0 72 }
{
    put32(block, LONG_PAD, 0);
    state_long(uuid, header, block);
    seal_block(SealKind::LongTree, uuid, header, block);
}

/// Writes all of a long header but the checksum.
fn state_long(uuid: &[u8; 16], header: &Header, block: &mut [u8])
    requires block { length block.old ≡ 4096 }
    requires inside { header.now.place < 2 ^ 26 }
    ensures magic { field_of block.new 0 4 ≡ header.now.magic }
    ensures level { field_of block.new 4 2 ≡ header.now.level }
    ensures count { field_of block.new 6 2 ≡ header.now.count }
    ensures left { field_of block.new 8 8 ≡ header.now.left }
    ensures right { field_of block.new 16 8 ≡ header.now.right }
    ensures place { field_of block.new 24 8 ≡ 8 * header.now.place }
    ensures lsn { field_of block.new 32 8 ≡ 0 }
    ensures uuid { part_of block.new 40 16 ≡ uuid.now }
    ensures owner { field_of block.new 56 8 ≡ header.now.owner }
    ensures keeps { KeepsBeside block.old block.new 0 64 }
    ensures keeps_parts { KeepsParts block.old block.new 0 64 }
{
    state_opening(header, block);
    state_long_siblings(header, block);
    state_long_place(uuid, header, block);
}

/// Writes the siblings in a long header.
fn state_long_siblings(header: &Header, block: &mut [u8])
    requires { length block.old ≡ 4096 }
    ensures left { field_of block.new 8 8 ≡ header.now.left }
    ensures right { field_of block.new 16 8 ≡ header.now.right }
    ensures keeps { KeepsBeside block.old block.new 8 16 }
    ensures keeps_parts { KeepsParts block.old block.new 8 16 }
{
    put64(block, long::LEFTSIB.offset, header.left);
    put64(block, long::RIGHTSIB.offset, header.right);
}

/// Writes the own address in a long header and what stands behind it, all but the checksum.
fn state_long_place(uuid: &[u8; 16], header: &Header, block: &mut [u8])
    requires block { length block.old ≡ 4096 }
    requires inside { header.now.place < 2 ^ 26 }
    ensures place { field_of block.new 24 8 ≡ 8 * header.now.place }
    ensures lsn { field_of block.new 32 8 ≡ 0 }
    ensures uuid { part_of block.new 40 16 ≡ uuid.now }
    ensures owner { field_of block.new 56 8 ≡ header.now.owner }
    ensures keeps { KeepsBeside block.old block.new 24 40 }
    ensures keeps_parts { KeepsParts block.old block.new 24 40 }
{
    put64(block, long::BNO.offset, 8 * header.place);
    put64(block, long::LSN.offset, 0);
    put_part(block, long::UUID.offset, uuid);
    put64(block, long::OWNER.offset, header.owner);
}

/// Seals a block in which all but the checksum is right.
fn seal_block(kind: SealKind, uuid: &[u8; 16], header: &Header, block: &mut [u8])
    requires block { length block.old ≡ (layout_of kind).size }
    requires inside { header.now.place < 2 ^ 26 }
    requires ready { IsTrue (is_ready (record { kind = kind; place = 8 * header.now.place; owner = Some header.now.owner; uuid = uuid.now }) block.old) }
    ensures sealed { IsTrue (is_sealed (record { kind = kind; place = 8 * header.now.place; owner = Some header.now.owner; uuid = uuid.now }) block.new) }
    ensures keeps { KeepsBeside block.old block.new (layout_of kind).checksum 4 }
    ensures keeps_parts { KeepsParts block.old block.new (layout_of kind).checksum 4 }
{
    let what = Seal {
        kind,
        place: 8 * header.place,
        owner: Some(header.owner),
        uuid: *uuid,
    };
    seal(&what, block);
}
