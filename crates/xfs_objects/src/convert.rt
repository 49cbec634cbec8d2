//! Numbers that stand for places, and their conversion.

ghost use Rattle.std.specs.Prelude.{◌≡◌, ℕ, ◌<◌, ◌^◌, ◌++◌, bytes_eq, codes, decimal, IfSome, OnOk};
ghost use Rattle.std.specs.List.{find};
ghost use Rattle.std.specs.Option.{option_map};
ghost use Rattle.xfs_geom.specs.Conversions.{block_at, slot_at};
ghost use Rattle.xfs_geom.specs.Volumes.{volume_of};
ghost use Rattle.xfs_objects.specs.Hexadecimal.{hexadecimal};
ghost use Rattle.xfs_objects.specs.Places.{both_bases, first_sector, is_place, number_in, pair_of, sector_at_daddr, spot_of, measure_name, measure_named};
ghost use Rattle.xfs_objects.specs.declared.convert.Measure.{Measure};

use crate::hexadecimal::push_hexadecimal;
use crate::values::push_decimal;
use xfs_disk::NoMemory;
use xfs_geom::Geometry;

/// What a number counts.
#[derive(Clone, Copy)]
pub enum Measure {
    /// Allocation groups.
    AgNumber,
    /// The blocks of a group.
    AgBlock,
    /// The inodes of a group.
    AgInode,
    /// Addresses of blocks.
    FsBlock,
    /// Sectors of the disk.
    DiskAddress,
    /// Inodes.
    InodeNumber,
    Byte,
}

/// Every measure.
const ALL: [Measure; 7] = [
    Measure::AgNumber,
    Measure::AgBlock,
    Measure::AgInode,
    Measure::FsBlock,
    Measure::DiskAddress,
    Measure::InodeNumber,
    Measure::Byte,
];

/// A sector of a block of the image.
#[derive(Clone, Copy)]
pub struct Spot {
    pub block: u64,
    pub sector: u8,
}

impl Measure {
    /// The measure of this name.
    #[tactic(auto, unfolding(crate::specs::Places::measure_named))]
    pub fn named(name: &[u8]) -> Option<Measure>
        ensures { result ≡ measure_named name.now }
    {
        find_named(&ALL, name)
    }

    /// The name of the measure.
    fn name(self) -> &'static str
        ensures { result.now ≡ measure_name self }
    {
        match self {
            Measure::AgNumber => "agno",
            Measure::AgBlock => "agblock",
            Measure::AgInode => "agino",
            Measure::FsBlock => "fsblock",
            Measure::DiskAddress => "daddr",
            Measure::InodeNumber => "ino",
            Measure::Byte => "byte",
        }
    }

    /// Whether numbers of the measure say where something stands.
    pub fn is_place(self) -> bool
        ensures { result ≡ is_place self }
    {
        match self {
            Measure::InodeNumber | Measure::FsBlock | Measure::DiskAddress => true,
            _ => false,
        }
    }

    /// Where a number of the measure points in the volume.
    #[tactic(auto, unfolding(crate::specs::Places::spot_of))]
    pub fn spot(self, geometry: &Geometry, number: u64) -> Option<Spot>
        ensures value { option_map pair_of result ≡ spot_of (volume_of geometry.now) self number }
        ensures inside { IfSome result (λ spot. spot.block < geometry.now.dblocks) }
        ensures sector { IfSome result (λ spot. spot.sector < 8) }
    {
        match self {
            Measure::InodeNumber => spot_of_inode(geometry, number),
            Measure::FsBlock => spot_of_address(geometry, number),
            Measure::DiskAddress => spot_of_sector(geometry, number),
            _ => None,
        }
    }

    /// The number of the measure for a sector of a block.
    #[tactic(auto, unfolding(crate::specs::Places::number_in))]
    pub fn number(self, geometry: &Geometry, spot: Spot) -> u64
        requires block { spot.block < geometry.now.dblocks }
        requires sector { spot.sector < 8 }
        ensures { result ≡ number_in (volume_of geometry.now) self spot.block spot.sector }
    {
        let agblocks = geometry.agblocks as u64;
        let sector = spot.sector as u64;
        match self {
            Measure::AgNumber => spot.block / agblocks,
            Measure::AgBlock => spot.block % agblocks,
            Measure::AgInode => spot.block % agblocks * 8 + sector,
            Measure::FsBlock => geometry.address_of_block(spot.block),
            Measure::DiskAddress => spot.block * 8 + sector,
            Measure::InodeNumber => geometry.inode_of_slot(spot.block, spot.sector),
            Measure::Byte => (spot.block * 8 + sector) * 512,
        }
    }
}

/// The first of the measures that has this name.
fn find_named(measures: &[Measure], name: &[u8]) -> Option<Measure>
    ensures { result ≡ find (λ (measure : Measure). bytes_eq (measure_name measure) name.now) measures.now }
{
    for measure in measures {
        if measure.name().as_bytes() == name {
            return Some(*measure);
        }
    }
    None
}

/// The slot of an inode, where it is in the volume.
fn spot_of_inode(geometry: &Geometry, ino: u64) -> Option<Spot>
    ensures value { option_map pair_of result ≡ slot_at (volume_of geometry.now) ino }
    ensures inside { IfSome result (λ spot. spot.block < geometry.now.dblocks) }
    ensures sector { IfSome result (λ spot. spot.sector < 8) }
{
    match geometry.slot_of_inode(ino) {
        Some((block, slot)) => Some(Spot {
            block,
            sector: slot,
        }),
        None => None,
    }
}

/// The block at an address, where it is in the volume.
pub fn spot_of_address(geometry: &Geometry, address: u64) -> Option<Spot>
    ensures value { option_map pair_of result ≡ first_sector (block_at (volume_of geometry.now) address) }
    ensures inside { IfSome result (λ spot. spot.block < geometry.now.dblocks) }
    ensures sector { IfSome result (λ spot. spot.sector < 8) }
{
    match geometry.block_of_address(address) {
        Some(block) => Some(Spot { block, sector: 0 }),
        None => None,
    }
}

/// A sector of the disk, where it is in the volume.
#[tactic(auto, unfolding(crate::specs::Places::sector_at_daddr))]
fn spot_of_sector(geometry: &Geometry, daddr: u64) -> Option<Spot>
    ensures value { option_map pair_of result ≡ sector_at_daddr (volume_of geometry.now) daddr }
    ensures inside { IfSome result (λ spot. spot.block < geometry.now.dblocks) }
    ensures sector { IfSome result (λ spot. spot.sector < 8) }
{
    if daddr / 8 < geometry.dblocks {
        Some(Spot {
            block: daddr / 8,
            sector: (daddr % 8) as u8,
        })
    } else {
        None
    }
}

/// Adds the line of a number in both bases.
#[tactic(auto, unfolding(crate::specs::Places::both_bases))]
pub fn push_both(text: &mut Vec<u8>, number: u64) -> Result<(), NoMemory>
    ensures { OnOk result (text.new.items ≡ text.old.items ++ both_bases number) }
{
    push_prefixed(text, number)?;
    push_bracketed(text, number)
}

/// Adds a hexadecimal number behind `0x`.
fn push_prefixed(text: &mut Vec<u8>, number: u64) -> Result<(), NoMemory>
    ensures { OnOk result (text.new.items ≡ text.old.items ++ (codes "0x" ++ hexadecimal number)) }
{
    text.extend_from_slice(b"0x")?;
    push_hexadecimal(text, number)
}

/// Adds a decimal number in round brackets behind a blank, and the end of the line.
fn push_bracketed(text: &mut Vec<u8>, number: u64) -> Result<(), NoMemory>
    ensures { OnOk result (text.new.items ≡ text.old.items ++ (codes " (" ++ decimal number ++ codes ")\n")) }
{
    text.extend_from_slice(b" (")?;
    push_decimal(text, number)?;
    text.extend_from_slice(b")\n")?;
    Ok(())
}
