//! Extents of files, packed into 16 bytes.

ghost use Rattle.std.specs.Prelude.{◌≡◌, ℕ};
ghost use Rattle.xfs_word.specs.Extent.{packed, IsPackable};

use byteorder::{BigEndian, ByteOrder};

/// A run of a file's blocks that lie one after the other.
#[derive(Clone, Copy, Debug, Default, PartialEq, Eq)]
pub struct Extent {
    /// The first block in the file, counted in blocks.
    pub offset: u64,
    /// The address of the first block.
    pub start: u64,
    /// The number of blocks.
    pub count: u64,
    /// The blocks are reserved and read as zero.
    pub unwritten: bool,
}

/// The extent in its 16 bytes. Each 16 bytes are those of exactly one extent.
pub fn unpack_extent(bytes: &[u8; 16]) -> Extent
    ensures packable { IsPackable result }
    ensures packs { bytes.now ≡ packed result }
    ensures only { (extent : Extent) → IsPackable extent → bytes.now ≡ packed extent → result ≡ extent }
{
    let number = BigEndian::read_u128(bytes);
    Extent {
        offset: (number >> 73 & 0x3f_ffff_ffff_ffff) as u64,
        start: (number >> 21 & 0xf_ffff_ffff_ffff) as u64,
        count: (number & 0x1f_ffff) as u64,
        unwritten: number >> 127 == 1,
    }
}

/// The 16 bytes of an extent.
pub fn pack_extent(extent: &Extent) -> [u8; 16]
    requires { IsPackable extent.now }
    ensures { result ≡ packed extent.now }
{
    let flag = extent.unwritten as u128;
    let place = (extent.offset as u128) << 73 | (extent.start as u128) << 21;
    let mut bytes = [0; 16];
    BigEndian::write_u128(&mut bytes, flag << 127 | place | extent.count as u128);
    bytes
}
