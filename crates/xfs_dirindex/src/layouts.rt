//! The layouts of indexes as data: one constant for each field that has a fixed offset.

ghost use Rattle.std.specs.Prelude.{◌≡◌};
ghost use Rattle.xfs_dirindex.specs.Data.{magic_of};

pub mod free_block;
pub mod index_block;

/// The first file block of index blocks. Data blocks stand in front of it.
pub const INDEX_START: u64 = 0x80_0000;

/// The first file block of free blocks.
pub const FREE_START: u64 = 0x100_0000;

/// The magic number of a data block; whole in the single-block form.
pub fn data_magic(whole: bool) -> u32
    ensures { result ≡ magic_of whole }
{
    if whole { 0x5844_4233 } else { 0x5844_4433 }
}
