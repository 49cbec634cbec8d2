//! Pairs and values, written into blocks, and blocks put into a bank.

ghost use Rattle.std.specs.Prelude.{◌≡◌, ◌+◌, ◌*◌, ◌<◌, ◌≤◌, length, All, slice_set};
ghost use Rattle.xfs_word.specs.Field.{SameBeside, KeepsBeside, KeepsParts, zeros};
ghost use Rattle.xfs_dirindex.specs.Pairs.{pair_at, pairs_at};
ghost use Rattle.xfs_dirbuild.specs.Index.{IsPointer, AreValues};

use xfs_collections::BlockBank;
use xfs_dirindex::{PAIR_SIZE, Pair};
use xfs_disk::BLOCK_SIZE;
use xfs_word::{put16, put32};

/// Writes these pairs one behind the other from the byte offset `at` on.
pub fn put_pairs(pairs: &[Pair], at: usize, block: &mut [u8])
    requires pointers { All IsPointer pairs.now }
    requires inside { at + 8 * length pairs.now ≤ length block.old }
    requires short { length block.old ≤ 4096 }
    ensures pairs { pairs_at block.new at (length pairs.now) ≡ pairs.now }
    ensures keeps { KeepsBeside block.old block.new at (8 * length pairs.now) }
    ensures keeps_parts { KeepsParts block.old block.new at (8 * length pairs.now) }
{
    write_pairs(pairs, at, block);
}

/// Writes pairs, and leaves the bytes beside them.
#[tactic(auto, unfolding(xfs_dirindex::specs::Pairs::pairs_at))]
fn write_pairs(pairs: &[Pair], at: usize, block: &mut [u8])
    requires pointers { All IsPointer pairs.now }
    requires inside { at + 8 * length pairs.now ≤ length block.old }
    requires short { length block.old ≤ 4096 }
    ensures pairs { pairs_at block.new at (length pairs.now) ≡ pairs.now }
    ensures others { SameBeside block.old block.new at (8 * length pairs.now) }
{
    for (k, pair) in pairs.iter().enumerate() {
        put_pair(*pair, at + PAIR_SIZE * k, block);
    }
}

/// Writes a pair at the byte offset `at`.
fn put_pair(pair: Pair, at: usize, block: &mut [u8])
    requires pointer { IsPointer pair }
    requires inside { at + 8 ≤ length block.old }
    requires short { length block.old ≤ 4096 }
    ensures pair { pair_at block.new at ≡ pair }
    ensures keeps { KeepsBeside block.old block.new at 8 }
    ensures others { SameBeside block.old block.new at 8 }
{
    put32(block, at, pair.hash);
    put32(block, at + 4, pair.address as u32);
}

/// Writes these values one behind the other from the byte offset `at` on.
pub fn put_values(values: &[u16], at: usize, block: &mut [u8])
    requires inside { at + 2 * length values.now ≤ length block.old }
    requires short { length block.old ≤ 4096 }
    ensures values { AreValues values.now at block.new }
    ensures keeps_parts { KeepsParts block.old block.new at (2 * length values.now) }
{
    write_values(values, at, block);
}

/// Writes values, and leaves the bytes beside them.
fn write_values(values: &[u16], at: usize, block: &mut [u8])
    requires inside { at + 2 * length values.now ≤ length block.old }
    requires short { length block.old ≤ 4096 }
    ensures values { AreValues values.now at block.new }
    ensures others { SameBeside block.old block.new at (2 * length values.now) }
{
    for (j, value) in values.iter().enumerate() {
        put16(block, at + 2 * j, *value);
    }
}

/// A block of zeros.
#[tactic(auto, unfolding(xfs_word::specs::Field::zeros))]
pub fn blank() -> [u8; BLOCK_SIZE]
    ensures { result ≡ zeros 4096 }
{
    [0; BLOCK_SIZE]
}

/// Puts a block in the place of block `i` of a bank.
pub fn put_block(i: usize, block: &[u8], blocks: &mut BlockBank)
    requires inside { i < length blocks.old }
    requires whole { length block.now ≡ 4096 }
    ensures { blocks.new ≡ slice_set blocks.old i block.now }
{
    blocks.view_mut(i).copy_from_slice(block);
}
