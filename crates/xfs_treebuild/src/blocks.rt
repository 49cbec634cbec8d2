//! The blocks in a run of bytes.

ghost use Rattle.std.specs.Prelude.{◌≡◌, ℕ, ◌+◌, ◌*◌, ◌<◌, ◌≤◌, ◌≢◌, length};
ghost use Rattle.xfs_treebuild.specs.Exact.{IsZeroBlock};
ghost use Rattle.xfs_treebuild.specs.Packing.{block_of_part};

use xfs_word::put_part;

/// A block of zeros.
pub(crate) fn clear_block() -> [u8; 4096]
    ensures { IsZeroBlock result }
{
    [0; 4096]
}

/// The block of a number.
pub(crate) fn block_of_part(part: &[u8], j: usize) -> &[u8]
    requires { 4096 * (j + 1) ≤ length part.now }
    ensures value { result.now ≡ block_of_part part.now j }
    ensures len { length result.now ≡ 4096 }
{
    xfs_word::part(part, 4096 * j, 4096)
}

/// Puts a block in the place of that of a number.
pub(crate) fn put_block(part: &mut [u8], j: usize, block: &[u8])
    requires inside { 4096 * (j + 1) ≤ length part.old }
    requires block { length block.now ≡ 4096 }
    ensures put { block_of_part part.new j ≡ block.now }
    ensures others { (k : ℕ) → k ≢ j → block_of_part part.new k ≡ block_of_part part.old k }
{
    put_part(part, 4096 * j, block);
}
