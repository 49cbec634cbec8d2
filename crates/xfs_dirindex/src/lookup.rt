//! Mapped blocks of a directory by their file blocks.

ghost use Rattle.std.specs.Prelude.{◌≡◌, ◌<◌, ◌≤◌, length};
ghost use Rattle.std.specs.List.{AllWithin};
ghost use Rattle.xfs_dirindex.specs.Mapped.{OffsetsAscend, mapped};
ghost use Rattle.xfs_dirindex.specs.Lookup.{bytes_mapped};

use crate::seen::DirSeen;

/// The bytes of a file block; none where it is not mapped.
pub fn bytes_mapped(dir: &DirSeen, block: u64) -> &[u8]
    requires mapped { length dir.now.blocks ≡ length dir.now.offsets.items }
    requires ascending { OffsetsAscend 0 dir.now.offsets.items }
    ensures { result.now ≡ bytes_mapped (mapped dir.now.offsets.items dir.now.blocks) block }
{
    let k = place_in(&dir.offsets, block);
    if k == dir.offsets.len() {
        return &[];
    }
    if dir.offsets[k] != block {
        return &[];
    }
    dir.blocks.view(k)
}

/// How many of these file blocks come before one.
fn place_in(offsets: &[u64], block: u64) -> usize
    requires { OffsetsAscend 0 offsets.now }
    ensures within { result ≤ length offsets.now }
    ensures before { AllWithin (λ o. o < block) offsets.now 0 result }
    ensures after { AllWithin (λ o. block ≤ o) offsets.now result (length offsets.now) }
{
    offsets.partition_point(|offset| *offset < block)
}
