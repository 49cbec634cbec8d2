//! A bank's bytes cut at blocks, and a call for each part.

ghost use Rattle.std.specs.Prelude.{◌≡◌, ◌+◌, ◌/◌, ◌^◌, ◌<◌, length};
ghost use Rattle.std.specs.Fork.{AcceptsAt, ChangesAt};
ghost use Rattle.xfs_collections.specs.Bank.{AreCuts};
ghost use Rattle.xfs_collections.specs.Parts.{flat_parts, EachFrom, EachPairFrom};

use xfs_disk::BLOCK_SIZE;

/// Calls `f` with each part of the bytes and its number, where the first part has the number `first`
/// and the first block the number `low`.
pub fn change_parts<F: Fn(usize, &mut [u8])>(
    f: &F,
    first: usize,
    low: usize,
    cuts: &[usize],
    bytes: &mut [u8],
)
    requires cuts { AreCuts low (low + length bytes.old / 4096) cuts.now }
    requires room { first + length cuts.now < 2 ^ 64 }
    requires accepts { EachFrom (AcceptsAt F.Fn f.now) first (flat_parts low cuts.now bytes.old) }
    ensures { EachPairFrom (ChangesAt F.Fn f.now) first (flat_parts low cuts.now bytes.old) (flat_parts low cuts.now bytes.new) }
{
    let (before, rest) = cuts.split_at(cuts.len() / 2);
    let Some((cut, after)) = rest.split_first() else {
        f(first, bytes);
        return;
    };
    let next = first + before.len() + 1;
    let (front, back) = bytes.split_at_mut((*cut - low) * BLOCK_SIZE);
    change_parts(f, first, low, before, front);
    change_parts(f, next, *cut, after, back);
}
