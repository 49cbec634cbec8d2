//! Items shared out over blocks as evenly as can be.

ghost use Rattle.std.specs.Prelude.{◌≡◌, ◌+◌, ◌<◌, ◌≤◌};
ghost use Rattle.xfs_disk.specs.Shares.{share_of, first_of_share};

/// How many of `items` block `i` of `blocks` has: all as many, or the first ones one more.
pub fn share_of(items: usize, blocks: usize, i: usize) -> usize
    requires { i < blocks }
    ensures value { result ≡ share_of items blocks i }
    ensures next { first_of_share items blocks (i + 1) ≡ first_of_share items blocks i + result }
    ensures inside { first_of_share items blocks i + result ≤ items }
{
    let share = items / blocks;
    if i < items % blocks { share + 1 } else { share }
}
