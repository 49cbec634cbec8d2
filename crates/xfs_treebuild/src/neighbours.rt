//! The neighbours of a block in its row.

ghost use Rattle.std.specs.Prelude.{◌≡◌, ◌<◌, length};
ghost use Rattle.xfs_treebuild.specs.Private.Placed.{left_in, right_in};

/// The place to the left of a block in its row.
pub(crate) fn left_of(row: &[u64], i: usize) -> Option<u64>
    requires { i < length row.now }
    ensures { result ≡ left_in row.now i }
{
    if i == 0 { None } else { Some(row[i - 1]) }
}

/// The place to the right of a block in its row.
pub(crate) fn right_of(row: &[u64], i: usize) -> Option<u64>
    requires { i < length row.now }
    ensures { result ≡ right_in row.now i }
{
    row.get(i + 1).copied()
}
