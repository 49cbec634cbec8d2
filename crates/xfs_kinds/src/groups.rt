//! Runs of blocks inside an allocation group.

ghost use Rattle.std.specs.Prelude.{◌≡◌, ◌+◌, ◌*◌, ◌<◌, ◌≤◌, nat_le, true};
ghost use Rattle.xfs_geom.specs.Volumes.{volume_of};
ghost use Rattle.xfs_kinds.specs.Groups.{lies_in_group, lies_in_one_group};

use xfs_geom::Geometry;

/// Whether a group is one of the volume, and the `count` AG blocks from `start` on lie inside it.
pub fn lies_in_group(g: &Geometry, ag: u64, start: u64, count: u64) -> bool
    ensures value { result ≡ lies_in_group (volume_of g.now) ag start count }
    ensures group { result ≡ true → ag < g.now.agcount }
    ensures inside { result ≡ true → ag * g.now.agblocks + (start + count) ≤ g.now.dblocks }
{
    ag < g.agcount as u64 && ends_by(start, count, g.group_length(ag as u32) as u64)
}

/// Whether the `count` blocks from an address on lie inside one group of the volume.
pub fn lies_in_one_group(g: &Geometry, address: u64, count: u64) -> bool
    ensures { result ≡ lies_in_one_group (volume_of g.now) address count }
{
    let size = 1 << g.agblklog;
    lies_in_group(g, address / size, address % size, count)
}

/// Whether the `count` numbers from `start` on are all below `end`, where sums may be too great to hold.
pub fn ends_by(start: u64, count: u64, end: u64) -> bool
    ensures { result ≡ nat_le (start + count) end }
{
    start <= end && count <= end - start
}
