//! A law about images that have one volume. The function does nothing; its contract is the law.

ghost use Rattle.xfs_settled.specs.Laws.Volumes.{VolumesSharePlaces};

/// Two images that have what is placed for one request, made of the same bytes, have the same blocks at the places whose bytes were at
/// hand: the headers of groups with their superblocks, and the blocks of clusters.
pub fn volumes_share_places()
    ensures { VolumesSharePlaces }
{}
