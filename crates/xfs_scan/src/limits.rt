//! How much a volume may have.

ghost use Rattle.std.specs.Prelude.{◌≡◌, ◌+◌, ◌*◌, ◌^◌, ◌<◌, length, SomeIff};
ghost use Rattle.std.specs.List.{sum_by};
ghost use Rattle.xfs_image.specs.Candidates.{ClustersAscend};
ghost use Rattle.xfs_groups.specs.Answers.{EndBelow};
ghost use Rattle.xfs_scan.specs.Refused.{extents_of, feature_refused, unless_more};

use crate::faults::ScanFault;
use xfs_geom::Geometry;
use xfs_slots::InodeFeature;
use xfs_volume::{ClusterRec, FileRec};

/// The most inodes of clusters, extents of files and entries of directories.
pub const MOST_INODES: u64 = 1 << 21;

const MOST_EXTENTS: u64 = 1 << 23;

const MOST_ENTRIES: u64 = 1 << 23;

/// What there is too much of.
pub const INODES: u8 = 1;

const EXTENTS: u8 = 2;

const ENTRIES: u8 = 3;

/// The inodes of a cluster.
const CLUSTER_INODES: u64 = 32;

/// The inodes of clusters of which no two have a block in common.
pub fn count_inodes(g: &Geometry, clusters: &[ClusterRec]) -> u64
    requires ascend { ClustersAscend 0 clusters.now }
    requires inside { EndBelow g.now.dblocks clusters.now }
    ensures { result ≡ 32 * length clusters.now }
{
    CLUSTER_INODES * clusters.len() as u64
}

/// The extents of both forks of files, just where eight bytes hold their number.
pub fn count_extents(files: &[FileRec]) -> Option<u64>
    ensures { SomeIff result (sum_by extents_of files.now < 2 ^ 64) (sum_by extents_of files.now) }
{
    let mut count = 0;
    for file in files {
        match count_more(count, file) {
            Some(more) => count = more,
            None => return None,
        }
    }
    Some(count)
}

/// A count with the extents of both forks of one more file, just where eight bytes hold it.
fn count_more(count: u64, file: &FileRec) -> Option<u64>
    ensures { SomeIff result (count + extents_of file.now < 2 ^ 64) (count + extents_of file.now) }
{
    count.checked_add(file.extents.as_slice().len() as u64 + file.rest.attr_extents().len() as u64)
}

/// Why a volume is refused whose clusters are not too many.
pub fn refusal(extents: u64, entries: u64, feature: Option<InodeFeature>) -> Option<ScanFault>
    ensures { result ≡ unless_more (2 ^ 23) 2 extents (unless_more (2 ^ 23) 3 entries (feature_refused feature)) }
{
    if extents > MOST_EXTENTS {
        return Some(ScanFault::TooLarge {
            what: EXTENTS,
            count: extents,
        });
    }
    if entries > MOST_ENTRIES {
        return Some(ScanFault::TooLarge {
            what: ENTRIES,
            count: entries,
        });
    }
    match feature {
        None => None,
        Some(InodeFeature { ino, what }) => Some(ScanFault::UnsupportedFile { ino, what }),
    }
}
