//! The numbers of the inodes of a new volume.

ghost use Rattle.std.specs.Prelude.{◌≡◌, ◌+◌, ◌*◌, ◌<◌, ◌≤◌, ◌^◌, length};
ghost use Rattle.std.specs.List.{All};
ghost use Rattle.xfs_geom.specs.Volumes.{volume_of};
ghost use Rattle.xfs_filled.specs.Numbers.{chunk_count, further_chunks, inode_at, index_of_place, number_of};

use xfs_geom::Geometry;

/// How many inodes a chunk has, how many a block has, and how many the system has for itself behind the root.
pub const CHUNK_INODES: usize = 64;

const BLOCK_INODES: usize = 8;

pub const SYSTEM_INODES: usize = 2;

/// How many chunks so many files have.
pub fn chunk_count(files: usize) -> usize
    requires { files < 2 ^ 63 }
    ensures { result ≡ chunk_count files }
{
    (files + SYSTEM_INODES + CHUNK_INODES - 1) / CHUNK_INODES
}

/// How many chunks are asked for behind the first.
pub fn further_chunks(files: usize) -> u32
    requires { files < 2 ^ 63 }
    ensures { result ≡ further_chunks files }
{
    let further = chunk_count(files).saturating_sub(1);
    further.min(u32::MAX as usize) as u32
}

/// The number of inode `j` of all chunks, which begin at these blocks.
pub fn inode_at(g: &Geometry, starts: &[u64], j: usize) -> u64
    requires inside { j < 64 * length starts.now }
    requires volume { All (λ start. start + 8 ≤ g.now.dblocks) starts.now }
    ensures value { result ≡ inode_at (volume_of g.now) starts.now j }
    ensures low { result < 2 ^ 30 }
{
    let block = starts[j / CHUNK_INODES] + (j % CHUNK_INODES / BLOCK_INODES) as u64;
    g.inode_of_slot(block, (j % BLOCK_INODES) as u8)
}

/// Which inode of all chunks the file at a place has.
fn index_of(k: usize) -> usize
    requires { k < 2 ^ 63 }
    ensures { result ≡ index_of_place k }
{
    if k == 0 { 0 } else { k + SYSTEM_INODES }
}

/// The number of the file at a place.
pub fn number_of(g: &Geometry, starts: &[u64], k: usize) -> u64
    requires inside { k + 2 < 64 * length starts.now }
    requires few { length starts.now < 2 ^ 32 }
    requires volume { All (λ start. start + 8 ≤ g.now.dblocks) starts.now }
    ensures value { result ≡ number_of (volume_of g.now) starts.now k }
    ensures low { result < 2 ^ 30 }
{
    inode_at(g, starts, index_of(k))
}
