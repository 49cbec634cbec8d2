//! The geometry of a volume.

ghost use Rattle.std.specs.Prelude.{◌≡◌, ℕ, ◌*◌, ◌<◌};
ghost use Rattle.xfs_geom.specs.Shape.{IsShaped};

/// The geometry of a volume, as an accepted superblock states it (chapter "Superblocks").
///
/// Its numbers keep the shape of a volume: 2 to 512 allocation groups of at least 1024 blocks, of which
/// the last may have fewer, but at least 64; a log of 512 to 2^20 blocks inside one group; a root
/// cluster inside a chunk.
#[derive(Clone, Copy, PartialEq, Eq, PartialOrd, Ord)]
pub struct Geometry {
    /// The blocks of the volume.
    pub dblocks: u64,
    /// The blocks of an allocation group.
    pub agblocks: u32,
    /// How many allocation groups there are.
    pub agcount: u32,
    /// The bits of an AG block in an address.
    pub agblklog: u8,
    /// The number of the log's first block, counted from the start of the image.
    pub log: u64,
    /// The blocks of the log.
    pub logblocks: u32,
    /// The number of the root inode.
    pub rootino: u64,
    /// The logarithm of the log's sector size in bytes, or 0 where none is stated.
    pub logsectlog: u8,
    /// The identifier of the volume.
    pub uuid: [u8; 16],
    pub ghost shape: { IsShaped dblocks agblocks agcount agblklog log logblocks rootino logsectlog },
}

impl Geometry {
    /// The number of the block at which an allocation group begins.
    #[tactic(auto, using(crate::proofs::Bounds::group_start))]
    pub fn start_of_group(&self, group: u32) -> u64
        requires { group < self.now.agcount }
        ensures value { result ≡ group * self.now.agblocks }
        ensures inside { result < self.now.dblocks }
    {
        group as u64 * self.agblocks as u64
    }
}
