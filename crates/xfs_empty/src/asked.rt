//! What is asked of the sizes of a new volume.

/// What is asked of the sizes of a new volume, where it is; at most one of `agcount` and `agblocks`.
#[derive(Clone, Copy)]
pub struct SizesAsked {
    /// The blocks of the volume: by default all of the disk's.
    pub blocks: Option<u64>,
    /// How many allocation groups there are: by default 4.
    pub agcount: Option<u64>,
    /// The blocks of an allocation group, in place of their number.
    pub agblocks: Option<u64>,
    /// The blocks of the log: by default the greatest of 512, a 1024th of the volume's and, where groups have 4096 blocks or more and the
    /// log's has room, the 2560 that kernels ask for.
    pub logblocks: Option<u64>,
}
