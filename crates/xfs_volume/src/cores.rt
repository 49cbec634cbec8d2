//! The core of an inode.

/// The core of an inode: one value for each field of its layout (chapter "On-disk Inode").
#[derive(Clone, Copy, Debug, PartialEq, Eq)]
pub struct Core {
    /// `IN`.
    pub magic: u16,
    /// The type of the file in the upper four bits, and its permissions; 0 where the slot is free.
    pub mode: u16,
    pub version: u8,
    /// What the data fork is: 0 a device, 1 local, 2 extents, 3 a tree of extents.
    pub format: u8,
    pub uid: u32,
    pub gid: u32,
    /// How many names the file has.
    pub nlink: u32,
    /// The lower half of the project number.
    pub projid_lo: u16,
    /// The upper half of the project number.
    pub projid_hi: u16,
    /// The time of the last access: seconds in the upper 32 bits, nanoseconds in the lower.
    pub atime: u64,
    /// The time of the last change of the bytes.
    pub mtime: u64,
    /// The time of the last change of the inode.
    pub ctime: u64,
    /// The bytes of the file.
    pub size: u64,
    /// The blocks of data, extent trees and attributes.
    pub nblocks: u64,
    /// The blocks of an extent that is asked for.
    pub extsize: u32,
    /// The extents of the data fork.
    pub nextents: u32,
    /// The extents of the attribute fork.
    pub anextents: u16,
    /// Where the attribute fork begins, in 8 bytes from the data fork on; 0 where there is none.
    pub forkoff: u8,
    /// What the attribute fork is, as `format`.
    pub aformat: u8,
    pub flags: u16,
    /// Named `gen` in the layout: the number that tells the files of one slot apart.
    pub generation: u32,
    /// The next in a chain of unlinked inodes; all ones at its end.
    pub next_unlinked: u32,
    /// The checksum, as it is stored.
    pub crc: u32,
    pub changecount: u64,
    pub lsn: u64,
    pub flags2: u64,
    /// The blocks of an extent that is copied on write.
    pub cowextsize: u32,
    /// The time at which the file was made.
    pub crtime: u64,
    /// The number of the inode.
    pub ino: u64,
    pub uuid: [u8; 16],
}
