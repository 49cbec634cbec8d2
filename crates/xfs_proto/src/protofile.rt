//! What a protofile says, and why a text is none.

use xfs_disk::Word;
use xfs_volume::Records;

/// The files that a protofile says.
#[derive(Drop)]
pub struct Proto {
    /// One for each file, depth first: the root, then each entry before those of the directories behind it.
    pub nodes: Records<ProtoNode>,
}

/// A file that a protofile says.
#[derive(Drop)]
pub struct ProtoNode {
    /// The place of its directory among the nodes, from 0. The root's is 0.
    pub parent: u64,
    /// Its name in its directory. The root's is empty.
    pub name: Word,
    /// Its mode, as it stands in an inode: the type in the upper four bits, the bits that set user and group, and the
    /// permissions.
    pub mode: u16,
    /// The number of its user.
    pub uid: u32,
    /// The number of its group.
    pub gid: u32,
    /// Its type, with what belongs to it.
    pub kind: ProtoKind,
}

/// The type of a file, with what a protofile says of its content.
#[derive(Drop)]
pub enum ProtoKind {
    /// A regular file.
    Regular {
        /// The name by which a library has its bytes.
        name: Word,
        /// The line of that name in the protofile, from 1.
        line: u64,
    },
    /// A directory.
    Directory,
    /// A symbolic link to this target of 1 to 1024 bytes.
    Link(Word),
    /// A block device. `major` is below 2^14, `minor` below 2^18.
    Block {
        major: u32,
        minor: u32,
    },
    /// A character device. `major` is below 2^14, `minor` below 2^18.
    Character {
        major: u32,
        minor: u32,
    },
    /// A fifo.
    Pipe,
}

/// Why a text gives no files.
#[derive(Clone, Copy, Debug)]
pub enum ProtoFault {
    /// It is no protofile: its first token that can't stand where it does.
    Bad {
        /// The line of that token, from 1. Where tokens lack, it is that of the last one, or 1 where there is none.
        line: u64,
        /// 1: tokens lack; 2: it is no mode, or the root's isn't that of a directory; 3: it is no number, or one too
        /// large; 4: it is no name, its directory has it already, or has 2^24 entries; 5: a target of more than 1024
        /// bytes; 6: it stands behind the end.
        reason: u8,
    },
    /// There is not enough memory.
    NoMemory,
}
