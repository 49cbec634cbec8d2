//! What a session is asked for, and how it ends.

use xfs_disk::Word;
use xfs_volume::Records;

/// What the user may do, and the commands that are run in place of an input.
#[derive(Drop)]
pub struct ShellOptions {
    /// Fields may be written.
    pub expert: bool,
    /// Nothing is written.
    pub read_only: bool,
    /// One command each. Where there is none, lines are read.
    pub commands: Records<Word>,
}

/// How a session ended. `finished` is the number of commands that were finished.
#[derive(Clone, Copy, Debug)]
pub enum ShellOutcome {
    /// All commands were run, up to the end or to the first `quit`.
    Done,
    /// No superblock states a geometry.
    NoGeometry,
    /// The primary superblock has a feature word that is refused.
    Unsupported { word: u8, bits: u64 },
    /// A read failed.
    ReadFault { finished: u64 },
    /// A write or a sync failed. Each written field is one block: it was not written (0), or it was but may not be
    /// kept (1).
    WriteFault { written: u64, finished: u64 },
    /// The input could not be read. No command was run.
    InputFault,
    /// The input has more than 1,048,576 bytes. No command was run.
    InputLong,
    /// Lines of the last finished command could not be put.
    OutputFault { finished: u64 },
    /// There is not enough memory.
    NoMemory { finished: u64 },
}
