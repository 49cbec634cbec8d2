//! The layout of an inode: 512 bytes, of which the first 176 are its core (chapter "On-disk Inode").

use xfs_word::{FieldLayout, Form};

pub const MAGIC: FieldLayout = FieldLayout {
    name: "magic",
    offset: 0,
    width: 2,
    form: Form::Hexadecimal,
};

pub const MODE: FieldLayout = FieldLayout {
    name: "mode",
    offset: 2,
    width: 2,
    form: Form::Hexadecimal,
};

pub const VERSION: FieldLayout = FieldLayout {
    name: "version",
    offset: 4,
    width: 1,
    form: Form::Decimal,
};

pub const FORMAT: FieldLayout = FieldLayout {
    name: "format",
    offset: 5,
    width: 1,
    form: Form::Decimal,
};

pub const UID: FieldLayout = FieldLayout {
    name: "uid",
    offset: 8,
    width: 4,
    form: Form::Decimal,
};

pub const GID: FieldLayout = FieldLayout {
    name: "gid",
    offset: 12,
    width: 4,
    form: Form::Decimal,
};

pub const NLINK: FieldLayout = FieldLayout {
    name: "nlink",
    offset: 16,
    width: 4,
    form: Form::Decimal,
};

pub const PROJID_LO: FieldLayout = FieldLayout {
    name: "projid_lo",
    offset: 20,
    width: 2,
    form: Form::Decimal,
};

pub const PROJID_HI: FieldLayout = FieldLayout {
    name: "projid_hi",
    offset: 22,
    width: 2,
    form: Form::Decimal,
};

pub const ATIME: FieldLayout = FieldLayout {
    name: "atime",
    offset: 32,
    width: 8,
    form: Form::Hexadecimal,
};

pub const MTIME: FieldLayout = FieldLayout {
    name: "mtime",
    offset: 40,
    width: 8,
    form: Form::Hexadecimal,
};

pub const CTIME: FieldLayout = FieldLayout {
    name: "ctime",
    offset: 48,
    width: 8,
    form: Form::Hexadecimal,
};

pub const SIZE: FieldLayout = FieldLayout {
    name: "size",
    offset: 56,
    width: 8,
    form: Form::Decimal,
};

pub const NBLOCKS: FieldLayout = FieldLayout {
    name: "nblocks",
    offset: 64,
    width: 8,
    form: Form::Decimal,
};

pub const EXTSIZE: FieldLayout = FieldLayout {
    name: "extsize",
    offset: 72,
    width: 4,
    form: Form::Decimal,
};

pub const NEXTENTS: FieldLayout = FieldLayout {
    name: "nextents",
    offset: 76,
    width: 4,
    form: Form::Decimal,
};

pub const ANEXTENTS: FieldLayout = FieldLayout {
    name: "anextents",
    offset: 80,
    width: 2,
    form: Form::Decimal,
};

pub const FORKOFF: FieldLayout = FieldLayout {
    name: "forkoff",
    offset: 82,
    width: 1,
    form: Form::Decimal,
};

pub const AFORMAT: FieldLayout = FieldLayout {
    name: "aformat",
    offset: 83,
    width: 1,
    form: Form::Decimal,
};

pub const FLAGS: FieldLayout = FieldLayout {
    name: "flags",
    offset: 90,
    width: 2,
    form: Form::Hexadecimal,
};

pub const GENERATION: FieldLayout = FieldLayout {
    name: "gen",
    offset: 92,
    width: 4,
    form: Form::Decimal,
};

pub const NEXT_UNLINKED: FieldLayout = FieldLayout {
    name: "next_unlinked",
    offset: 96,
    width: 4,
    form: Form::Decimal,
};

pub const CRC: FieldLayout = FieldLayout {
    name: "crc",
    offset: 100,
    width: 4,
    form: Form::Checksum,
};

pub const CHANGECOUNT: FieldLayout = FieldLayout {
    name: "changecount",
    offset: 104,
    width: 8,
    form: Form::Decimal,
};

pub const LSN: FieldLayout = FieldLayout {
    name: "lsn",
    offset: 112,
    width: 8,
    form: Form::Hexadecimal,
};

pub const FLAGS2: FieldLayout = FieldLayout {
    name: "flags2",
    offset: 120,
    width: 8,
    form: Form::Hexadecimal,
};

pub const COWEXTSIZE: FieldLayout = FieldLayout {
    name: "cowextsize",
    offset: 128,
    width: 4,
    form: Form::Decimal,
};

pub const CRTIME: FieldLayout = FieldLayout {
    name: "crtime",
    offset: 144,
    width: 8,
    form: Form::Hexadecimal,
};

pub const INO: FieldLayout = FieldLayout {
    name: "ino",
    offset: 152,
    width: 8,
    form: Form::Decimal,
};

pub const UUID: FieldLayout = FieldLayout {
    name: "uuid",
    offset: 160,
    width: 16,
    form: Form::Identifier,
};

/// Every field of the core, in the order of their offsets.
pub const INODE: [FieldLayout; 30] = [
    MAGIC,
    MODE,
    VERSION,
    FORMAT,
    UID,
    GID,
    NLINK,
    PROJID_LO,
    PROJID_HI,
    ATIME,
    MTIME,
    CTIME,
    SIZE,
    NBLOCKS,
    EXTSIZE,
    NEXTENTS,
    ANEXTENTS,
    FORKOFF,
    AFORMAT,
    FLAGS,
    GENERATION,
    NEXT_UNLINKED,
    CRC,
    CHANGECOUNT,
    LSN,
    FLAGS2,
    COWEXTSIZE,
    CRTIME,
    INO,
    UUID,
];

/// The bytes of a slot.
pub const SLOT_SIZE: usize = 512;

/// The byte offset at which the data fork begins. It reaches up to the attribute fork, or to the slot's end.
pub const DATA_FORK: usize = 176;

/// The bytes of both forks.
pub const FORKS_SIZE: usize = SLOT_SIZE - DATA_FORK;

/// The bytes of an extent in a fork.
pub const EXTENT_SIZE: usize = 16;

/// In the data fork of a device: its number, which is `major << 18 | minor`.
pub const DEVICE: FieldLayout = FieldLayout {
    name: "dev",
    offset: DATA_FORK,
    width: 4,
    form: Form::Decimal,
};
