//! The layout of the block of a symbolic link (chapter "Symbolic Links").

use xfs_word::{FieldLayout, Form};

pub const MAGIC: FieldLayout = FieldLayout {
    name: "magic",
    offset: 0,
    width: 4,
    form: Form::Hexadecimal,
};

/// Where the bytes of the block begin in the target.
pub const OFFSET: FieldLayout = FieldLayout {
    name: "offset",
    offset: 4,
    width: 4,
    form: Form::Decimal,
};

/// How many bytes of the target the block holds.
pub const BYTES: FieldLayout = FieldLayout {
    name: "bytes",
    offset: 8,
    width: 4,
    form: Form::Decimal,
};

pub const CRC: FieldLayout = FieldLayout {
    name: "crc",
    offset: 12,
    width: 4,
    form: Form::Checksum,
};

pub const UUID: FieldLayout = FieldLayout {
    name: "uuid",
    offset: 16,
    width: 16,
    form: Form::Identifier,
};

pub const OWNER: FieldLayout = FieldLayout {
    name: "owner",
    offset: 32,
    width: 8,
    form: Form::Decimal,
};

/// The block's own address, in sectors.
pub const BLKNO: FieldLayout = FieldLayout {
    name: "blkno",
    offset: 40,
    width: 8,
    form: Form::Decimal,
};

pub const LSN: FieldLayout = FieldLayout {
    name: "lsn",
    offset: 48,
    width: 8,
    form: Form::Hexadecimal,
};

/// The header of the block, in the order of its fields.
pub const HEADER: [FieldLayout; 8] = [MAGIC, OFFSET, BYTES, CRC, UUID, OWNER, BLKNO, LSN];

/// The byte offset of the target in the block.
pub const TARGET: usize = 56;

/// The most bytes of a target.
pub const LONGEST_TARGET: u64 = 1024;
