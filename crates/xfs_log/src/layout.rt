//! The layout of a log record's header, and of the first operation of its data (chapter "Journaling Log").

use xfs_heads::ArrayLayout;
use xfs_word::{FieldLayout, Form};

pub const MAGICNO: FieldLayout = FieldLayout {
    name: "magicno",
    offset: 0,
    width: 4,
    form: Form::Hexadecimal,
};

pub const CYCLE: FieldLayout = FieldLayout {
    name: "cycle",
    offset: 4,
    width: 4,
    form: Form::Decimal,
};

pub const VERSION: FieldLayout = FieldLayout {
    name: "version",
    offset: 8,
    width: 4,
    form: Form::Decimal,
};

/// The bytes of the record's data.
pub const LEN: FieldLayout = FieldLayout {
    name: "len",
    offset: 12,
    width: 4,
    form: Form::Decimal,
};

pub const LSN: FieldLayout = FieldLayout {
    name: "lsn",
    offset: 16,
    width: 8,
    form: Form::Hexadecimal,
};

/// The number of the record at which a replay begins.
pub const TAIL_LSN: FieldLayout = FieldLayout {
    name: "tail_lsn",
    offset: 24,
    width: 8,
    form: Form::Hexadecimal,
};

pub const CRC: FieldLayout = FieldLayout {
    name: "crc",
    offset: 32,
    width: 4,
    form: Form::Checksum,
};

/// The sector of the log in which the record before this one begins.
pub const PREV_BLOCK: FieldLayout = FieldLayout {
    name: "prev_block",
    offset: 36,
    width: 4,
    form: Form::Decimal,
};

/// The operations in the record's data.
pub const NUM_LOGOPS: FieldLayout = FieldLayout {
    name: "num_logops",
    offset: 40,
    width: 4,
    form: Form::Decimal,
};

/// The byte order of the log items.
pub const FMT: FieldLayout = FieldLayout {
    name: "fmt",
    offset: 300,
    width: 4,
    form: Form::Decimal,
};

pub const FS_UUID: FieldLayout = FieldLayout {
    name: "fs_uuid",
    offset: 304,
    width: 16,
    form: Form::Identifier,
};

/// The bytes of the buffer that the record was written from.
pub const SIZE: FieldLayout = FieldLayout {
    name: "size",
    offset: 320,
    width: 4,
    form: Form::Decimal,
};

/// The first number of each data sector, which the cycle replaces there.
pub const CYCLE_DATA: ArrayLayout = ArrayLayout {
    name: "cycle_data",
    offset: 44,
    count: 64,
    form: Form::Hexadecimal,
};

/// The flags of the operation that begins a record's data: a byte of its first data sector.
pub const FIRST_FLAGS: FieldLayout = FieldLayout {
    name: "flags",
    offset: 9,
    width: 1,
    form: Form::Hexadecimal,
};

/// Every field of the header but the array, in the order of their offsets.
pub const LOG_HEADER: [FieldLayout; 12] = [
    MAGICNO, CYCLE, VERSION, LEN, LSN, TAIL_LSN, CRC, PREV_BLOCK, NUM_LOGOPS, FMT, FS_UUID, SIZE,
];
