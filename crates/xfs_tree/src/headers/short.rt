//! The header of a block whose tree belongs to an allocation group: 56 bytes (chapter "Common B+trees").

use xfs_word::{FieldLayout, Form};

pub const MAGIC: FieldLayout = FieldLayout {
    name: "magic",
    offset: 0,
    width: 4,
    form: Form::Hexadecimal,
};

pub const LEVEL: FieldLayout = FieldLayout {
    name: "level",
    offset: 4,
    width: 2,
    form: Form::Decimal,
};

pub const NUMRECS: FieldLayout = FieldLayout {
    name: "numrecs",
    offset: 6,
    width: 2,
    form: Form::Decimal,
};

pub const LEFTSIB: FieldLayout = FieldLayout {
    name: "leftsib",
    offset: 8,
    width: 4,
    form: Form::Decimal,
};

pub const RIGHTSIB: FieldLayout = FieldLayout {
    name: "rightsib",
    offset: 12,
    width: 4,
    form: Form::Decimal,
};

pub const BNO: FieldLayout = FieldLayout {
    name: "bno",
    offset: 16,
    width: 8,
    form: Form::Decimal,
};

pub const LSN: FieldLayout = FieldLayout {
    name: "lsn",
    offset: 24,
    width: 8,
    form: Form::Hexadecimal,
};

pub const UUID: FieldLayout = FieldLayout {
    name: "uuid",
    offset: 32,
    width: 16,
    form: Form::Identifier,
};

pub const OWNER: FieldLayout = FieldLayout {
    name: "owner",
    offset: 48,
    width: 4,
    form: Form::Decimal,
};

pub const CRC: FieldLayout = FieldLayout {
    name: "crc",
    offset: 52,
    width: 4,
    form: Form::Checksum,
};

/// Every field, in the order of their offsets.
pub const SHORT: [FieldLayout; 10] = [
    MAGIC, LEVEL, NUMRECS, LEFTSIB, RIGHTSIB, BNO, LSN, UUID, OWNER, CRC,
];
