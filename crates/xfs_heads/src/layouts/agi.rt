//! The layout of the inode header: sector 2 of each allocation group (chapter "AG Inode Management").

use crate::arrays::ArrayLayout;
use xfs_word::{FieldLayout, Form};

pub const MAGICNUM: FieldLayout = FieldLayout {
    name: "magicnum",
    offset: 0,
    width: 4,
    form: Form::Hexadecimal,
};

pub const VERSIONNUM: FieldLayout = FieldLayout {
    name: "versionnum",
    offset: 4,
    width: 4,
    form: Form::Decimal,
};

pub const SEQNO: FieldLayout = FieldLayout {
    name: "seqno",
    offset: 8,
    width: 4,
    form: Form::Decimal,
};

pub const LENGTH: FieldLayout = FieldLayout {
    name: "length",
    offset: 12,
    width: 4,
    form: Form::Decimal,
};

pub const COUNT: FieldLayout = FieldLayout {
    name: "count",
    offset: 16,
    width: 4,
    form: Form::Decimal,
};

pub const ROOT: FieldLayout = FieldLayout {
    name: "root",
    offset: 20,
    width: 4,
    form: Form::Decimal,
};

pub const LEVEL: FieldLayout = FieldLayout {
    name: "level",
    offset: 24,
    width: 4,
    form: Form::Decimal,
};

pub const FREECOUNT: FieldLayout = FieldLayout {
    name: "freecount",
    offset: 28,
    width: 4,
    form: Form::Decimal,
};

pub const NEWINO: FieldLayout = FieldLayout {
    name: "newino",
    offset: 32,
    width: 4,
    form: Form::Decimal,
};

pub const DIRINO: FieldLayout = FieldLayout {
    name: "dirino",
    offset: 36,
    width: 4,
    form: Form::Decimal,
};

pub const UUID: FieldLayout = FieldLayout {
    name: "uuid",
    offset: 296,
    width: 16,
    form: Form::Identifier,
};

pub const CRC: FieldLayout = FieldLayout {
    name: "crc",
    offset: 312,
    width: 4,
    form: Form::Checksum,
};

pub const LSN: FieldLayout = FieldLayout {
    name: "lsn",
    offset: 320,
    width: 8,
    form: Form::Hexadecimal,
};

pub const FREE_ROOT: FieldLayout = FieldLayout {
    name: "free_root",
    offset: 328,
    width: 4,
    form: Form::Decimal,
};

pub const FREE_LEVEL: FieldLayout = FieldLayout {
    name: "free_level",
    offset: 332,
    width: 4,
    form: Form::Decimal,
};

/// The heads of the 64 chains of unlinked inodes.
pub const UNLINKED: ArrayLayout = ArrayLayout {
    name: "unlinked",
    offset: 40,
    count: 64,
    form: Form::Decimal,
};

/// Every field but the array, in the order of their offsets.
pub const AGI: [FieldLayout; 15] = [
    MAGICNUM, VERSIONNUM, SEQNO, LENGTH, COUNT, ROOT, LEVEL, FREECOUNT, NEWINO, DIRINO, UUID, CRC,
    LSN, FREE_ROOT, FREE_LEVEL,
];
