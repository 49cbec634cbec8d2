//! The layout of the free space header: sector 1 of each allocation group (chapter "AG Free Space
//! Management").

use xfs_word::{FieldLayout, Form};

pub const MAGICNUM: FieldLayout = FieldLayout {
    name: "magicnum",
    offset: 0,
    width: 4,
    form: Form::Hexadecimal,
};

pub const VERSIONNUM: FieldLayout = FieldLayout {
    name: "versionnum",
    offset: 4,
    width: 4,
    form: Form::Decimal,
};

pub const SEQNO: FieldLayout = FieldLayout {
    name: "seqno",
    offset: 8,
    width: 4,
    form: Form::Decimal,
};

pub const LENGTH: FieldLayout = FieldLayout {
    name: "length",
    offset: 12,
    width: 4,
    form: Form::Decimal,
};

pub const BNOROOT: FieldLayout = FieldLayout {
    name: "bnoroot",
    offset: 16,
    width: 4,
    form: Form::Decimal,
};

pub const CNTROOT: FieldLayout = FieldLayout {
    name: "cntroot",
    offset: 20,
    width: 4,
    form: Form::Decimal,
};

pub const RMAPROOT: FieldLayout = FieldLayout {
    name: "rmaproot",
    offset: 24,
    width: 4,
    form: Form::Decimal,
};

pub const BNOLEVEL: FieldLayout = FieldLayout {
    name: "bnolevel",
    offset: 28,
    width: 4,
    form: Form::Decimal,
};

pub const CNTLEVEL: FieldLayout = FieldLayout {
    name: "cntlevel",
    offset: 32,
    width: 4,
    form: Form::Decimal,
};

pub const RMAPLEVEL: FieldLayout = FieldLayout {
    name: "rmaplevel",
    offset: 36,
    width: 4,
    form: Form::Decimal,
};

pub const FLFIRST: FieldLayout = FieldLayout {
    name: "flfirst",
    offset: 40,
    width: 4,
    form: Form::Decimal,
};

pub const FLLAST: FieldLayout = FieldLayout {
    name: "fllast",
    offset: 44,
    width: 4,
    form: Form::Decimal,
};

pub const FLCOUNT: FieldLayout = FieldLayout {
    name: "flcount",
    offset: 48,
    width: 4,
    form: Form::Decimal,
};

pub const FREEBLKS: FieldLayout = FieldLayout {
    name: "freeblks",
    offset: 52,
    width: 4,
    form: Form::Decimal,
};

pub const LONGEST: FieldLayout = FieldLayout {
    name: "longest",
    offset: 56,
    width: 4,
    form: Form::Decimal,
};

pub const BTREEBLKS: FieldLayout = FieldLayout {
    name: "btreeblks",
    offset: 60,
    width: 4,
    form: Form::Decimal,
};

pub const UUID: FieldLayout = FieldLayout {
    name: "uuid",
    offset: 64,
    width: 16,
    form: Form::Identifier,
};

pub const RMAPBLOCKS: FieldLayout = FieldLayout {
    name: "rmapblocks",
    offset: 80,
    width: 4,
    form: Form::Decimal,
};

pub const LSN: FieldLayout = FieldLayout {
    name: "lsn",
    offset: 208,
    width: 8,
    form: Form::Hexadecimal,
};

pub const CRC: FieldLayout = FieldLayout {
    name: "crc",
    offset: 216,
    width: 4,
    form: Form::Checksum,
};

/// Every field, in the order of their offsets.
pub const AGF: [FieldLayout; 20] = [
    MAGICNUM, VERSIONNUM, SEQNO, LENGTH, BNOROOT, CNTROOT, RMAPROOT, BNOLEVEL, CNTLEVEL, RMAPLEVEL,
    FLFIRST, FLLAST, FLCOUNT, FREEBLKS, LONGEST, BTREEBLKS, UUID, RMAPBLOCKS, LSN, CRC,
];
