//! The layout of the free list: sector 3 of each allocation group (chapter "AG Free Space Management").

use crate::arrays::ArrayLayout;
use xfs_word::{FieldLayout, Form};

pub const MAGICNUM: FieldLayout = FieldLayout {
    name: "magicnum",
    offset: 0,
    width: 4,
    form: Form::Hexadecimal,
};

pub const SEQNO: FieldLayout = FieldLayout {
    name: "seqno",
    offset: 4,
    width: 4,
    form: Form::Decimal,
};

pub const UUID: FieldLayout = FieldLayout {
    name: "uuid",
    offset: 8,
    width: 16,
    form: Form::Identifier,
};

pub const LSN: FieldLayout = FieldLayout {
    name: "lsn",
    offset: 24,
    width: 8,
    form: Form::Hexadecimal,
};

pub const CRC: FieldLayout = FieldLayout {
    name: "crc",
    offset: 32,
    width: 4,
    form: Form::Checksum,
};

/// The entries, each the number of an AG block.
pub const BNO: ArrayLayout = ArrayLayout {
    name: "bno",
    offset: 36,
    count: 119,
    form: Form::Decimal,
};

/// Every field but the array, in the order of their offsets.
pub const AGFL: [FieldLayout; 5] = [MAGICNUM, SEQNO, UUID, LSN, CRC];
