//! The layout of a data block: a header, entries and unused spans one behind the other, and in the
//! single-block form the index behind them (chapter "Directories").

use xfs_word::{FieldLayout, Form};

/// How many bytes the header has, which begins with what identifies the block.
pub const HEADER_SIZE: usize = 64;

/// In the header: where the table of the largest unused spans begins, three pairs of an offset and a
/// length of 2 bytes each.
pub const BESTFREE: usize = 48;

/// In the header: zeros behind this table.
pub const PAD: FieldLayout = FieldLayout {
    name: "pad",
    offset: 60,
    width: 4,
    form: Form::Hexadecimal,
};

/// In the single-block form: how many pairs the index has.
pub const COUNT: FieldLayout = FieldLayout {
    name: "count",
    offset: 4088,
    width: 4,
    form: Form::Decimal,
};

/// In the single-block form: how many of these pairs are stale.
pub const STALE: FieldLayout = FieldLayout {
    name: "stale",
    offset: 4092,
    width: 4,
    form: Form::Decimal,
};

/// How many bytes a pair of the index has, which is a hash and an address of 4 bytes each.
pub const PAIR_SIZE: usize = 8;

/// In an entry: the inode number.
pub const INUMBER: FieldLayout = FieldLayout {
    name: "inumber",
    offset: 0,
    width: 8,
    form: Form::Decimal,
};

/// In an entry: how many bytes its name has.
pub const NAMELEN: FieldLayout = FieldLayout {
    name: "namelen",
    offset: 8,
    width: 1,
    form: Form::Decimal,
};

/// In an entry: the offset of its name. Behind the name stands the file type, of 1 byte, and in the last
/// 2 bytes the tag, which is the entry's own offset in the block.
pub const NAME: usize = 9;

/// In an unused span: the mark that tells it from an entry.
pub const FREETAG: FieldLayout = FieldLayout {
    name: "freetag",
    offset: 0,
    width: 2,
    form: Form::Hexadecimal,
};

/// In an unused span: how many bytes it has. The tag stands in the last 2 of them.
pub const LENGTH: FieldLayout = FieldLayout {
    name: "length",
    offset: 2,
    width: 2,
    form: Form::Decimal,
};

/// The mark of an unused span.
pub const UNUSED: u16 = 0xffff;

/// How many bytes a tag has.
pub const TAG_SIZE: usize = 2;
