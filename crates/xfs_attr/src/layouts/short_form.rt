//! The layout of the short form: a header and its entries, one behind the other.

use xfs_word::{FieldLayout, Form};

/// The bytes of the short form, its header among them.
pub const TOTSIZE: FieldLayout = FieldLayout {
    name: "totsize",
    offset: 0,
    width: 2,
    form: Form::Decimal,
};

/// How many entries there are.
pub const COUNT: FieldLayout = FieldLayout {
    name: "count",
    offset: 2,
    width: 1,
    form: Form::Decimal,
};

/// The bytes of the header.
pub const HEADER_SIZE: usize = 4;

/// The bytes of an entry's name.
pub const NAMELEN: FieldLayout = FieldLayout {
    name: "namelen",
    offset: 0,
    width: 1,
    form: Form::Decimal,
};

/// The bytes of an entry's value.
pub const VALUELEN: FieldLayout = FieldLayout {
    name: "valuelen",
    offset: 1,
    width: 1,
    form: Form::Decimal,
};

/// The flags of an entry.
pub const FLAGS: FieldLayout = FieldLayout {
    name: "flags",
    offset: 2,
    width: 1,
    form: Form::Hexadecimal,
};

/// The bytes of an entry in front of its name.
pub const ENTRY_SIZE: usize = 3;
