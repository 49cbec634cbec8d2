//! The layout of a free block: a header and the values behind it (chapter "Directories").

use xfs_word::{FieldLayout, Form};

/// The first data block whose value it has.
pub const FIRST: FieldLayout = FieldLayout {
    name: "firstdb",
    offset: 48,
    width: 4,
    form: Form::Decimal,
};

/// How many values it has.
pub const VALID: FieldLayout = FieldLayout {
    name: "nvalid",
    offset: 52,
    width: 4,
    form: Form::Decimal,
};

/// How many of them are of mapped data blocks.
pub const USED: FieldLayout = FieldLayout {
    name: "nused",
    offset: 56,
    width: 4,
    form: Form::Decimal,
};

/// How many bytes the header has.
pub const HEADER_SIZE: usize = 64;

/// How many bytes a value has.
pub const VALUE_SIZE: usize = 2;

/// The most values that a free block has.
pub const MOST_VALUES: usize = 2016;
