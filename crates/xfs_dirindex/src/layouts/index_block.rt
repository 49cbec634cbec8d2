//! The layout of an index block of pairs: a header and the pairs behind it, and in the leaf form the
//! values at its end (chapter "Directories").

use xfs_word::{FieldLayout, Form};

/// The file block of the next index block on the same level.
pub const FORW: FieldLayout = FieldLayout {
    name: "forw",
    offset: 0,
    width: 4,
    form: Form::Decimal,
};

/// The file block of the one before.
pub const BACK: FieldLayout = FieldLayout {
    name: "back",
    offset: 4,
    width: 4,
    form: Form::Decimal,
};

/// What the block is.
pub const MAGIC: FieldLayout = FieldLayout {
    name: "magic",
    offset: 8,
    width: 2,
    form: Form::Hexadecimal,
};

/// The magic number of the index block of the leaf form.
pub const LEAF_MAGIC: u16 = 0x3df1;

/// The magic number of a leaf of the node form.
pub const NODE_LEAF_MAGIC: u16 = 0x3dff;

/// The magic number of a node.
pub const NODE_MAGIC: u16 = 0x3ebe;

/// How many pairs there are.
pub const COUNT: FieldLayout = FieldLayout {
    name: "count",
    offset: 56,
    width: 2,
    form: Form::Decimal,
};

/// How many of the pairs are stale; in a node its level.
pub const STALE: FieldLayout = FieldLayout {
    name: "stale",
    offset: 58,
    width: 2,
    form: Form::Decimal,
};

/// How many bytes the header has.
pub const HEADER_SIZE: usize = 64;

/// In the leaf form: how many values stand in front of this field.
pub const VALUE_COUNT: FieldLayout = FieldLayout {
    name: "bestcount",
    offset: 4092,
    width: 4,
    form: Form::Decimal,
};

/// How many bytes a value has.
pub const VALUE_SIZE: usize = 2;
