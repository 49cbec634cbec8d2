//! The layout of a key of the tree of a file's extents (chapter "Data Extents").

use xfs_word::{FieldLayout, Form};

pub const OFFSET: FieldLayout = FieldLayout {
    name: "offset",
    offset: 0,
    width: 8,
    form: Form::Decimal,
};
