//! The layout of a key of the reverse-mapping tree (chapter "Reverse-Mapping B+tree").

use xfs_word::{FieldLayout, Form};

pub const START: FieldLayout = FieldLayout {
    name: "start",
    offset: 0,
    width: 4,
    form: Form::Decimal,
};

pub const OWNER: FieldLayout = FieldLayout {
    name: "owner",
    offset: 4,
    width: 8,
    form: Form::Decimal,
};

pub const OFFSET: FieldLayout = FieldLayout {
    name: "offset",
    offset: 12,
    width: 8,
    form: Form::Decimal,
};
