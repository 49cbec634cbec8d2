//! The layout of a record of the reverse-mapping tree (chapter "Reverse-Mapping B+tree").

use xfs_word::{FieldLayout, Form};

pub const START: FieldLayout = FieldLayout {
    name: "start",
    offset: 0,
    width: 4,
    form: Form::Decimal,
};

pub const COUNT: FieldLayout = FieldLayout {
    name: "count",
    offset: 4,
    width: 4,
    form: Form::Decimal,
};

pub const OWNER: FieldLayout = FieldLayout {
    name: "owner",
    offset: 8,
    width: 8,
    form: Form::Decimal,
};

pub const OFFSET: FieldLayout = FieldLayout {
    name: "offset",
    offset: 16,
    width: 8,
    form: Form::Decimal,
};
