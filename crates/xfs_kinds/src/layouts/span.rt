//! The layout of a record, and of a key, of the free space trees (chapter "AG Free Space Management").

use xfs_word::{FieldLayout, Form};

pub const START: FieldLayout = FieldLayout {
    name: "start",
    offset: 0,
    width: 4,
    form: Form::Decimal,
};

pub const COUNT: FieldLayout = FieldLayout {
    name: "count",
    offset: 4,
    width: 4,
    form: Form::Decimal,
};
