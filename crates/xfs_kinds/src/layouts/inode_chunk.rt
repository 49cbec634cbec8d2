//! The layout of a record of the inode trees (chapter "AG Inode Management"). A key is the first field.

use xfs_word::{FieldLayout, Form};

pub const STARTINO: FieldLayout = FieldLayout {
    name: "startino",
    offset: 0,
    width: 4,
    form: Form::Decimal,
};

pub const HOLEMASK: FieldLayout = FieldLayout {
    name: "holemask",
    offset: 4,
    width: 2,
    form: Form::Decimal,
};

pub const COUNT: FieldLayout = FieldLayout {
    name: "count",
    offset: 6,
    width: 1,
    form: Form::Decimal,
};

pub const FREECOUNT: FieldLayout = FieldLayout {
    name: "freecount",
    offset: 7,
    width: 1,
    form: Form::Decimal,
};

pub const FREE: FieldLayout = FieldLayout {
    name: "free",
    offset: 8,
    width: 8,
    form: Form::Decimal,
};
