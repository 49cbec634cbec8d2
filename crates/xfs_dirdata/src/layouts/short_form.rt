//! The layout of a short form: a header, and entries one behind the other (chapter "Directories").

use xfs_word::{FieldLayout, Form};

/// How many entries there are.
pub const COUNT: FieldLayout = FieldLayout {
    name: "count",
    offset: 0,
    width: 1,
    form: Form::Decimal,
};

/// How many entries have inode numbers of 8 bytes.
pub const I8COUNT: FieldLayout = FieldLayout {
    name: "i8count",
    offset: 1,
    width: 1,
    form: Form::Decimal,
};

/// The inode number of the parent.
pub const PARENT: FieldLayout = FieldLayout {
    name: "parent",
    offset: 2,
    width: 4,
    form: Form::Decimal,
};

/// The header of a short form, in the order of its fields.
pub const HEADER: [FieldLayout; 3] = [COUNT, I8COUNT, PARENT];

/// How many bytes the header has.
pub const HEADER_SIZE: usize = 6;

/// In an entry: how many bytes its name has.
pub const NAMELEN: FieldLayout = FieldLayout {
    name: "namelen",
    offset: 0,
    width: 1,
    form: Form::Decimal,
};

/// In an entry: the offset, in bytes, that it would have in a data block.
pub const OFFSET: FieldLayout = FieldLayout {
    name: "offset",
    offset: 1,
    width: 2,
    form: Form::Decimal,
};

/// In an entry: the offset of its name. Behind the name stand the file type, of 1 byte, and the inode
/// number, of 4.
pub const NAME: usize = 3;

/// How many bytes an entry has beside its name.
pub const ENTRY_SIZE: usize = 8;
