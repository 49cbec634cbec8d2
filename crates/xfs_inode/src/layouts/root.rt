//! The layout of the root of a tree of extents, in the data fork of an inode (chapter "Data Extents").

use xfs_word::{FieldLayout, Form};

/// How many levels are under the root, from byte 176 of the slot on.
pub const LEVEL: FieldLayout = FieldLayout {
    name: "level",
    offset: 176,
    width: 2,
    form: Form::Decimal,
};

/// How many children the root has.
pub const NUMRECS: FieldLayout = FieldLayout {
    name: "numrecs",
    offset: 178,
    width: 2,
    form: Form::Decimal,
};

/// The header of a root, in the order of its fields.
pub const HEADER: [FieldLayout; 2] = [LEVEL, NUMRECS];

/// The byte offset of the first key in the slot. Behind the keys of a full root stand the addresses.
pub const KEYS: usize = 180;

/// The bytes of the header.
pub const HEADER_SIZE: usize = 4;

/// The bytes of a key, and of an address.
pub const WIDTH: usize = 8;
