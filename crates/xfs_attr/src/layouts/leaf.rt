//! The layout of an attribute leaf: a header, entries in the order of their hashes, and the values from the
//! block's end back.

use xfs_disk::BLOCK_SIZE;
use xfs_word::{FieldLayout, Form};

/// The next leaf of the fork.
pub const FORW: FieldLayout = FieldLayout {
    name: "forw",
    offset: 0,
    width: 4,
    form: Form::Decimal,
};

/// The leaf before this one.
pub const BACK: FieldLayout = FieldLayout {
    name: "back",
    offset: 4,
    width: 4,
    form: Form::Decimal,
};

/// How many entries there are.
pub const COUNT: FieldLayout = FieldLayout {
    name: "count",
    offset: 56,
    width: 2,
    form: Form::Decimal,
};

/// The bytes of all values.
pub const USEDBYTES: FieldLayout = FieldLayout {
    name: "usedbytes",
    offset: 58,
    width: 2,
    form: Form::Decimal,
};

/// The byte offset from which on values stand.
pub const FIRSTUSED: FieldLayout = FieldLayout {
    name: "firstused",
    offset: 60,
    width: 2,
    form: Form::Decimal,
};

/// The byte offset of the first entry.
pub const ENTRIES: usize = 80;

/// The bytes of an entry.
pub const ENTRY_SIZE: usize = 8;

/// How many entries lie inside the block, at most.
pub const MOST_ENTRIES: usize = (BLOCK_SIZE - ENTRIES) / ENTRY_SIZE;

/// The hash of an entry's name.
pub const HASHVAL: FieldLayout = FieldLayout {
    name: "hashval",
    offset: 0,
    width: 4,
    form: Form::Hexadecimal,
};

/// The byte offset of an entry's value in the block.
pub const NAMEIDX: FieldLayout = FieldLayout {
    name: "nameidx",
    offset: 4,
    width: 2,
    form: Form::Decimal,
};

/// The flags of an entry.
pub const FLAGS: FieldLayout = FieldLayout {
    name: "flags",
    offset: 6,
    width: 1,
    form: Form::Hexadecimal,
};

/// The bytes of a value.
pub const VALUELEN: FieldLayout = FieldLayout {
    name: "valuelen",
    offset: 0,
    width: 2,
    form: Form::Decimal,
};

/// The bytes of the name in front of a value.
pub const NAMELEN: FieldLayout = FieldLayout {
    name: "namelen",
    offset: 2,
    width: 1,
    form: Form::Decimal,
};

/// The bytes of a value in front of its name.
pub const VALUE_SIZE: usize = 3;
