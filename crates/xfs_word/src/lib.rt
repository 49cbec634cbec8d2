//! The words of the XFS version 5 on-disk format: big-endian fields, checksums, seals, packed extents
//! and hashes of names.
//!
//! Everything that is read or written goes through here: a number at an offset, an identifier, a checksum over a whole
//! object, and the seal that says that these bytes are this object at this place in this volume. Who reads an object asks
//! for its seal first, and then reads fields by the tables (`FieldLayout`) of its own crate; who writes one puts the
//! fields and seals it last. Nothing takes memory.
//!
//! `xfs_heads` reads a header so:
//!
//! ```text
//! let seal = Seal { kind: SealKind::Agf, place: ag as u64, owner: None, uuid: g.uuid };
//! if !sealed(&seal, sector) { return None; }
//! let length = get32(sector, 12);
//! ```
#![tactic(auto)]

mod checksum;
mod extents;
mod far_tables;
mod fields;
mod kinds;
mod layout;
mod names;
mod sealing;
mod tables;

pub use checksum::{crc_skipping, crc32c, is_checksum_right, put_checksum, stored_checksum};
pub use extents::{Extent, pack_extent, unpack_extent};
pub use fields::{
    field, get8, get16, get32, get64, part, put_field, put_part, put8, put16, put32, put64,
};
pub use kinds::{FieldPlace, Seal, SealKind, SealLayout};
pub use layout::{FieldLayout, Form};
pub use names::name_hash;
pub use sealing::{ready, seal, sealed};
