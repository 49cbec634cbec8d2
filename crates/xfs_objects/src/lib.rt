//! The objects of a volume as xfs_db names and shows them: their types and places, what has a name in them, how that is
//! printed, and the numbers that are typed.
//!
//! The names under which the debugger knows what stands on disk: types of objects, their fields and records, and how each
//! is printed and typed. Nothing here goes to a disk; it works on the bytes of one object.
//!
//! `xfs_commands` prints a field so:
//!
//! ```text
//! match named_item(alloc, place.kind, object, word)? {
//!     Some(item) => push_line(text, object, &item)?,
//!     None => return refuse_word(text, "no field: ", word),
//! }
//! ```
#![tactic(auto)]

mod aliases;
mod convert;
mod hexadecimal;
mod items;
mod listed;
mod numbers;
mod objects;
mod values;

pub use convert::{Measure, Spot, push_both, spot_of_address};
pub use hexadecimal::{MOST_DIGITS, push_hexadecimal, write_hexadecimal};
pub use items::{Item, ItemShape, PrintedRow, named_item, number_width};
pub use numbers::{Typed, read_number};
pub use objects::{ObjectPlace, ObjectType, SECTOR_SIZE};
pub use values::{push_decimal, push_line, push_whole};
