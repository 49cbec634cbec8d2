//! What the program asks of the system, whatever its tools do.
//!
//! A `Host` gives the words, the time and random bytes, holds the standard streams and opens files; an `Environment` is what the tools
//! are handed in beside words, a disk and a stamp. The image that the last word names is opened as the purpose of the call asks, and
//! is not taken where it may be written and is in use.
//!
//! `xfs_program` calls it so:
//!
//! ```text
//! let stamp = make_stamp(host)?;
//! match take_image(host, words, Purpose::Reads) {
//!     Some(mut image) => ..,  // a disk, maybe of no file
//!     None => ..,             // the image is in use, which was told
//! }
//! ```
#![tactic(auto)]

mod environment;
mod host;
mod image;
mod in_use;
mod mounts;
mod purpose;
mod stamping;
mod streams;
mod words;

pub use environment::{Environment, over_streams};
pub use host::Host;
pub use image::take_image;
pub use purpose::Purpose;
pub use stamping::make_stamp;
