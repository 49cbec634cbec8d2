//! What the words of a command line say: options as letters behind `-`, their values, and one image.
//!
//! A tool states its options as a table of letters, and gets what was given, or the number of the first word that
//! offends; the proof of that is one for all tables. What `xfs_db` and `mkfs.xfs` make of their options is here too, with
//! the lists of sub-options that the latter takes.
//!
//! `xfs_tools` reads the words of the debugger so:
//!
//! ```text
//! match read_debug_words(alloc, words) {
//!     Ok(line) => run_session(alloc, &options_of(line), disk, input, out),
//!     Err(LineFault::Offends(word)) => ..,
//!     Err(LineFault::NoMemory) => ..,
//! }
//! ```
#![tactic(auto)]

mod debug_words;
mod identifiers;
mod items;
mod make_words;
mod numbers;
mod options;
mod reading;
mod sizes;
mod sub_options;

pub use debug_words::{DebugLine, read_debug_words};
pub use make_words::{MakeFault, MakeLine, MakeOptions, read_make_words};
pub use numbers::read_decimal;
pub use options::{OptionRow, ValueForm};
pub use reading::{Given, LineFault, read_options};
