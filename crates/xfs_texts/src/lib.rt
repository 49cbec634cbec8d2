//! Texts for people, put to a stream: labelled numbers, and what the tools say of themselves.
//!
//! Putting a text takes no memory. Each text is a definition, and what is put is proved to be just that text, or a prefix of it where
//! the stream fails.
//!
//! `xfs_tools` puts the lines of its answers so:
//!
//! ```text
//! match answer {
//!     Answer::TooSmall { what } => put_line(sink, &[("xfs: too small: ", Number::Decimal(what as u64))], "\n"),
//!     Answer::Help(tool) => put_help(sink, tool),
//!     ..
//! }
//! ```
#![tactic(auto)]

mod explanation;
mod help;
mod lines;
mod pieces;

pub use help::{Tool, put_help, put_version};
pub use lines::{Number, put_line, put_text};
pub use pieces::put_explanation;
