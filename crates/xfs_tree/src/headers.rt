//! The headers of tree blocks as data: one constant for each field, and the table of all.

pub mod long;
pub mod short;
