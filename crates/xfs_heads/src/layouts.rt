//! The layouts of the headers as data: one constant for each field, and the table of all.

pub mod agf;
pub mod agfl;
pub mod agi;
