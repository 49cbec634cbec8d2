//! The layouts of directories as data: one constant for each field that has a fixed offset.

pub mod data_block;
pub mod short_form;
