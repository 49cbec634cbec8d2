//! The layouts of attributes as data (chapter "Extended Attributes").

pub mod leaf;
pub mod short_form;
