//! The options of a tool, as a table: letters, and what their values may be.

ghost use Rattle.std.specs.Prelude.{◌≡◌, ◌==◌, ◌&&◌, nat_le, length, not};
ghost use Rattle.std.specs.List.{find, list_any};
ghost use Rattle.xfs_options.specs.Options.{accepts, is_label, is_up_to, row_of};
ghost use Rattle.xfs_options.specs.Numbers.{bounded_number};

use crate::numbers::read_decimal;

/// What the value of an option may be.
#[derive(Clone, Copy)]
pub enum ValueForm {
    /// Any bytes, none among them.
    Any,
    /// A label: at most 12 bytes, none of them zero.
    Label,
    /// A decimal number from 1 to `most`, without a leading zero.
    Number { most: u32 },
}

/// An option of a tool.
#[derive(Clone, Copy)]
pub struct OptionRow {
    /// The byte that stands for it behind `-`.
    pub letter: u8,
    /// What its value may be. A flag has none.
    pub value: Option<ValueForm>,
    /// The letter of an option that it can't stand behind.
    pub excludes: Option<u8>,
}

impl ValueForm {
    /// Whether a value is of the form.
    pub fn accepts(self, value: &[u8]) -> bool
        ensures { result ≡ accepts self value.now }
    {
        match self {
            ValueForm::Any => true,
            ValueForm::Label => is_label(value),
            ValueForm::Number { most } => is_up_to(most, read_decimal(value)),
        }
    }
}

/// Whether a label fits a superblock and has no zero byte.
fn is_label(value: &[u8]) -> bool
    ensures { result ≡ is_label value.now }
{
    value.len() <= 12 && !has_zero(value)
}

/// Whether a byte is zero.
fn has_zero(value: &[u8]) -> bool
    ensures { result ≡ list_any (λ byte. byte == 0) value.now }
{
    value.iter().any(|byte| *byte == 0)
}

/// Whether a number is there, from 1 to the most.
fn is_up_to(most: u32, number: Option<u64>) -> bool
    ensures { result ≡ is_up_to most number }
{
    match number {
        Some(number) => 1 <= number && number <= most as u64,
        None => false,
    }
}

/// The row of a letter.
pub(crate) fn row_of(rows: &[OptionRow], letter: u8) -> Option<OptionRow>
    ensures { result ≡ row_of letter rows.now }
{
    for row in rows {
        if row.letter == letter {
            return Some(*row);
        }
    }
    None
}
