//! On-disk layouts as data: one table of fields for each object.

ghost use Rattle.std.specs.Prelude.{◌≡◌, ℕ, ◌+◌, ◌<◌, ◌≤◌, ◌^◌, length, IsTrue};
ghost use Rattle.xfs_word.specs.Field.{field_of, is_width, SameBeside, KeepsBeside, KeepsParts};

use crate::fields::{field, put_field};

/// How a field's value is shown.
#[derive(Clone, Copy)]
pub enum Form {
    /// A decimal number.
    Decimal,
    /// `0x` and two hexadecimal digits for each byte.
    Hexadecimal,
    /// An identifier of 16 bytes, as hyphenated text.
    Identifier,
    /// Text up to the first zero byte, in double quotes.
    Text,
    /// A little-endian CRC-32C.
    Checksum,
}

/// A field of an on-disk object: its name, its byte offset in the object, its width in bytes, and
/// how it is shown.
#[derive(Clone, Copy)]
pub struct FieldLayout {
    pub name: &'static str,
    pub offset: usize,
    pub width: usize,
    pub form: Form,
}

impl FieldLayout {
    /// The big-endian number that stands in the field.
    pub fn read(&self, bytes: &[u8]) -> u64
        requires width { IsTrue (is_width self.now.width) }
        requires inside { self.now.offset + self.now.width ≤ length bytes.now }
        ensures value { result ≡ field_of bytes.now self.now.offset self.now.width }
        ensures fits { result < 256 ^ self.now.width }
    {
        field(bytes, self.offset, self.width)
    }

    /// Writes `value` into the field, big-endian.
    pub fn write(&self, bytes: &mut [u8], value: u64)
        requires width { IsTrue (is_width self.now.width) }
        requires inside { self.now.offset + self.now.width ≤ length bytes.old }
        requires fits { value < 256 ^ self.now.width }
        ensures put { field_of bytes.new self.now.offset self.now.width ≡ value }
        ensures keeps { KeepsBeside bytes.old bytes.new self.now.offset self.now.width }
        ensures keeps_parts { KeepsParts bytes.old bytes.new self.now.offset self.now.width }
        ensures others { SameBeside bytes.old bytes.new self.now.offset self.now.width }
    {
        put_field(bytes, self.offset, self.width, value);
    }
}
