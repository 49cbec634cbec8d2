//! Big-endian numbers and runs of bytes at byte offsets of a buffer.

ghost use Rattle.std.specs.Prelude.{◌≡◌, ℕ, ◌+◌, ◌<◌, ◌≤◌, ◌^◌, length, IsTrue};
ghost use Rattle.xfs_word.specs.Field.{field_of, part_of, is_width, SameBeside, KeepsBeside, KeepsParts};

use byteorder::{BigEndian, ByteOrder};

/// The big-endian number in `width` bytes from `at` on.
#[tactic(auto, unfolding(crate::specs::Field::field_of))]
pub fn field(bytes: &[u8], at: usize, width: usize) -> u64
    requires width { IsTrue (is_width width) }
    requires inside { at + width ≤ length bytes.now }
    ensures value { result ≡ field_of bytes.now at width }
    ensures fits { result < 256 ^ width }
{
    let rest = &bytes[at..];
    match width {
        1 => rest[0] as u64,
        2 => BigEndian::read_u16(rest) as u64,
        4 => BigEndian::read_u32(rest) as u64,
        _ => BigEndian::read_u64(rest),
    }
}

/// The byte at `at`.
pub fn get8(bytes: &[u8], at: usize) -> u8
    requires { at + 1 ≤ length bytes.now }
    ensures { result ≡ field_of bytes.now at 1 }
{
    field(bytes, at, 1) as u8
}

/// The big-endian number in 2 bytes from `at` on.
pub fn get16(bytes: &[u8], at: usize) -> u16
    requires { at + 2 ≤ length bytes.now }
    ensures { result ≡ field_of bytes.now at 2 }
{
    field(bytes, at, 2) as u16
}

/// The big-endian number in 4 bytes from `at` on.
pub fn get32(bytes: &[u8], at: usize) -> u32
    requires { at + 4 ≤ length bytes.now }
    ensures { result ≡ field_of bytes.now at 4 }
{
    field(bytes, at, 4) as u32
}

/// The big-endian number in 8 bytes from `at` on.
pub fn get64(bytes: &[u8], at: usize) -> u64
    requires { at + 8 ≤ length bytes.now }
    ensures { result ≡ field_of bytes.now at 8 }
{
    field(bytes, at, 8)
}

/// The `width` bytes from `at` on.
#[tactic(auto, unfolding(crate::specs::Field::part_of))]
pub fn part(bytes: &[u8], at: usize, width: usize) -> &[u8]
    requires { at + width ≤ length bytes.now }
    ensures value { result.now ≡ part_of bytes.now at width }
    ensures long { length result.now ≡ width }
{
    &bytes[at..at + width]
}

/// Writes `value` big-endian into the `width` bytes from `at` on.
pub fn put_field(bytes: &mut [u8], at: usize, width: usize, value: u64)
    requires width { IsTrue (is_width width) }
    requires inside { at + width ≤ length bytes.old }
    requires fits { value < 256 ^ width }
    ensures put { field_of bytes.new at width ≡ value }
    ensures keeps { KeepsBeside bytes.old bytes.new at width }
    ensures keeps_parts { KeepsParts bytes.old bytes.new at width }
    ensures others { SameBeside bytes.old bytes.new at width }
{
    write(bytes, at, width, value);
}

/// Writes one byte at `at`.
pub fn put8(bytes: &mut [u8], at: usize, value: u8)
    requires { at + 1 ≤ length bytes.old }
    ensures put { field_of bytes.new at 1 ≡ value }
    ensures keeps { KeepsBeside bytes.old bytes.new at 1 }
    ensures keeps_parts { KeepsParts bytes.old bytes.new at 1 }
    ensures others { SameBeside bytes.old bytes.new at 1 }
{
    put_field(bytes, at, 1, value as u64);
}

/// Writes `value` big-endian into 2 bytes from `at` on.
pub fn put16(bytes: &mut [u8], at: usize, value: u16)
    requires { at + 2 ≤ length bytes.old }
    ensures put { field_of bytes.new at 2 ≡ value }
    ensures keeps { KeepsBeside bytes.old bytes.new at 2 }
    ensures keeps_parts { KeepsParts bytes.old bytes.new at 2 }
    ensures others { SameBeside bytes.old bytes.new at 2 }
{
    put_field(bytes, at, 2, value as u64);
}

/// Writes `value` big-endian into 4 bytes from `at` on.
pub fn put32(bytes: &mut [u8], at: usize, value: u32)
    requires { at + 4 ≤ length bytes.old }
    ensures put { field_of bytes.new at 4 ≡ value }
    ensures keeps { KeepsBeside bytes.old bytes.new at 4 }
    ensures keeps_parts { KeepsParts bytes.old bytes.new at 4 }
    ensures others { SameBeside bytes.old bytes.new at 4 }
{
    put_field(bytes, at, 4, value as u64);
}

/// Writes `value` big-endian into 8 bytes from `at` on.
pub fn put64(bytes: &mut [u8], at: usize, value: u64)
    requires { at + 8 ≤ length bytes.old }
    ensures put { field_of bytes.new at 8 ≡ value }
    ensures keeps { KeepsBeside bytes.old bytes.new at 8 }
    ensures keeps_parts { KeepsParts bytes.old bytes.new at 8 }
    ensures others { SameBeside bytes.old bytes.new at 8 }
{
    put_field(bytes, at, 8, value);
}

/// Copies `value` over the bytes from `at` on.
pub fn put_part(bytes: &mut [u8], at: usize, value: &[u8])
    requires { at + length value.now ≤ length bytes.old }
    ensures put { part_of bytes.new at (length value.now) ≡ value.now }
    ensures keeps { KeepsBeside bytes.old bytes.new at (length value.now) }
    ensures keeps_parts { KeepsParts bytes.old bytes.new at (length value.now) }
    ensures others { SameBeside bytes.old bytes.new at (length value.now) }
{
    copy(bytes, at, value);
}

/// Writes `value` big-endian, and leaves the bytes beside it.
#[tactic(auto, unfolding(crate::specs::Field::field_of))]
fn write(bytes: &mut [u8], at: usize, width: usize, value: u64)
    requires width { IsTrue (is_width width) }
    requires inside { at + width ≤ length bytes.old }
    requires fits { value < 256 ^ width }
    ensures put { field_of bytes.new at width ≡ value }
    ensures others { SameBeside bytes.old bytes.new at width }
{
    BigEndian::write_uint(&mut bytes[at..], value, width);
}

/// Copies `value`, and leaves the bytes beside it.
#[tactic(auto, unfolding(crate::specs::Field::part_of))]
fn copy(bytes: &mut [u8], at: usize, value: &[u8])
    requires { at + length value.now ≤ length bytes.old }
    ensures put { part_of bytes.new at (length value.now) ≡ value.now }
    ensures others { SameBeside bytes.old bytes.new at (length value.now) }
{
    bytes[at..at + value.len()].copy_from_slice(value);
}
