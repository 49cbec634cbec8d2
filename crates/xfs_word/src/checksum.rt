//! The checksum of on-disk objects: CRC-32C.

ghost use Rattle.std.specs.Prelude.{◌≡◌, ℕ, ◌+◌, ◌-◌, ◌*◌, ◌%◌, ◌^◌, ◌<◌, ◌≤◌, length, take, IsTrue};
ghost use Rattle.xfs_word.specs.Crc.{after_byte, after_bytes, after_zeros, crc_of, cleared, little_field_of, has_checksum};
ghost use Rattle.xfs_word.specs.Private.Zeros.{AreManyZeros, AreSixteenZeros, BeginsWithZeros};
ghost use Rattle.xfs_word.specs.Field.{is_width, SameBeside, KeepsBeside, KeepsParts};

use crate::far_tables::FAR_TABLES;
use crate::tables::TABLES;
use byteorder::{ByteOrder, LittleEndian};

/// The CRC-32C of `bytes`.
#[tactic(auto, unfolding(crate::specs::Crc::crc_of))]
pub fn crc32c(bytes: &[u8]) -> u32
    ensures { result ≡ crc_of bytes.now }
{
    !after(u32::MAX, bytes)
}

/// The CRC-32C of `bytes` with the four bytes from `at` on taken as zero.
#[tactic(auto, unfolding(crate::specs::Crc::crc_of, crate::specs::Crc::cleared))]
pub fn crc_skipping(bytes: &[u8], at: usize) -> u32
    requires { at + 4 ≤ length bytes.now }
    ensures { result ≡ crc_of (cleared bytes.now at) }
{
    let front = after(u32::MAX, &bytes[..at]);
    let middle = after(front, &[0; 4]);
    !after(middle, &bytes[at + 4..])
}

/// The checksum that stands in the four bytes from `at` on, little-endian.
#[tactic(auto, unfolding(crate::specs::Crc::little_field_of))]
pub fn stored_checksum(bytes: &[u8], at: usize) -> u32
    requires { at + 4 ≤ length bytes.now }
    ensures { result ≡ little_field_of bytes.now at 4 }
{
    LittleEndian::read_u32(&bytes[at..])
}

/// Whether the four bytes from `at` on hold the checksum of all bytes with these four as zero.
#[tactic(auto, unfolding(crate::specs::Crc::has_checksum))]
pub fn is_checksum_right(bytes: &[u8], at: usize) -> bool
    requires { at + 4 ≤ length bytes.now }
    ensures { result ≡ has_checksum bytes.now at }
{
    stored_checksum(bytes, at) == crc_skipping(bytes, at)
}

/// Writes into the four bytes from `at` on the checksum of all bytes with these four as zero.
pub fn put_checksum(bytes: &mut [u8], at: usize)
    requires { at + 4 ≤ length bytes.old }
    ensures put { little_field_of bytes.new at 4 ≡ crc_of (cleared bytes.old at) }
    ensures right { IsTrue (has_checksum bytes.new at) }
    ensures keeps { KeepsBeside bytes.old bytes.new at 4 }
    ensures keeps_parts { KeepsParts bytes.old bytes.new at 4 }
    ensures others { SameBeside bytes.old bytes.new at 4 }
{
    let checksum = crc_skipping(bytes, at);
    write(bytes, at, 4, checksum as u64);
}

/// Writes `value` little-endian, and leaves the bytes beside it.
#[tactic(auto, unfolding(crate::specs::Crc::little_field_of))]
fn write(bytes: &mut [u8], at: usize, width: usize, value: u64)
    requires width { IsTrue (is_width width) }
    requires inside { at + width ≤ length bytes.old }
    requires fits { value < 256 ^ width }
    ensures put { little_field_of bytes.new at width ≡ value }
    ensures others { SameBeside bytes.old bytes.new at width }
{
    LittleEndian::write_uint(&mut bytes[at..], value, width);
}

/// The register after `bytes`, sixteen at a time, and sixty-four where these are zero, as most behind the core of an inode are.
fn after(start: u32, bytes: &[u8]) -> u32
    ensures { result ≡ after_bytes start bytes.now }
{
    let mut register = start;
    let mut at = 0;
    while bytes.len() - at >= 16 {
        let rest = &bytes[at..];
        if begins_with_zeros(rest) {
            register = after_many_zeros(register);
            at += 64;
        } else {
            register = after_sixteen(register, rest);
            at += 16;
        }
    }
    after_few(register, &bytes[at..])
}

/// Whether there are sixty-four bytes, all zero.
fn begins_with_zeros(bytes: &[u8]) -> bool
    ensures { IsTrue result → BeginsWithZeros bytes.now }
{
    if bytes.len() < 64 {
        return false;
    }
    are_many_zeros(bytes) && are_many_zeros(&bytes[32..])
}

/// Whether the first thirty-two bytes are zero.
fn are_many_zeros(bytes: &[u8]) -> bool
    requires { 32 ≤ length bytes.now }
    ensures { IsTrue result → AreManyZeros bytes.now }
{
    are_sixteen_zeros(bytes) && are_sixteen_zeros(&bytes[16..])
}

/// Whether the first sixteen bytes are zero.
fn are_sixteen_zeros(bytes: &[u8]) -> bool
    requires { 16 ≤ length bytes.now }
    ensures { IsTrue result → AreSixteenZeros bytes.now }
{
    LittleEndian::read_u64(bytes) == 0 && LittleEndian::read_u64(&bytes[8..]) == 0
}

/// The register after sixty-four zero bytes.
fn after_many_zeros(register: u32) -> u32
    ensures { result ≡ after_zeros 512 register }
{
    far_entry(0, register >> 24)
        ^ far_entry(1, register >> 16)
        ^ far_entry(2, register >> 8)
        ^ far_entry(3, register)
}

/// What the lowest byte of `word` leaves after itself and `row + 60` zero bytes behind it.
fn far_entry(row: usize, word: u32) -> u32
    requires { row < 4 }
    ensures { result ≡ after_zeros (8 * (row + 61)) (word % 256) }
{
    FAR_TABLES[row][(word & 0xff) as usize]
}

/// The register after `bytes`, the first eight together.
fn after_few(register: u32, bytes: &[u8]) -> u32
    ensures { result ≡ after_bytes register bytes.now }
{
    if bytes.len() < 8 {
        return after_fewer(register, bytes);
    }
    after_fewer(after_eight(register, bytes), &bytes[8..])
}

/// The register after `bytes`, the first four together.
fn after_fewer(register: u32, bytes: &[u8]) -> u32
    ensures { result ≡ after_bytes register bytes.now }
{
    if bytes.len() < 4 {
        return after_each(register, bytes);
    }
    after_each(after_four(register, bytes), &bytes[4..])
}

/// The register after `bytes`, one at a time.
fn after_each(start: u32, bytes: &[u8]) -> u32
    ensures { result ≡ after_bytes start bytes.now }
{
    let mut register = start;
    for byte in bytes {
        register = after_one(register, *byte);
    }
    register
}

/// The register after one byte.
fn after_one(register: u32, byte: u8) -> u32
    ensures { result ≡ after_byte register byte }
{
    entry(0, (register ^ byte as u32) as u64) ^ register >> 8
}

/// The register after the first sixteen of `bytes`. What the last eight leave does not wait for the register. Where all are zero, as most
/// behind the core of an inode are, the register alone leaves something.
fn after_sixteen(register: u32, bytes: &[u8]) -> u32
    requires { 16 ≤ length bytes.now }
    ensures { result ≡ after_bytes register (take 16 bytes.now) }
{
    let first = LittleEndian::read_u64(bytes);
    let last = LittleEndian::read_u64(&bytes[8..]);
    if first == 0 && last == 0 {
        return four_entries(12, register);
    }
    entries(0, last) ^ entries(8, first ^ register as u64)
}

/// The register after the first eight of `bytes`.
fn after_eight(register: u32, bytes: &[u8]) -> u32
    requires { 8 ≤ length bytes.now }
    ensures { result ≡ after_bytes register (take 8 bytes.now) }
{
    entries(0, LittleEndian::read_u64(bytes) ^ register as u64)
}

/// The register after the first four of `bytes`.
fn after_four(register: u32, bytes: &[u8]) -> u32
    requires { 4 ≤ length bytes.now }
    ensures { result ≡ after_bytes register (take 4 bytes.now) }
{
    four_entries(0, LittleEndian::read_u32(bytes) ^ register)
}

/// What the eight bytes of `word` leave after themselves and `rows` zero bytes behind them. The lowest four come last: they are those that
/// wait for the register, and the sums of the others need not.
fn entries(rows: usize, word: u64) -> u32
    requires { rows ≤ 8 }
    ensures { result ≡ after_zeros (8 * rows + 64) word }
{
    entry(rows, word >> 56)
        ^ entry(rows + 1, word >> 48)
        ^ entry(rows + 2, word >> 40)
        ^ entry(rows + 3, word >> 32)
        ^ entry(rows + 4, word >> 24)
        ^ entry(rows + 5, word >> 16)
        ^ entry(rows + 6, word >> 8)
        ^ entry(rows + 7, word)
}

/// The same of the four bytes of `word`.
fn four_entries(rows: usize, word: u32) -> u32
    requires { rows ≤ 12 }
    ensures { result ≡ after_zeros (8 * rows + 32) word }
{
    entry(rows, (word >> 24) as u64)
        ^ entry(rows + 1, (word >> 16) as u64)
        ^ entry(rows + 2, (word >> 8) as u64)
        ^ entry(rows + 3, word as u64)
}

/// What the lowest byte of `word` leaves after itself and `row` zero bytes behind it.
fn entry(row: usize, word: u64) -> u32
    requires { row < 16 }
    ensures { result ≡ after_zeros (8 * (row + 1)) (word % 256) }
{
    TABLES[row][(word & 0xff) as usize]
}
