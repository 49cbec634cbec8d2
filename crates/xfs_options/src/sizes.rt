//! Sizes of bytes in words.

ghost use Rattle.std.specs.Prelude.{◌≡◌, ◌*◌, ◌/◌, ◌%◌, ◌<◌, ◌==◌, ◌&&◌, nat_lt, if◌then◌else◌, length, OnSome};
ghost use Rattle.xfs_options.specs.Numbers.{bounded_number};
ghost use Rattle.xfs_options.specs.Sizes.{blocks_of_number, blocks_of_text, unit_behind, unit_of};

use crate::numbers::read_decimal;

/// Sizes are below 2^63 bytes.
const LIMIT: u128 = 1 << 63;

/// The number of blocks of 4096 bytes that a size names: a decimal number with a unit behind it, or of
/// bytes. There is none where it isn't a whole number of blocks, or not below 2^63 bytes.
#[tactic(auto, unfolding(crate::specs::Sizes::blocks_of_text))]
pub(crate) fn size(text: &[u8]) -> Option<u64>
    ensures { result ≡ blocks_of_text text.now }
{
    match unit_behind(text) {
        Some(unit) => blocks(read_decimal(&text[..text.len() - 1]), unit),
        None => blocks(read_decimal(text), 1),
    }
}

/// The bytes of the unit that stands at the end.
fn unit_behind(text: &[u8]) -> Option<u32>
    ensures value { result ≡ unit_behind text.now }
    ensures some { OnSome result (0 < length text.now) }
{
    match text.last() {
        Some(letter) => unit_of(*letter),
        None => None,
    }
}

/// The bytes of a unit: blocks, sectors, and powers of 1024.
fn unit_of(letter: u8) -> Option<u32>
    ensures { result ≡ unit_of letter }
{
    match letter {
        b'b' => Some(4096),
        b's' => Some(512),
        b'k' => Some(1 << 10),
        b'm' => Some(1 << 20),
        b'g' => Some(1 << 30),
        _ => None,
    }
}

/// The blocks of so many units.
fn blocks(number: Option<u64>, unit: u32) -> Option<u64>
    ensures { result ≡ blocks_of_number unit number }
{
    let bytes = number? as u128 * unit as u128;
    if bytes % 4096 == 0 && bytes < LIMIT {
        Some((bytes / 4096) as u64)
    } else {
        None
    }
}
