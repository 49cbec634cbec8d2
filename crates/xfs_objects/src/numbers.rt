//! Numbers as they are typed.

ghost use Rattle.std.specs.Prelude.{◌≡◌, ◌+◌, ◌^◌, ◌<◌, ◌≤◌, ◌||◌, ◌&&◌, ◌==◌, nat_lt, if◌then◌else◌, not, length, take, codes, bytes_eq, IfSome};
ghost use Rattle.std.specs.Char.{digit_value};
ghost use Rattle.std.specs.List.{list_all};
ghost use Rattle.std.specs.Str.Parse.{digits_value};
ghost use Rattle.xfs_objects.specs.Numbers.{is_decimal, is_digit_of, is_hexadecimal, is_numeral, number_of_word, capped, capped_number, typed};
ghost use Rattle.xfs_objects.specs.declared.numbers.Typed.TheVariants as Typed;

/// What numbers of more than 64 bits count as.
const TOO_LARGE: u128 = 1 << 64;

/// What a word writes.
#[derive(Clone, Copy)]
pub enum Typed {
    NoNumber,
    /// A number of more than 64 bits.
    TooLarge,
    Number(u64),
}

/// What a word writes.
#[tactic(auto, using(crate::proofs::Capping::typed_capped))]
pub fn read_number(word: &[u8]) -> Typed
    ensures { result ≡ typed word.now }
{
    match number(word) {
        None => Typed::NoNumber,
        Some(number) => narrowed(number),
    }
}

/// A number of 64 bits, or one that has more.
fn narrowed(number: u128) -> Typed
    ensures { result ≡ (if nat_lt number (2 ^ 64) then Typed.Number number else Typed.TooLarge) }
{
    if number < TOO_LARGE {
        Typed::Number(number as u64)
    } else {
        Typed::TooLarge
    }
}

/// The number that a word writes, decimal or behind `0x` hexadecimal. One of more than 64 bits is 2^64.
#[tactic(auto, unfolding(crate::specs::Numbers::number_of_word, crate::specs::Numbers::capped_number))]
fn number(word: &[u8]) -> Option<u128>
    ensures value { result ≡ capped_number (number_of_word word.now) }
    ensures most { IfSome result (λ n. n ≤ 2 ^ 64) }
{
    if is_decimal(word) {
        return Some(value(word, 10));
    }
    if is_hexadecimal(word) {
        return Some(value(&word[2..], 16));
    }
    None
}

/// Whether a word is a decimal number without a leading zero.
fn is_decimal(word: &[u8]) -> bool
    ensures { result ≡ is_decimal word.now }
{
    is_numeral(word, 10) && (word.len() == 1 || !word.starts_with(b"0"))
}

/// Whether a word is `0x` and hexadecimal digits.
fn is_hexadecimal(word: &[u8]) -> bool
    ensures value { result ≡ is_hexadecimal word.now }
{
    word.starts_with(b"0x") && is_numeral(&word[2..], 16)
}

/// Whether there is a digit of the base, and nothing else.
fn is_numeral(digits: &[u8], base: u8) -> bool
    ensures { result ≡ is_numeral base digits.now }
{
    !digits.is_empty() && are_digits(base, digits)
}

/// Whether each byte is a digit of the base.
fn are_digits(base: u8, digits: &[u8]) -> bool
    ensures { result ≡ list_all (is_digit_of base) digits.now }
{
    digits.iter().all(|digit| is_digit_of(base, *digit))
}

/// Whether a byte is a digit of the base.
fn is_digit_of(base: u8, byte: u8) -> bool
    ensures { result ≡ is_digit_of base byte }
{
    digit_value(byte) < base
}

/// The number that digits write. One of more than 64 bits is 2^64.
#[tactic(auto, unfolding(crate::specs::Numbers::capped))]
fn value(digits: &[u8], base: u8) -> u128
    requires some { 0 < base }
    requires most { base ≤ 16 }
    ensures value { result ≡ capped (digits_value base digits.now) }
    ensures most { result ≤ 2 ^ 64 }
{
    let mut value = 0;
    for digit in digits {
        value = TOO_LARGE.min(value * base as u128 + digit_value(*digit) as u128);
    }
    value
}

/// The value of a digit, of either case, and 36 for another byte.
fn digit_value(byte: u8) -> u8
    ensures value { result ≡ digit_value byte }
    ensures most { result ≤ 36 }
{
    match byte {
        b'0'..=b'9' => byte - b'0',
        b'A'..=b'Z' => byte - b'A' + 10,
        b'a'..=b'z' => byte - b'a' + 10,
        _ => 36,
    }
}
