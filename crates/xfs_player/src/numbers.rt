//! Numbers and bytes that a line states.

ghost use Rattle.std.specs.Prelude.{◌<◌, IfSome};

use crate::refusal::Refusal;
use std::alloc::Global;

/// The first word of a text, and what is behind it.
pub fn cut(text: &str) -> (&str, &str) {
    text.split_once(' ').unwrap_or((text, ""))
}

/// The number that a text is.
pub fn number(text: &str) -> Result<u64, Refusal> {
    match text.parse::<u64>() {
        Ok(number) => Ok(number),
        Err(_) => Err(Refusal::Malformed),
    }
}

/// Sets a number to the one that a text is.
pub fn set(place: &mut u64, text: &str) -> Result<(), Refusal> {
    *place = number(text)?;
    Ok(())
}

/// The numbers that the words of a text are, which are as many as these.
pub fn numbers<const N: usize>(text: &str) -> Result<[u64; N], Refusal> {
    let mut numbers = [0; N];
    let mut rest = text;
    for place in &mut numbers {
        let (word, behind) = cut(rest);
        *place = number(word)?;
        rest = behind;
    }
    if rest.is_empty() {
        Ok(numbers)
    } else {
        Err(Refusal::Malformed)
    }
}

/// The byte that a text of two hexadecimal digits states.
pub fn read_byte(text: &str) -> Result<u8, Refusal> {
    match byte_of(text.as_bytes()) {
        Some(byte) => Ok(byte),
        None => Err(Refusal::Malformed),
    }
}

/// The bytes that hexadecimal digits state; `DIGITS*COUNT` states them so many times.
pub fn read_bytes(alloc: Global, text: &str) -> Result<Vec<u8>, Refusal> {
    let (digits, times) = match text.split_once('*') {
        Some((digits, times)) => (digits, number(times)?),
        None => (text, 1),
    };
    let mut bytes = Vec::new(alloc);
    for _ in 0..times {
        put_bytes(&mut bytes, digits.as_bytes())?;
    }
    Ok(bytes)
}

/// Pushes the bytes that hexadecimal digits state.
fn put_bytes(bytes: &mut Vec<u8>, digits: &[u8]) -> Result<(), Refusal> {
    for pair in digits.chunks(2) {
        let Some(byte) = byte_of(pair) else {
            return Err(Refusal::Malformed);
        };
        bytes.push(byte)?;
    }
    Ok(())
}

/// The byte that two hexadecimal digits state.
fn byte_of(pair: &[u8]) -> Option<u8> {
    match pair {
        [high, low] => Some(16 * digit(*high)? + digit(*low)?),
        _ => None,
    }
}

/// The value of a hexadecimal digit.
fn digit(byte: u8) -> Option<u8>
    ensures { IfSome result (λ value. value < 16) }
{
    match byte {
        b'0'..=b'9' => Some(byte - b'0'),
        b'a'..=b'f' => Some(byte - b'a' + 10),
        _ => None,
    }
}
