//! Decimal numbers in words.

ghost use Rattle.std.specs.Prelude.{◌≡◌, ◌-◌, ◌&&◌, nat_le};
ghost use Rattle.xfs_options.specs.Numbers.{below_limit, digits_from, is_digit, bounded_number};

/// Numbers of words are below 2^63.
const LIMIT: u128 = 1 << 63;

/// The number that a word writes in decimal, without a sign or a leading zero, where it is below 2^63.
#[tactic(auto, unfolding(crate::specs::Numbers::bounded_number))]
pub fn read_decimal(word: &[u8]) -> Option<u64>
    ensures { result ≡ bounded_number word.now }
{
    match word {
        [] => None,
        [b'0'] => Some(0),
        [b'0', ..] => None,
        _ => digits(word),
    }
}

/// The number of these digits, where there is nothing else and it is below 2^63.
#[tactic(auto, using(crate::proofs::Decimals::digit_large))]
fn digits(word: &[u8]) -> Option<u64>
    ensures { result ≡ below_limit (digits_from 0 word.now) }
{
    let mut number: u64 = 0;
    for byte in word {
        if !is_digit(*byte) {
            return None;
        }
        let longer = number as u128 * 10 + (*byte - b'0') as u128;
        if longer >= LIMIT {
            return None;
        }
        number = longer as u64;
    }
    Some(number)
}

/// Whether a byte is a decimal digit.
fn is_digit(byte: u8) -> bool
    ensures { result ≡ is_digit byte }
{
    b'0' <= byte && byte <= b'9'
}
