//! Decimal numbers in tokens.

ghost use Rattle.std.specs.Prelude.{◌≡◌, ◌≤◌, ◌^◌};
ghost use Rattle.xfs_proto.specs.Numbers.{limited, number_below};

use xfs_options::read_decimal;

/// The number that a token writes in decimal, without a sign or a leading zero, where it is below a limit.
pub(crate) fn number_below(limit: u64, text: &[u8]) -> Option<u32>
    requires { limit ≤ 2 ^ 32 }
    ensures { result ≡ number_below limit text.now }
{
    limited(limit, read_decimal(text))
}

/// A number below a limit.
fn limited(limit: u64, number: Option<u64>) -> Option<u32>
    requires { limit ≤ 2 ^ 32 }
    ensures { result ≡ limited limit number }
{
    match number {
        Some(number) if number < limit => Some(number as u32),
        _ => None,
    }
}
