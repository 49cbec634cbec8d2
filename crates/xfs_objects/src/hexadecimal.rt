//! Numbers in hexadecimal.

ghost use Rattle.std.specs.Prelude.{◌≡◌, ℕ, ◌<◌, ◌≤◌, ◌++◌, length, drop, OnOk};
ghost use Rattle.xfs_objects.specs.Hexadecimal.{hexadecimal};

use crate::values::glyph;
use xfs_disk::NoMemory;

/// The most digits that a number of 64 bits has.
pub const MOST_DIGITS: usize = 16;

/// Adds the digits of a number to a text.
pub fn push_hexadecimal(text: &mut Vec<u8>, number: u64) -> Result<(), NoMemory>
    ensures { OnOk result (text.new.items ≡ text.old.items ++ hexadecimal number) }
{
    let mut digits = [0; MOST_DIGITS];
    let start = write_hexadecimal(&mut digits, number);
    text.extend_from_slice(&digits[start..])?;
    Ok(())
}

/// Writes the digits of a number to the end of the buffer and says where they begin. Takes no memory.
pub fn write_hexadecimal(buffer: &mut [u8; MOST_DIGITS], number: u64) -> usize
    ensures digits { drop result buffer.new ≡ hexadecimal number }
    ensures within { result < 16 }
{
    let mut at = MOST_DIGITS;
    let mut rest = number;
    while at > 0 {
        at -= 1;
        buffer[at] = glyph((rest % 16) as u8);
        rest /= 16;
        if rest == 0 {
            return at;
        }
    }
    unreachable!()
}
