//! Runs of bytes that are made zero.

ghost use Rattle.std.specs.Prelude.{◌≡◌, ℕ, ◌+◌, ◌≤◌, length};
ghost use Rattle.xfs_word.specs.Field.{KeepsBeside, KeepsParts, IsZero};

use xfs_word::put_part;

/// Makes each byte of a slot zero.
pub fn clear_slot(slot: &mut [u8])
    requires { length slot.old ≡ 512 }
    ensures { (at width : ℕ) → at + width ≤ 512 → IsZero slot.new at width }
{
    slot.fill(0);
}

/// Makes the `width` bytes from `at` on zero.
pub fn clear_part(slot: &mut [u8], at: usize, width: usize)
    requires slot { length slot.old ≡ 512 }
    requires inside { at + width ≤ 512 }
    ensures zero { IsZero slot.new at width }
    ensures keeps { KeepsBeside slot.old slot.new at width }
    ensures keeps_parts { KeepsParts slot.old slot.new at width }
{
    put_part(slot, at, &[0; 512][..width]);
}
