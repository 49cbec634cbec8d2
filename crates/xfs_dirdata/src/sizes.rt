//! How many bytes an entry takes.

ghost use Rattle.std.specs.Prelude.{◌≡◌, ◌<◌, ◌≤◌, ◌+◌, ◌%◌};
ghost use Rattle.xfs_dirdata.specs.Sizes.{data_size, short_size};

use crate::layouts::short_form;

/// The bytes of an entry of a data block whose name has so many bytes.
pub fn data_size(name_length: usize) -> usize
    requires { name_length < 256 }
    ensures value { result ≡ data_size name_length }
    ensures more { name_length + 12 ≤ result }
    ensures whole { result % 8 ≡ 0 }
    ensures bound { result ≤ name_length + 19 }
{
    (name_length + 19) / 8 * 8
}

/// The bytes of an entry of a short form whose name has so many bytes.
pub fn short_size(name_length: usize) -> usize
    requires { name_length < 256 }
    ensures { result ≡ short_size name_length }
{
    short_form::ENTRY_SIZE + name_length
}
