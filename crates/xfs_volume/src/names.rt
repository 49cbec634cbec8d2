//! Names of files and types of files (chapters "Directories" and "On-disk Inode").

ghost use Rattle.std.specs.Prelude.{◌≡◌, ◌==◌, ◌&&◌, ◌||◌, nat_le, [], ◌∷◌, length};
ghost use Rattle.std.specs.List.{list_any};
ghost use Rattle.std.specs.Str.{bytes_eq};
ghost use Rattle.xfs_volume.specs.Names.{is_directory, is_name, type_of};

use crate::files::FileRec;

/// The most bytes of a name.
const MOST_BYTES: usize = 255;

/// The type of a directory.
const DIRECTORY: u16 = 4;

/// Whether a file can have the name: 1 to 255 bytes, none of them 0 or a slash, and neither `.` nor `..`.
#[tactic(auto, unfolding(crate::specs::Names::is_name))]
pub fn is_name(name: &[u8]) -> bool
    ensures { result ≡ is_name name.now }
{
    has_right_length(name) && !has_barred_byte(name) && !is_dots(name)
}

/// Whether a name has as many bytes as a name may have.
fn has_right_length(name: &[u8]) -> bool
    ensures { result ≡ (nat_le 1 (length name.now) && nat_le (length name.now) 255) }
{
    1 <= name.len() && name.len() <= MOST_BYTES
}

/// Whether a name has a byte that no name may have: 0 or a slash.
fn has_barred_byte(name: &[u8]) -> bool
    ensures { result ≡ list_any (λ byte. byte == 0 || byte == 0x2f) name.now }
{
    name.iter().any(|byte| *byte == 0 || *byte == b'/')
}

/// Whether a name is `.` or `..`.
fn is_dots(name: &[u8]) -> bool
    ensures { result ≡ (bytes_eq name.now (0x2e ∷ []) || bytes_eq name.now (0x2e ∷ 0x2e ∷ [])) }
{
    name == b".".as_slice() || name == b"..".as_slice()
}

/// The type of a file, in the upper four bits of its mode.
pub fn type_of(file: &FileRec) -> u16
    ensures { result ≡ type_of file.now }
{
    file.core.mode >> 12
}

/// Whether the file is a directory.
pub fn is_directory(file: &FileRec) -> bool
    ensures { result ≡ is_directory file.now }
{
    type_of(file) == DIRECTORY
}
