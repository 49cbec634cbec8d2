//! Files by number.

ghost use Rattle.std.specs.Prelude.{◌≡◌, ◌<◌, false, length, MatchOption};
ghost use Rattle.xfs_links.specs.Entries.{AreFiles, is_kept_node, node_number, is_directory_at_place};

use crate::records::{DIRECTORY, NodeRec};

/// The place of a file among the files.
pub fn place_of(files: &[NodeRec], ino: u64) -> Option<u32>
    requires { AreFiles files.now }
    ensures { MatchOption result (is_kept_node files.now ino ≡ false) (λ place. (place < length files.now) × (node_number files.now place ≡ ino)) }
{
    match files.binary_search_by_key(&ino, |file| file.ino) {
        Ok(place) => Some(place as u32),
        Err(_) => None,
    }
}

/// The same, where `near` is a place at which it may stand.
pub fn place_near(files: &[NodeRec], near: usize, ino: u64) -> Option<u32>
    requires { AreFiles files.now }
    ensures { MatchOption result (is_kept_node files.now ino ≡ false) (λ place. (place < length files.now) × (node_number files.now place ≡ ino)) }
{
    if near < files.len() && files[near].ino == ino {
        return Some(near as u32);
    }
    place_of(files, ino)
}

/// Whether the file at a place is a directory.
pub fn is_directory_at_place(files: &[NodeRec], place: u32) -> bool
    requires { place < length files.now }
    ensures { result ≡ is_directory_at_place files.now place }
{
    files[place as usize].kind == DIRECTORY
}
