//! Hashes of names.

ghost use Rattle.std.specs.Prelude.{◌≡◌, ℕ};
ghost use Rattle.xfs_word.specs.Hash.{hash_of};

/// The hash of a name, by which directories and attributes are ordered.
#[tactic(auto, unfolding(crate::specs::Hash::hash_of))]
pub fn name_hash(name: &[u8]) -> u32
    ensures { result ≡ hash_of name.now }
{
    let mut hash: u32 = 0;
    for byte in name {
        hash = hash.rotate_left(7) ^ *byte as u32;
    }
    hash
}
