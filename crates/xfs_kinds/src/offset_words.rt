//! What a block is to its owner: the offset word (chapter "Reverse-Mapping B+tree").

ghost use Rattle.std.specs.Prelude.{◌≡◌};
ghost use Rattle.xfs_kinds.specs.OffsetWords.{flags_of, is_file_data, is_tree_block, is_unwritten, key_word, offset_in_fork};

/// The flag of a block that is reserved for a file and reads as zero.
const UNWRITTEN: u64 = 1 << 61;

/// The flag of a block of a fork's extent tree.
const TREE_BLOCK: u64 = 1 << 62;

/// The owners that are inodes are below this number. All others are below 0, in two's complement.
const NEGATIVE: u64 = 1 << 63;

/// The offset in the owner's fork, in blocks.
pub fn offset_in_fork(word: u64) -> u64
    ensures { result ≡ offset_in_fork word }
{
    word % UNWRITTEN
}

/// The three flags of an offset word.
pub fn flags_of(word: u64) -> u64
    ensures { result ≡ flags_of word }
{
    word / UNWRITTEN
}

/// Whether the blocks hold data of a file, or of its attributes, so that their offsets go up.
pub fn is_file_data(owner: u64, word: u64) -> bool
    ensures { result ≡ is_file_data owner word }
{
    owner < NEGATIVE && !is_tree_block(word)
}

/// An offset word as a key has it, without the flag of unwritten blocks.
pub fn key_word(word: u64) -> u64
    ensures { result ≡ key_word word }
{
    if is_unwritten(word) {
        word - UNWRITTEN
    } else {
        word
    }
}

/// Whether the blocks are reserved for a file and read as zero.
pub fn is_unwritten(word: u64) -> bool
    ensures { result ≡ is_unwritten word }
{
    word / UNWRITTEN % 2 == 1
}

/// Whether the block is one of a fork's extent tree.
fn is_tree_block(word: u64) -> bool
    ensures { result ≡ is_tree_block word }
{
    word / TREE_BLOCK % 2 == 1
}
