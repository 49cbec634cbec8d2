//! Shape words 1 to 7: fields of the superblock that hold one number in every volume of the profile.

ghost use Rattle.std.specs.Prelude.{◌≡◌, ℕ, length, map, All, Option, IsTrue};
ghost use Rattle.xfs_geom.specs.First.{first_false};
ghost use Rattle.xfs_geom.specs.Fixed.{fixed_fault, fixed_tests, is_readable_fixed, fixed_word};

use crate::superblock::{BLOCKLOG, INODELOG, INOPBLOCK, INOPBLOG, RBMBLOCKS, REXTENTS, SECTLOG};
use xfs_word::field;

/// A field that holds one number, under the number of its shape word, in bytes from the sector's start.
/// It holds no name, so that the borrowed table is one constant.
#[derive(Clone, Copy)]
struct Fixed {
    word: u8,
    offset: usize,
    width: usize,
    number: u64,
}

const FIXED: [Fixed; 7] = [
    Fixed {
        word: 1,
        offset: BLOCKLOG.offset,
        width: BLOCKLOG.width,
        number: 12,
    },
    Fixed {
        word: 2,
        offset: SECTLOG.offset,
        width: SECTLOG.width,
        number: 9,
    },
    Fixed {
        word: 3,
        offset: INODELOG.offset,
        width: INODELOG.width,
        number: 9,
    },
    Fixed {
        word: 4,
        offset: INOPBLOCK.offset,
        width: INOPBLOCK.width,
        number: 8,
    },
    Fixed {
        word: 5,
        offset: INOPBLOG.offset,
        width: INOPBLOG.width,
        number: 3,
    },
    Fixed {
        word: 6,
        offset: REXTENTS.offset,
        width: REXTENTS.width,
        number: 0,
    },
    Fixed {
        word: 7,
        offset: RBMBLOCKS.offset,
        width: RBMBLOCKS.width,
        number: 0,
    },
];

/// The first of shape words 1 to 7 that fails.
#[tactic(auto, unfolding(crate::specs::Fixed::fixed_fault))]
pub fn fixed_fault(sector: &[u8]) -> Option<u8>
    requires { length sector.now ≡ 512 }
    ensures { result ≡ fixed_fault sector.now }
{
    first_fault(&FIXED, sector)
}

/// The first of these words whose field holds another number.
fn first_fault(words: &[Fixed], sector: &[u8]) -> Option<u8>
    requires sector { length sector.now ≡ 512 }
    requires readable { All (λ f. IsTrue (is_readable_fixed (fixed_word f))) words.now }
    ensures { result ≡ first_false (fixed_tests (map fixed_word words.now) sector.now) }
{
    for fixed in words {
        if field(sector, fixed.offset, fixed.width) != fixed.number {
            return Some(fixed.word);
        }
    }
    None
}
