//! Words: lists of bytes.

ghost use Rattle.std.specs.Prelude.{◌≡◌, ℕ, List, IfOk};

use smallvec::SmallVec;
use std::alloc::{AllocError, Global};
use std::marker::Model;

/// The bytes that stand in a word itself: most names are as short, and then take no memory of their own.
const SHORT: usize = 16;

/// A word of a command line, a name or a line: a list of bytes.
#[derive(Debug, Drop)]
pub struct Word {
    bytes: SmallVec<u8, SHORT>,
}

impl Model for Word {
    ghost Value = { List ℕ };

    ghost view = { λ w. w.bytes.items };
}

impl Word {
    /// The word of these bytes.
    pub fn from_vec(bytes: Vec<u8>) -> Word
        ensures { result ≡ bytes.items }
    {
        Word {
            bytes: SmallVec::from_vec(bytes),
        }
    }

    /// The word of a copy of these bytes.
    pub fn from_slice(alloc: Global, bytes: &[u8]) -> Result<Word, AllocError>
        ensures { IfOk result (λ word. word ≡ bytes.now) }
    {
        Ok(Word {
            bytes: SmallVec::from_slice(alloc, bytes)?,
        })
    }

    /// The bytes of the word.
    pub fn bytes(&self) -> &[u8]
        ensures { result.now ≡ self.now }
    {
        self.bytes.as_slice()
    }
}
