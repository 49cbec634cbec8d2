//! Lines, and the words of a line.

ghost use Rattle.std.specs.Prelude.{◌≡◌, IfOk};
ghost use Rattle.xfs_shell.specs.LineParts.{is_cut, line_parts};

use std::alloc::Global;
use xfs_disk::{NoMemory, Word};

/// What cuts bytes into parts.
#[derive(Clone, Copy)]
pub(crate) enum Cut {
    /// Spaces and tabs, which cut a line into words.
    Blanks,
    /// Line feeds, which cut an input into lines.
    LineFeeds,
}

impl Cut {
    /// Whether a byte cuts.
    fn is_cut(self, byte: u8) -> bool
        ensures { result ≡ is_cut self byte }
    {
        match self {
            Cut::Blanks => byte == b' ' || byte == b'\t',
            Cut::LineFeeds => byte == b'\n',
        }
    }
}

/// The parts between the bytes that cut, without the empty ones.
pub(crate) fn parts(alloc: Global, cut: Cut, bytes: &[u8]) -> Result<Vec<Word>, NoMemory>
    ensures { IfOk result (λ parts. parts.items ≡ line_parts cut bytes.now) }
{
    let mut parts = Vec::new(alloc);
    let mut part = Vec::new(alloc);
    for byte in bytes {
        if !cut.is_cut(*byte) {
            part.push(*byte)?;
        } else if !part.is_empty() {
            parts.push(Word::from_vec(part))?;
            part = Vec::new(alloc);
        }
    }
    if !part.is_empty() {
        parts.push(Word::from_vec(part))?;
    }
    Ok(parts)
}
