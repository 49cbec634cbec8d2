//! The words of the command line.

ghost use Rattle.std.specs.Prelude.{◌≡◌, ◌||◌, bytes_eq, codes};

use std::alloc::{AllocError, Global};
use std::env::{Env, FillError};
use xfs_disk::Word;

/// The words, as the bytes that were given: those behind the program's name, and in front of them the
/// tool where the program is called by its name, as through a link.
pub fn read_words(rt: &impl Env, alloc: Global) -> Result<Vec<Word>, AllocError> {
    let mut words = Vec::new(alloc);
    push_tool(rt, alloc, &mut words)?;
    push_words(rt, alloc, &mut words)?;
    Ok(words)
}

/// Adds the tool where the program is called by its name.
fn push_tool(rt: &impl Env, alloc: Global, words: &mut Vec<Word>) -> Result<(), AllocError> {
    match read_word(rt, alloc, 0)? {
        Some(name) => push_tool_of(alloc, last_part(name.bytes()), words),
        None => Ok(()),
    }
}

/// Adds a name where it is that of a tool.
fn push_tool_of(alloc: Global, name: &[u8], words: &mut Vec<Word>) -> Result<(), AllocError> {
    if is_tool(name) {
        words.push(Word::from_slice(alloc, name)?)?;
    }
    Ok(())
}

/// Adds the words behind the program's name.
fn push_words(rt: &impl Env, alloc: Global, words: &mut Vec<Word>) -> Result<(), AllocError> {
    for at in 1..usize::MAX {
        match read_word(rt, alloc, at)? {
            Some(word) => words.push(word)?,
            None => return Ok(()),
        }
    }
    Ok(())
}

/// Whether this is the name of a tool.
fn is_tool(name: &[u8]) -> bool
    ensures { result ≡ ((bytes_eq name.now (codes "xfs_repair") || bytes_eq name.now (codes "mkfs.xfs")) || bytes_eq name.now (codes "xfs_db")) }
{
    name == b"xfs_repair".as_slice()
        || name == b"mkfs.xfs".as_slice()
        || name == b"xfs_db".as_slice()
}

/// What stands behind the last slash of a path.
fn last_part(path: &[u8]) -> &[u8] {
    match path.iter().rposition(|byte| *byte == b'/') {
        Some(at) => &path[at + 1..],
        None => path,
    }
}

/// The word at a place, or `None` behind the last.
fn read_word(rt: &impl Env, alloc: Global, at: usize) -> Result<Option<Word>, AllocError> {
    for size_log in 8..40u32 {
        let mut bytes = vec![in alloc; 0; 1 << size_log]?;
        match rt.arg(at, &mut bytes) {
            Ok(length) => {
                bytes.truncate(length);
                return Ok(Some(Word::from_vec(bytes)));
            }
            Err(FillError::TooLong) => {}
            Err(FillError::NotPresent) => return Ok(None),
        }
    }
    Err(AllocError)
}
