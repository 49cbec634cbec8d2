//! Words that ask for help or for the version, and nothing else.

ghost use Rattle.std.specs.Prelude.{◌≡◌};
ghost use Rattle.xfs_tools.specs.HelpWords.{text_asked, text_behind, text_named, tool_named};

use crate::answer::Answer;
use xfs_disk::Word;
use xfs_texts::Tool;

/// The help or the version, where the words ask for it alone: one word, or one behind a tool.
pub fn text_asked(words: &[Word]) -> Option<Answer>
    ensures { result ≡ text_asked words.now }
{
    match words {
        [word] => text_named(None, word.bytes()),
        [tool, word] => text_behind(tool_named(tool.bytes()), word.bytes()),
        _ => None,
    }
}

/// What a word asks for behind a tool.
fn text_behind(tool: Option<Tool>, word: &[u8]) -> Option<Answer>
    ensures { result ≡ text_behind tool word.now }
{
    match tool {
        Some(tool) => text_named(Some(tool), word),
        None => None,
    }
}

/// What a word asks for; `-V` does only behind a tool.
fn text_named(tool: Option<Tool>, word: &[u8]) -> Option<Answer>
    ensures { result ≡ text_named tool word.now }
{
    if word == b"--help".as_slice() {
        Some(Answer::Help(tool))
    } else if word == b"--version".as_slice() || tool.is_some() && word == b"-V".as_slice() {
        Some(Answer::Version(tool))
    } else {
        None
    }
}

/// The tool of a name.
fn tool_named(name: &[u8]) -> Option<Tool>
    ensures { result ≡ tool_named name.now }
{
    if name == b"xfs_repair".as_slice() {
        Some(Tool::Repair)
    } else if name == b"mkfs.xfs".as_slice() {
        Some(Tool::Make)
    } else if name == b"xfs_db".as_slice() {
        Some(Tool::Debug)
    } else {
        None
    }
}
