//! The words of mkfs.xfs.

ghost use Rattle.std.specs.Prelude.{◌≡◌, ℕ, ◌≤◌, ◌==◌, ◌&&◌, nat_le, if◌then◌else◌, Option, Some, None, Ok, Err, List, [], IfOk, IfErr};
ghost use Rattle.std.specs.List.{find};
ghost use Rattle.std.specs.Option.{option_copied};
ghost use Rattle.xfs_options.specs.MakeWords.{counted, generated, identified, IsMakeCause, judged_making, label_of, last_value, make_line, make_of, make_options, OffendsFirstItem, sized, small_count, usage, value_in};
ghost use Rattle.xfs_options.specs.SubOptions.{first_bad, items_given, sub_of};
ghost use Rattle.xfs_options.specs.Words.{OffendsFirst};

use crate::identifiers::identifier;
use crate::items::{OptionItem, first_bad, given_text, items_given};
use crate::numbers::read_decimal;
use crate::options::{OptionRow, ValueForm};
use crate::reading::{Given, LineFault, is_given, read_options};
use crate::sizes::size;
use crate::sub_options::SubOption;
use std::alloc::Global;
use xfs_disk::{NoMemory, Word};

/// What `mkfs.xfs` makes. Sizes are in blocks of 4096 bytes.
#[derive(Drop)]
pub struct MakeOptions {
    /// The size of the volume (`-d size=`).
    pub blocks: Option<u64>,
    /// The number of allocation groups (`-d agcount=`).
    pub agcount: Option<u64>,
    /// The size of an allocation group (`-d agsize=`).
    pub agblocks: Option<u64>,
    /// The size of the log (`-l size=`).
    pub logblocks: Option<u64>,
    /// The identifier of the volume (`-m uuid=`).
    pub uuid: Option<[u8; 16]>,
    /// The label, empty where none is given (`-L`).
    pub label: Word,
    /// The name of the protofile (`-p`).
    pub proto: Option<Word>,
    /// Makes a volume over another one (`-f`).
    pub force: bool,
    /// The number of files that are generated (`-G`).
    pub generate: Option<u32>,
}

/// What a command line of `mkfs.xfs` says.
#[derive(Drop)]
pub struct MakeLine {
    pub options: MakeOptions,
    /// Prints nothing of the volume that is made (`-q`).
    pub quiet: bool,
}

/// Why words are no command line of `mkfs.xfs`.
#[derive(Clone, Copy, Debug)]
pub enum MakeFault {
    /// The word of this number is the first that offends. Where a word lacks, it is the number of all words.
    Offends(usize),
    /// An item of a list is no sub-option, has another value than it may, or can't stand behind those before it.
    BadOption {
        /// The number of its word.
        word: usize,
        /// Its number in the word, from 1.
        item: u8,
    },
    /// There is not enough memory.
    NoMemory,
}

/// The most files that are generated.
const MOST_FILES: u32 = 100_000;

/// The options of `mkfs.xfs`. `-K` has no effect.
const MAKE_OPTIONS: [OptionRow; 13] = [
    OptionRow {
        letter: b'd',
        value: Some(ValueForm::Any),
        excludes: None,
    },
    OptionRow {
        letter: b'l',
        value: Some(ValueForm::Any),
        excludes: None,
    },
    OptionRow {
        letter: b'm',
        value: Some(ValueForm::Any),
        excludes: None,
    },
    OptionRow {
        letter: b'i',
        value: Some(ValueForm::Any),
        excludes: None,
    },
    OptionRow {
        letter: b's',
        value: Some(ValueForm::Any),
        excludes: None,
    },
    OptionRow {
        letter: b'b',
        value: Some(ValueForm::Any),
        excludes: None,
    },
    OptionRow {
        letter: b'n',
        value: Some(ValueForm::Any),
        excludes: None,
    },
    OptionRow {
        letter: b'L',
        value: Some(ValueForm::Label),
        excludes: None,
    },
    OptionRow {
        letter: b'p',
        value: Some(ValueForm::Any),
        excludes: Some(b'G'),
    },
    OptionRow {
        letter: b'f',
        value: None,
        excludes: None,
    },
    OptionRow {
        letter: b'q',
        value: None,
        excludes: None,
    },
    OptionRow {
        letter: b'K',
        value: None,
        excludes: None,
    },
    OptionRow {
        letter: b'G',
        value: Some(ValueForm::Number { most: MOST_FILES }),
        excludes: Some(b'p'),
    },
];

/// Reads the words behind `mkfs.xfs`, whose numbers begin at 1.
pub fn read_make_words(alloc: Global, rest: &[Word]) -> Result<MakeLine, MakeFault>
    ensures line { IfOk result (λ line. make_of rest.now ≡ Ok line) }
    ensures refusal { IfErr result (IsMakeCause (make_of rest.now)) }
    ensures offending { (n : ℕ) → result ≡ Err (MakeFault.Offends n) → OffendsFirst make_options rest.now n }
    ensures bad_item { (word item : ℕ) → result ≡ Err (MakeFault.BadOption word item) → OffendsFirstItem rest.now word item }
{
    read_line(alloc, rest)
}

/// Reads the words.
#[tactic(auto, unfolding(crate::specs::MakeWords::make_of))]
fn read_line(alloc: Global, rest: &[Word]) -> Result<MakeLine, MakeFault>
    ensures line { IfOk result (λ line. make_of rest.now ≡ Ok line) }
    ensures refusal { IfErr result (IsMakeCause (make_of rest.now)) }
{
    match read_options(alloc, &MAKE_OPTIONS, rest) {
        Ok(given) => judge(alloc, &given),
        Err(LineFault::Offends(word)) => Err(MakeFault::Offends(word)),
        Err(LineFault::NoMemory) => Err(MakeFault::NoMemory),
    }
}

/// What the options say.
fn judge(alloc: Global, given: &[Given]) -> Result<MakeLine, MakeFault>
    ensures line { IfOk result (λ line. judged_making given.now ≡ Ok line) }
    ensures refusal { IfErr result (IsMakeCause (judged_making given.now)) }
{
    let Ok(items) = items_given(alloc, given) else {
        return Err(MakeFault::NoMemory);
    };
    if let Some(item) = first_bad(&items) {
        return Err(bad_option(item));
    }
    match make_line(alloc, given, &items) {
        Ok(line) => Ok(line),
        Err(NoMemory) => Err(MakeFault::NoMemory),
    }
}

/// A bad item.
fn bad_option(item: &OptionItem) -> MakeFault
    requires { item.now.number ≤ 18 }
    ensures { result ≡ MakeFault.BadOption item.now.word item.now.number }
{
    MakeFault::BadOption {
        word: item.word,
        item: item.number as u8,
    }
}

/// What the options and items say, of which none is bad.
fn make_line(alloc: Global, given: &[Given], items: &[OptionItem]) -> Result<MakeLine, NoMemory>
    ensures { IfOk result (λ line. line ≡ make_line given.now items.now) }
{
    let label = label_in(alloc, given)?;
    let proto = proto_in(alloc, given)?;
    Ok(line_with(given, items, label, proto))
}

/// What the options and items say, with this label and protofile.
fn line_with(given: &[Given], items: &[OptionItem], label: Word, proto: Option<Word>) -> MakeLine
    ensures { result ≡ record (make_line given.now items.now) { options = record (make_line given.now items.now).options { label = label; proto = proto } } }
{
    MakeLine {
        options: MakeOptions {
            blocks: size_in(items, SubOption::DataSize),
            agcount: count_in(items, SubOption::AgCount),
            agblocks: size_in(items, SubOption::AgSize),
            logblocks: size_in(items, SubOption::LogSize),
            uuid: identifier_in(items, SubOption::Identifier),
            label,
            proto,
            force: is_given(b'f', given),
            generate: generated(last_value(given, b'G')),
        },
        quiet: is_given(b'q', given),
    }
}

/// The label, empty where none is given.
fn label_in(alloc: Global, given: &[Given]) -> Result<Word, NoMemory>
    ensures { IfOk result (λ label. label ≡ label_of (last_value 76 given.now)) }
{
    match last_value(given, b'L') {
        Some(value) => copied(alloc, value),
        None => Ok(Word::from_vec(Vec::new(alloc))),
    }
}

/// The name of the protofile, where one is given.
fn proto_in(alloc: Global, given: &[Given]) -> Result<Option<Word>, NoMemory>
    ensures { IfOk result (λ proto. proto ≡ last_value 112 given.now) }
{
    match last_value(given, b'p') {
        Some(value) => Ok(Some(copied(alloc, value)?)),
        None => Ok(None),
    }
}

/// A word of these bytes.
fn copied(alloc: Global, bytes: &[u8]) -> Result<Word, NoMemory>
    ensures { IfOk result (λ word. word ≡ bytes.now) }
{
    Ok(Word::from_slice(alloc, bytes)?)
}

/// The last value of an option.
fn last_value(given: &[Given], letter: u8) -> Option<&[u8]>
    ensures { option_copied result ≡ last_value letter given.now }
{
    let mut last = None;
    for option in given {
        if option.letter == letter {
            last = Some(option.value.bytes());
        }
    }
    last
}

/// The number of files that a value says.
fn generated(value: Option<&[u8]>) -> Option<u32>
    ensures { result ≡ generated (option_copied value.entry) }
{
    match value {
        Some(text) => small_count(read_decimal(text)),
        None => None,
    }
}

/// A number that is no more than the most.
fn small_count(number: Option<u64>) -> Option<u32>
    ensures { result ≡ small_count number }
{
    let number = number?;
    if number <= MOST_FILES as u64 {
        Some(number as u32)
    } else {
        None
    }
}

/// What stands behind the text of a sub-option, where it is given.
fn value_in(items: &[OptionItem], sub: SubOption) -> Option<&[u8]>
    ensures { option_copied result ≡ value_in sub items.now }
{
    for item in items {
        if sub.is_given(item) {
            return Some(given_text(sub, item));
        }
    }
    None
}

/// The size that a sub-option gives.
fn size_in(items: &[OptionItem], sub: SubOption) -> Option<u64>
    ensures { result ≡ sized (value_in sub items.now) }
{
    match value_in(items, sub) {
        Some(text) => size(text),
        None => None,
    }
}

/// The count that a sub-option gives.
fn count_in(items: &[OptionItem], sub: SubOption) -> Option<u64>
    ensures { result ≡ counted (value_in sub items.now) }
{
    match value_in(items, sub) {
        Some(text) => read_decimal(text),
        None => None,
    }
}

/// The identifier that a sub-option gives.
fn identifier_in(items: &[OptionItem], sub: SubOption) -> Option<[u8; 16]>
    ensures { result ≡ identified (value_in sub items.now) }
{
    match value_in(items, sub) {
        Some(text) => identifier(text),
        None => None,
    }
}
