//! The words of a command line.

ghost use Rattle.std.specs.Prelude.{◌≡◌, ℕ, ◌≤◌, Option, Some, None, IsTrue, List, ◌∷◌, bytes_eq, codes, length};
ghost use Rattle.xfs_options.specs.Words.{Words, is_option};
ghost use Rattle.xfs_tools.specs.CommandLine.{after_letter_w, after_repair_letters, after_repair_option, after_repair_word, after_workers, after_repair_words, is_debugger, is_maker, judged, options_of_words, OffendsRepairFirst, no_options, repair_reading, repair_call, workers_of};

use xfs_disk::Word;
use xfs_mend::RepairOptions;

/// What the words of a command line ask for, but for those of `xfs_db` and `mkfs.xfs`.
#[derive(Clone, Copy)]
pub enum Call {
    /// `xfs_repair`.
    Repair(RepairWords),
    /// Nothing: the words are not those of a tool. `word` is the first offending one, or the number of words where one lacks.
    Refused { word: usize },
}

/// What the options of `xfs_repair` say.
#[derive(Clone, Copy)]
pub struct RepairWords {
    /// Checks only, and writes nothing (`-n`).
    pub check: bool,
    /// Blanks a log that is not clean (`-L`).
    pub drop_log: bool,
    /// Ends with 4 after a repair (`-e`).
    pub tells_repair: bool,
    /// Says in words what was found (`-v`).
    pub verbose: bool,
    /// How many workers there may be, from 1 to 64 (`-w`).
    pub workers: u32,
}

/// How far the words behind a tool's have been read.
#[derive(Clone, Copy)]
enum Reading {
    /// An option or the image may follow.
    Options(RepairWords),
    /// The value of `-w` is to follow.
    Workers(RepairWords),
    /// The image is to follow.
    Image(RepairWords),
    /// Nothing may follow.
    Complete(RepairWords),
    /// The word of this number offends.
    Offended(usize),
}

/// Whether the tool is `xfs_db`.
pub fn is_debugger(words: &[Word]) -> bool
    ensures value { result ≡ is_debugger words.now }
    ensures tool { IsTrue result → 1 ≤ length words.now }
{
    match words {
        [] => false,
        [tool, ..] => tool.bytes() == b"xfs_db".as_slice(),
    }
}

/// Whether the tool is `mkfs.xfs`.
pub fn is_maker(words: &[Word]) -> bool
    ensures value { result ≡ is_maker words.now }
    ensures tool { IsTrue result → 1 ≤ length words.now }
{
    match words {
        [] => false,
        [tool, ..] => tool.bytes() == b"mkfs.xfs".as_slice(),
    }
}

/// What the words ask for. The number of a refusal is that of the first word that offends.
pub fn judge(words: &[Word]) -> Call
    ensures judged { result ≡ judged words.now }
    ensures offending { (rest : Words) (n : ℕ) → words.now ≡ codes "xfs_repair" ∷ rest → result ≡ Call.Refused n → OffendsRepairFirst rest n }
{
    judge_words(words)
}

/// What the words ask for, by the tool that the first of them names.
#[tactic(auto, unfolding(crate::specs::CommandLine::judged))]
fn judge_words(words: &[Word]) -> Call
    ensures { result ≡ judged words.now }
{
    let [tool, rest @ ..] = words else {
        return Call::Refused { word: 0 };
    };
    let tool = tool.bytes();
    if tool == b"xfs_repair".as_slice() {
        read_all(rest).into_call(words.len())
    } else {
        Call::Refused { word: 0 }
    }
}

/// Reads the words behind the tool's, whose numbers begin at 1.
fn read_all(rest: &[Word]) -> Reading
    ensures { result ≡ repair_reading rest.now }
{
    let mut reading = Reading::Options(RepairWords {
        check: false,
        drop_log: false,
        tells_repair: false,
        verbose: false,
        workers: 4,
    });
    for (before, word) in rest.iter().enumerate() {
        reading = reading.after_word(before + 1, word.bytes());
    }
    reading
}

impl Reading {
    /// What is read once the word of this number is read too.
    fn after_word(self, at: usize, word: &[u8]) -> Reading
        ensures { result ≡ after_repair_word at word.now self }
    {
        match self {
            Reading::Options(options) => options.after_option(at, word),
            Reading::Workers(options) => options.after_workers(at, word),
            Reading::Image(options) => Reading::Complete(options),
            Reading::Complete(_) => Reading::Offended(at),
            Reading::Offended(word) => Reading::Offended(word),
        }
    }

    /// A repair, or the number of the first word that offends: that of all words where one lacks.
    fn into_call(self, count: usize) -> Call
        ensures { result ≡ repair_call count self }
    {
        match self {
            Reading::Complete(options) => Call::Repair(options),
            Reading::Offended(word) => Call::Refused { word },
            Reading::Options(_) | Reading::Workers(_) | Reading::Image(_) => Call::Refused {
                word: count,
            },
        }
    }
}

impl RepairWords {
    /// What the repair is asked for.
    pub fn options(&self) -> RepairOptions
        ensures { result ≡ options_of_words self.now }
    {
        RepairOptions {
            check: self.check,
            drop_log: self.drop_log,
            workers: self.workers,
        }
    }

    /// What is read after a word where an option or the image may stand.
    fn after_option(self, at: usize, word: &[u8]) -> Reading
        ensures { result ≡ after_repair_option at word.now self }
    {
        if ends_options(word) {
            return Reading::Image(self);
        }
        if is_option(word) {
            return self.after_letters(at, &word[1..]);
        }
        Reading::Complete(self)
    }

    /// What is read after the letters of an option word.
    fn after_letters(self, at: usize, letters: &[u8]) -> Reading
        ensures { result ≡ after_repair_letters at letters.now self }
    {
        let mut options = self;
        for (before, letter) in letters.iter().enumerate() {
            match *letter {
                b'n' => options.check = true,
                b'L' => options.drop_log = true,
                b'e' => options.tells_repair = true,
                b'f' => {}
                b'v' => options.verbose = true,
                b'w' => return options.after_letter_w(at, &letters[before + 1..]),
                _ => return Reading::Offended(at),
            }
        }
        Reading::Options(options)
    }

    /// What is read after the letter w: its value is the rest of the word or the next one.
    fn after_letter_w(self, at: usize, rest: &[u8]) -> Reading
        ensures { result ≡ after_letter_w at rest.now self }
    {
        if rest.is_empty() {
            return Reading::Workers(self);
        }
        self.after_workers(at, rest)
    }

    /// What is read after the value of `-w` in the word of this number.
    fn after_workers(self, at: usize, value: &[u8]) -> Reading
        ensures { result ≡ after_workers at (workers_of value.now) self }
    {
        match workers_of(value) {
            Some(workers) => Reading::Options(RepairWords { workers, ..self }),
            None => Reading::Offended(at),
        }
    }
}

/// Whether a word says that the image follows.
fn ends_options(word: &[u8]) -> bool
    ensures { result ≡ bytes_eq word.now (codes "--") }
{
    word == b"--".as_slice()
}

/// Whether a word is `-` and letters.
fn is_option(word: &[u8]) -> bool
    ensures value { result ≡ is_option word.now }
    ensures some { IsTrue result → 1 ≤ length word.now }
{
    match word {
        [b'-', _, ..] => true,
        _ => false,
    }
}

/// A number of workers: decimal from 1 to 64, without a leading zero.
fn workers_of(value: &[u8]) -> Option<u32>
    ensures { result ≡ workers_of value.now }
{
    match value {
        [ones @ b'1'..=b'9'] => Some((*ones - b'0') as u32),
        [tens @ b'1'..=b'9', ones @ b'0'..=b'9'] => {
            let workers = (*tens - b'0') as u32 * 10 + (*ones - b'0') as u32;
            if workers <= 64 { Some(workers) } else { None }
        }
        _ => None,
    }
}
