//! Words, read one by one by the table of a tool's options.

ghost use Rattle.std.specs.Prelude.{◌≡◌, ℕ, ◌+◌, Result, Ok, Err, List, [], ◌∷◌, ◌++◌, codes, length, not, ◌==◌, IfOk, IfErr};
ghost use Rattle.std.specs.List.{list_any};
ghost use Rattle.xfs_options.specs.Options.{HaveValues};
ghost use Rattle.xfs_options.specs.Words.{after_letters, after_option, after_rest, after_value, after_word, after_words, held, is_not_excluded, is_given, IsCause, OffendsFirst, options_of, read_of, reading_of_words, row_for, finished_reading, Words};
ghost use Rattle.xfs_options.specs.Words.Read.{in_options, complete};

use crate::options::{OptionRow, ValueForm, row_of};
use std::alloc::Global;
use xfs_disk::{NoMemory, Word};

/// An option that was given.
#[derive(Drop)]
pub struct Given {
    /// The letter of the option.
    pub letter: u8,
    /// The number of the word where its value stands; where it is a flag, its letter.
    pub word: usize,
    /// Its value; that of a flag is empty.
    pub value: Word,
}

/// Why words are no command line.
#[derive(Clone, Copy, Debug)]
pub enum LineFault {
    /// The word of this number is the first that offends. Where a word lacks, it is the number of all words.
    Offends(usize),
    /// There is not enough memory.
    NoMemory,
}

/// What may follow.
#[derive(Clone, Copy)]
enum Expected {
    /// An option or the image.
    Options,
    /// The value of an option.
    Value { letter: u8, form: ValueForm },
    /// The image.
    Image,
    /// Nothing.
    Complete,
    /// The word of this number offends.
    Offended(usize),
}

/// How far words have been read.
#[derive(Drop)]
struct Reading {
    place: Expected,
    given: Vec<Given>,
}

/// The options that words give in front of an image. The words are those behind the tool's, and their
/// numbers begin at 1.
pub fn read_options(
    alloc: Global,
    rows: &[OptionRow],
    rest: &[Word],
) -> Result<Vec<Given>, LineFault>
    ensures given { IfOk result (λ given. options_of rows.now rest.now ≡ Ok given.items) }
    ensures refusal { IfErr result (IsCause (options_of rows.now rest.now)) }
    ensures offending { (n : ℕ) → HaveValues rows.now → result ≡ Err (LineFault.Offends n) → OffendsFirst rows.now rest.now n }
{
    read_given(alloc, rows, rest)
}

/// The options that words give.
#[tactic(auto, unfolding(crate::specs::Words::options_of))]
fn read_given(alloc: Global, rows: &[OptionRow], rest: &[Word]) -> Result<Vec<Given>, LineFault>
    ensures given { IfOk result (λ given. options_of rows.now rest.now ≡ Ok given.items) }
    ensures refusal { IfErr result (IsCause (options_of rows.now rest.now)) }
{
    match read_all(alloc, rows, rest) {
        Ok(reading) => reading.finish(rest.len() + 1),
        Err(NoMemory) => Err(LineFault::NoMemory),
    }
}

/// Reads all words.
fn read_all(alloc: Global, rows: &[OptionRow], rest: &[Word]) -> Result<Reading, NoMemory>
    ensures { IfOk result (λ reading. held reading ≡ reading_of_words rows.now rest.now) }
{
    let mut reading = Reading {
        place: Expected::Options,
        given: Vec::new(alloc),
    };
    for (before, word) in rest.iter().enumerate() {
        reading.take_word(alloc, rows, before + 1, word.bytes())?;
    }
    Ok(reading)
}

/// Whether an option is given.
pub(crate) fn is_given(letter: u8, given: &[Given]) -> bool
    ensures { result ≡ is_given letter given.now }
{
    given.iter().any(|given| given.letter == letter)
}

impl Reading {
    /// Reads the word of this number.
    fn take_word(
        &mut self,
        alloc: Global,
        rows: &[OptionRow],
        at: usize,
        word: &[u8],
    ) -> Result<(), NoMemory>
        ensures { IfOk result (λ _. held self.new ≡ after_word rows.now at word.now (held self.old)) }
    {
        match self.place {
            Expected::Options => self.take_option(alloc, rows, at, word)?,
            Expected::Value { letter, form } => self.take_value(alloc, at, letter, form, word)?,
            Expected::Image => self.place = Expected::Complete,
            Expected::Complete => self.place = Expected::Offended(at),
            Expected::Offended(_) => {}
        }
        Ok(())
    }

    /// Reads a word where an option or the image may stand.
    fn take_option(
        &mut self,
        alloc: Global,
        rows: &[OptionRow],
        at: usize,
        word: &[u8],
    ) -> Result<(), NoMemory>
        ensures { IfOk result (λ _. held self.new ≡ after_option rows.now at word.now self.old.given.items) }
    {
        if word == b"--".as_slice() {
            self.place = Expected::Image;
            return Ok(());
        }
        match word {
            [b'-', letters @ ..] if !letters.is_empty() => self.take_letters(
                alloc, rows, at, letters,
            ),
            _ => {
                self.place = Expected::Complete;
                Ok(())
            }
        }
    }

    /// Reads the letters of an option word.
    fn take_letters(
        &mut self,
        alloc: Global,
        rows: &[OptionRow],
        at: usize,
        letters: &[u8],
    ) -> Result<(), NoMemory>
        ensures { IfOk result (λ _. held self.new ≡ after_letters rows.now at letters.now self.old.given.items) }
    {
        self.place = Expected::Options;
        for (before, letter) in letters.iter().enumerate() {
            let Some(row) = self.row_for(rows, *letter) else {
                self.place = Expected::Offended(at);
                return Ok(());
            };
            match row.value {
                Some(form) => return self.take_rest(
                    alloc,
                    at,
                    *letter,
                    form,
                    &letters[before + 1..],
                ),
                None => self.give(alloc, *letter, at, &[])?,
            }
        }
        Ok(())
    }

    /// The row of a letter that may stand here.
    fn row_for(&self, rows: &[OptionRow], letter: u8) -> Option<OptionRow>
        ensures { result ≡ row_for letter rows.now self.now.given.items }
    {
        let row = row_of(rows, letter)?;
        if self.is_free(row.excludes) {
            Some(row)
        } else {
            None
        }
    }

    /// Whether the excluded option isn't given.
    fn is_free(&self, excluded: Option<u8>) -> bool
        ensures { result ≡ is_not_excluded excluded self.now.given.items }
    {
        match excluded {
            None => true,
            Some(letter) => !is_given(letter, &self.given),
        }
    }

    /// Reads the rest of a word behind a letter that takes a value: the value, or nothing where the next
    /// word is the value.
    fn take_rest(
        &mut self,
        alloc: Global,
        at: usize,
        letter: u8,
        form: ValueForm,
        rest: &[u8],
    ) -> Result<(), NoMemory>
        ensures { IfOk result (λ _. held self.new ≡ after_rest at letter form rest.now self.old.given.items) }
    {
        if rest.is_empty() {
            self.place = Expected::Value { letter, form };
            return Ok(());
        }
        self.take_value(alloc, at, letter, form, rest)
    }

    /// Reads the value of an option.
    fn take_value(
        &mut self,
        alloc: Global,
        at: usize,
        letter: u8,
        form: ValueForm,
        value: &[u8],
    ) -> Result<(), NoMemory>
        ensures { IfOk result (λ _. held self.new ≡ after_value at letter form value.now self.old.given.items) }
    {
        if !form.accepts(value) {
            self.place = Expected::Offended(at);
            return Ok(());
        }
        self.place = Expected::Options;
        self.give(alloc, letter, at, value)
    }

    /// Adds an option.
    fn give(&mut self, alloc: Global, letter: u8, word: usize, value: &[u8]) -> Result<(), NoMemory>
        ensures place { self.new.place ≡ self.old.place }
        ensures given { IfOk result (λ _. self.new.given.items ≡ self.old.given.items ++ record { letter = letter; word = word; value = value.now } ∷ []) }
    {
        let value = Word::from_slice(alloc, value)?;
        self.given.push(Given {
            letter,
            word,
            value,
        })?;
        Ok(())
    }

    /// The options, or the number of the first word that offends: that of all words where one lacks.
    fn finish(self, count: usize) -> Result<Vec<Given>, LineFault>
        ensures given { IfOk result (λ given. finished_reading count (held self) ≡ Ok given.items) }
        ensures refusal { IfErr result (IsCause (finished_reading count (held self))) }
    {
        match self.place {
            Expected::Complete => Ok(self.given),
            Expected::Offended(word) => Err(LineFault::Offends(word)),
            Expected::Options | Expected::Value { .. } | Expected::Image => Err(LineFault::Offends(
                count,
            )),
        }
    }
}
