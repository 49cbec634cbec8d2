//! Tables of tests, each as one text, which costs the prover almost nothing where each numeral costs it dear.
//!
//! A table is a constant with one case a line, read by a loop over the numbers of its lines:
//!
//! ```text
//! const RUNS: &str = "\
//! it begins at the block | 40 10 | true | Some(Run { start: 40, count: 10 })
//! it is empty | 0x28 0 | false | None
//! ";
//!
//! for i in 0..line_count(RUNS) {
//!     let mut row = Row::new(line_at(RUNS, i));
//!     let (case, start, count) = (row.text(), row.number(rt), row.number(rt));
//!     row.tells_flag(rt, set.meets(start, count), case);
//!     tells(rt, &set.first(start), row.text(), case);
//! }
//! ```
//!
//! The fields stand from left to right, each as the call that reads it says: texts between bars, and words between
//! blanks, behind which one bar may stand.

ghost use Rattle.std.specs.Prelude.{◌≡◌, ◌<◌, length};

use crate::checks::{compare_at, must};
use std::alloc::Global;
use std::fmt::Debug;
use std::process::Abort;

/// The fields of a line that are not read yet.
#[derive(Clone, Copy)]
pub struct Row<'a> {
    line: &'a str,
    rest: &'a str,
}

impl<'a> Row<'a> {
    /// All fields of a line.
    pub fn new(line: &'a str) -> Row<'a> {
        Row { line, rest: line }
    }

    /// The text up to the next bar or the end, without the blanks round it. It may be empty.
    pub fn text(&mut self) -> &'a str {
        let (text, rest) = self.rest.split_once('|').unwrap_or((self.rest, ""));
        self.rest = rest;
        text.trim()
    }

    /// All that is left of the line.
    pub fn rest(&mut self) -> &'a str {
        let rest = self.rest;
        self.rest = "";
        rest
    }

    /// The next word; a bar behind it is passed over.
    pub fn word(&mut self) -> &'a str {
        let words = self.rest.trim_start();
        let (word, rest) = words.split_once(' ').unwrap_or((words, ""));
        let rest = rest.trim_start();
        self.rest = rest.strip_prefix('|').unwrap_or(rest);
        word
    }

    /// The next word as a number of any integer type: decimal, or hexadecimal behind `0x`.
    pub fn number<T: TryFrom<u64>>(&mut self, rt: &impl Abort) -> T
    where
        T::Error: Drop,
    {
        let word = self.word();
        match number_of(word) {
            Some(number) => number,
            None => refuse(rt, "a word is no number", self.line),
        }
    }

    /// The next word as a number, or nothing where it is `-`.
    pub fn optional<T: TryFrom<u64>>(&mut self, rt: &impl Abort) -> Option<T>
    where
        T::Error: Drop,
    {
        let mut ahead = *self;
        if ahead.word() == "-" {
            *self = ahead;
            return None;
        }
        Some(self.number(rt))
    }

    /// The next word as `true` or `false`.
    pub fn flag(&mut self, rt: &impl Abort) -> bool {
        match self.word() {
            "true" => true,
            "false" => false,
            _ => refuse(rt, "a word is no flag", self.line),
        }
    }

    /// Fails where the next word is not this number.
    pub fn tells_number(&mut self, rt: &impl Abort, held: u64, place: &str) {
        compare_at(rt, &held, &self.number(rt), &place)
    }

    /// Fails where the next word is not this flag.
    pub fn tells_flag(&mut self, rt: &impl Abort, held: bool, place: &str) {
        compare_at(rt, &held, &self.flag(rt), &place)
    }

    /// The words up to the next bar or the end as numbers.
    pub fn numbers<T: TryFrom<u64> + Drop>(&mut self, rt: &impl Abort, alloc: Global) -> Vec<T>
    where
        T::Error: Drop,
    {
        let mut numbers = Vec::new(alloc);
        for word in self.text().split_whitespace() {
            match number_of(word) {
                Some(number) => must(rt, numbers.push(number)),
                None => refuse(rt, "a word is no number", self.line),
            }
        }
        numbers
    }

    /// The text up to the next bar or the end as bytes, two hexadecimal digits each, with blanks anywhere.
    pub fn bytes(&mut self, rt: &impl Abort, alloc: Global) -> Vec<u8> {
        let mut bytes = Vec::new(alloc);
        let mut high = None;
        for byte in self.text().as_bytes() {
            if *byte != b' ' {
                let low = digit(rt, *byte);
                match high.take() {
                    None => high = Some(low),
                    Some(high) => must(rt, bytes.push(high << 4 | low)),
                }
            }
        }
        if high.is_some() {
            refuse(rt, "half a byte", self.line);
        }
        bytes
    }

    /// Writes the same bytes over those of an object, from a byte offset on.
    pub fn put(&mut self, rt: &(impl Abort + AllocGlobal), object: &mut [u8], at: usize)
        ensures { length object.new ≡ length object.old }
    {
        let bytes = self.bytes(rt, rt.alloc());
        let room = object
            .get_mut(at..)
            .and_then(|rest| rest.get_mut(..bytes.len()));
        match room {
            Some(room) => room.copy_from_slice(bytes.as_slice()),
            None => refuse(rt, "bytes lie past the object", self.line),
        }
    }

    /// Whether no field is left.
    pub fn is_read(&self) -> bool {
        self.rest.trim().is_empty()
    }
}

/// Fails with what is wrong in a text.
pub fn refuse(rt: &impl Abort, what: &str, text: &str) -> ! {
    panic!(rt; "{what}: {text:?}")
}

/// A word as a number.
fn number_of<T: TryFrom<u64>>(word: &str) -> Option<T>
where
    T::Error: Drop,
{
    let number = match word.strip_prefix("0x") {
        Some(digits) => u64::from_str_radix(digits, 16),
        None => word.parse::<u64>(),
    };
    T::try_from(number.ok()?).ok()
}

/// The value of a hexadecimal digit.
fn digit(rt: &impl Abort, byte: u8) -> u8
    ensures { result < 16 }
{
    match byte {
        b'0'..=b'9' => byte - b'0',
        b'a'..=b'f' => byte - b'a' + 10,
        _ => refuse(rt, "a character is no hexadecimal digit", ""),
    }
}

/// How many lines a table has.
pub fn line_count(table: &str) -> usize {
    table.lines().count()
}

/// A line of a table, counted from 0. A loop over these numbers costs the check half of what one over the lines does.
pub fn line_at(table: &str, i: usize) -> &str {
    table.lines().nth(i).unwrap_or("")
}

/// How many rows stand between commas, of which there may be none.
pub fn part_count(text: &str) -> usize {
    if text.is_empty() {
        0
    } else {
        text.split(',').count()
    }
}

/// One of these rows, counted from 0.
pub fn part_at(text: &str, i: usize) -> Row<'_> {
    Row::new(text.split(',').nth(i).unwrap_or(""))
}

/// Writes the parts of an object over its bytes. The parts stand in lines or between commas, each as a byte offset and
/// the bytes from there on. `ff*260` is a byte so many times.
pub fn put_parts(rt: &(impl Abort + AllocGlobal), object: &mut [u8], parts: &str)
    ensures { length object.new ≡ length object.old }
{
    for i in 0..line_count(parts) {
        let line = line_at(parts, i);
        for k in 0..part_count(line) {
            put_part(rt, object, part_at(line, k));
        }
    }
}

/// Writes one part.
fn put_part(rt: &(impl Abort + AllocGlobal), object: &mut [u8], mut part: Row)
    ensures { length object.new ≡ length object.old }
{
    let at: usize = part.number(rt);
    let text = part.text();
    let (bytes, count) = match text.split_once('*') {
        Some((byte, count)) => (byte, Row::new(count).number(rt)),
        None => (text, 1),
    };
    for k in 0..count {
        Row::new(bytes).put(rt, object, at.saturating_add(k));
    }
}

/// Fails where a value is not told by this text, as `{:?}` writes it.
pub fn tells<T: Debug>(rt: &(impl Abort + AllocGlobal), held: &T, due: &str, place: &str) {
    match format!(in rt.alloc(); "{held:?}") {
        Ok(text) => compare_at(rt, &text.as_str(), &due, &place),
        Err(_) => refuse(rt, "no memory", place),
    }
}
