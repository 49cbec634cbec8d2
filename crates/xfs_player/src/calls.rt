//! Calls, and what is due of them.

use crate::answers::answers;
use crate::disk::CaseDisk;
use crate::library::Shelf;
use crate::numbers::set;
use crate::refusal::Refusal;
use std::alloc::{AllocError, Global};
use std::thread::Threads;
use xfs_disk::{Stamp, Word};
use xfs_memory::{HoldingGate, MemorySink, MemorySource};
use xfs_tools::{put_answer, run};

/// What a call is given beside its words.
#[derive(Drop)]
pub struct Surroundings {
    /// How many bytes standard output has room for.
    pub room: u64,
    /// What standard input holds.
    pub input: String,
    /// Whether reading standard input fails.
    pub unreadable: bool,
    /// For how many turns the first piece of a call waits for the second.
    pub turns: u64,
    /// What the library has.
    pub shelf: Shelf,
}

impl Surroundings {
    /// Takes a line of what a call is given: its first word, and what is behind.
    pub fn take(&mut self, word: &str, rest: &str) -> Result<(), Refusal> {
        match word {
            "room" => set(&mut self.room, rest),
            "input" => push_line(&mut self.input, rest),
            "tail" => push(&mut self.input, rest),
            "unreadable" => {
                self.unreadable = true;
                Ok(())
            }
            "turns" => set(&mut self.turns, rest),
            _ => self.shelf.take(word, rest),
        }
    }

    /// What standard input is.
    fn source(&self, alloc: Global) -> Result<MemorySource, Refusal> {
        let mut input = MemorySource::make(alloc, self.input.as_bytes())?;
        if self.unreadable {
            input.fail(1)?;
        }
        Ok(input)
    }
}

/// What a call reads, and what it puts to.
#[derive(Drop)]
struct Streams {
    input: MemorySource,
    out: MemorySink,
    err: MemorySink,
}

impl Streams {
    /// The streams that a call is given.
    fn make(alloc: Global, given: &Surroundings) -> Result<Streams, Refusal> {
        Ok(Streams {
            input: given.source(alloc)?,
            out: MemorySink::make(alloc, given.room as usize)?,
            err: MemorySink::make(alloc, 400)?,
        })
    }
}

/// What volumes that are made are stamped with.
const STAMP: Stamp = Stamp {
    seconds: 0,
    nanos: 0,
    generation: 0,
    uuid: [0; 16],
};

/// What a call put and how it ended, and what is due of that.
#[derive(Drop)]
pub struct Call {
    streams: Streams,
    code: u64,
    finished: u64,
    /// Whether the second of its pieces came while the first waited.
    met: bool,
    pub due: Due,
}

/// What is due of a call.
#[derive(Drop)]
pub struct Due {
    pub out: String,
    pub err: String,
    pub code: u64,
    pub finished: u64,
    pub met: bool,
}

impl Due {
    /// Nothing but the status 0.
    fn none(alloc: Global) -> Due {
        Due {
            out: String::new(alloc),
            err: String::new(alloc),
            code: 0,
            finished: 0,
            met: false,
        }
    }

    /// Takes a line of what is due: its first word, and what is behind.
    pub fn take(&mut self, word: &str, rest: &str) -> Result<(), Refusal> {
        match word {
            "out" => push_line(&mut self.out, rest),
            "cut" => push(&mut self.out, rest),
            "err" => push_line(&mut self.err, rest),
            "code" => set(&mut self.code, rest),
            "finished" => set(&mut self.finished, rest),
            "meets" => {
                self.met = true;
                Ok(())
            }
            _ => Err(Refusal::Unknown),
        }
    }
}

impl Call {
    /// Makes the call of these words, with a bar between two of them. Nothing is due but the status 0.
    pub fn make(
        rt: &(impl Threads + Sync),
        alloc: Global,
        disk: &mut CaseDisk,
        words: &str,
        given: &Surroundings,
    ) -> Result<Call, Refusal> {
        let words = words_of(alloc, words)?;
        let mut streams = Streams::make(alloc, given)?;
        let mut files = given.shelf.library();
        let gate = HoldingGate::new(given.turns);
        disk.forget_reads();
        let status = run(
            rt,
            alloc,
            &words,
            disk,
            &mut files,
            &mut streams.input,
            &mut streams.out,
            &mut streams.err,
            &STAMP,
            &gate,
        );
        Ok(Call {
            streams,
            code: status.code as u64,
            finished: status.finished,
            met: gate.has_met(),
            due: Due::none(alloc),
        })
    }

    /// Puts the answers that no call sees yet, one behind the other, as if a call did.
    pub fn put_answers(alloc: Global, given: &Surroundings) -> Result<Call, Refusal> {
        let mut streams = Streams::make(alloc, given)?;
        match put_all(&mut streams.out) {
            Ok(()) => Ok(Call {
                streams,
                code: 0,
                finished: 0,
                met: false,
                due: Due::none(alloc),
            }),
            Err(refusal) => {
                drop(streams);
                Err(refusal)
            }
        }
    }

    /// Whether the call says that a write failed once so many blocks were written.
    pub fn tells_fault(&self, alloc: Global, written: u64) -> Result<bool, Refusal> {
        let line = format!(in alloc; "xfs: write fault after {written} blocks\n")?;
        Ok(self.streams.err.bytes() == line.as_bytes() && self.code == 1)
    }

    /// Whether all parts are as they are due.
    pub fn is_due(&self) -> bool {
        self.streams.out.bytes() == self.due.out.as_bytes()
            && self.streams.err.bytes() == self.due.err.as_bytes()
            && self.code == self.due.code
            && self.finished == self.due.finished
            && self.met == self.due.met
    }

    /// Adds a line for each part that is not as it is due.
    pub fn tell_differences(&self, alloc: Global, told: &mut String) -> Result<(), AllocError> {
        let (out, err) = (self.due.out.as_str(), self.due.err.as_str());
        tell_stream(alloc, told, "output", self.streams.out.bytes(), out)?;
        tell_stream(alloc, told, "error", self.streams.err.bytes(), err)?;
        tell_number(alloc, told, "code", self.code, self.due.code)?;
        tell_number(alloc, told, "finished", self.finished, self.due.finished)?;
        let (met, due) = (self.met as u64, self.due.met as u64);
        tell_number(alloc, told, "met", met, due)
    }
}

/// Puts the answers that no call sees yet.
fn put_all(out: &mut MemorySink) -> Result<(), Refusal> {
    for answer in answers() {
        put_answer(out, answer)?;
    }
    Ok(())
}

/// Adds a line, unless memory lacked for it.
pub fn add(told: &mut String, line: Result<String, AllocError>) -> Result<(), AllocError> {
    match line {
        Ok(line) => told.push_str(line.as_str()),
        Err(fault) => Err(fault),
    }
}

/// Adds a line, unless memory lacked for it.
pub fn tell(told: &mut String, line: Result<String, AllocError>) -> Result<(), Refusal> {
    match add(told, line) {
        Ok(()) => Ok(()),
        Err(_) => Err(Refusal::NoMemory),
    }
}

/// Adds a text.
fn push(told: &mut String, text: &str) -> Result<(), Refusal> {
    match told.push_str(text) {
        Ok(()) => Ok(()),
        Err(_) => Err(Refusal::NoMemory),
    }
}

/// Adds a text and the end of its line.
fn push_line(told: &mut String, text: &str) -> Result<(), Refusal> {
    push(told, text)?;
    push(told, "\n")
}

/// Adds a line where a stream does not hold what is due.
fn tell_stream(
    alloc: Global,
    told: &mut String,
    stream: &str,
    held: &[u8],
    due: &str,
) -> Result<(), AllocError> {
    if held == due.as_bytes() {
        return Ok(());
    }
    let held = str::from_utf8(held).unwrap_or("no text");
    let line = format!(in alloc; "  {stream} {held:?}, due {due:?}\n");
    add(told, line)
}

/// Adds a line where a number is not the one that is due.
fn tell_number(
    alloc: Global,
    told: &mut String,
    name: &str,
    held: u64,
    due: u64,
) -> Result<(), AllocError> {
    if held == due {
        Ok(())
    } else {
        let line = format!(in alloc; "  {name} {held}, due {due}\n");
        add(told, line)
    }
}

/// The words of a text, with a bar between two of them.
fn words_of(alloc: Global, text: &str) -> Result<Vec<Word>, AllocError> {
    let mut words = Vec::new(alloc);
    if !text.is_empty() {
        for word in text.split('|') {
            words.push(Word::from_slice(alloc, word.as_bytes())?)?;
        }
    }
    Ok(words)
}
