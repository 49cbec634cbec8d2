//! A case: a disk, calls on it, and what is due of them.

use crate::calls::{Call, Surroundings, add, tell};
use crate::library::Shelf;
use crate::numbers::{cut, number};
use crate::refusal::Refusal;
use crate::stops::{Stops, stop_by_steps};
use crate::volume::Disks;
use std::alloc::{AllocError, Global};
use std::thread::Threads;

/// The bytes that standard output has room for where a case does not say it.
const ROOM: u64 = 120;

/// A case of which lines were taken.
#[derive(Drop)]
pub struct Case {
    alloc: Global,
    name: String,
    disks: Disks,
    given: Surroundings,
    /// The last call.
    call: Option<Call>,
    calls: u64,
    /// Whether what the disk holds in the end is not compared.
    unseen: bool,
    /// What is not as it is due.
    told: String,
}

impl Case {
    /// A case of which no line was taken, on a disk without blocks.
    pub fn new(alloc: Global, name: &str) -> Result<Case, Refusal> {
        Ok(Case {
            alloc,
            name: String::from_str(alloc, name)?,
            disks: Disks::make(alloc)?,
            given: Surroundings {
                room: ROOM,
                input: String::new(alloc),
                unreadable: false,
                turns: 0,
                shelf: Shelf::new(alloc),
            },
            call: None,
            calls: 0,
            unseen: false,
            told: String::new(alloc),
        })
    }

    /// Takes a line: its first word, and what is behind.
    ///
    /// What the disk holds: `zeros`, `filled`, `bytes`, `copy`, `slots`, `pipes`, `entries`, `cycles` and `chunks` of `volume`; behind `then`
    /// they say what it must hold in the end beside what it held, and `unseen` says that this is not compared. `holds BLOCK OFFSET DIGITS`
    /// says what a block holds there now.
    ///
    /// What a call is given: `fail N` makes the read, write or sync of the disk fail that has this number, counted from 1 from here on;
    /// `halt N` makes all calls of it fail once N more blocks were written, and `restart` none from here on;
    /// `room N` bytes are left for standard output from here on; `input LINE` and `tail TEXT` are added to standard input, which is not
    /// read where the case has `unreadable`; with `turns N` the first of the pieces that several workers get waits so many turns for the
    /// second. `file`, `text`, `more`, `below`, `many` and `library-fail` say what the library has
    /// (`library`).
    ///
    /// `stops N STEP WORD|WORD|..` makes a call that writes N blocks on copies of the disk, of which each stops after STEP more of these
    /// (`stops`).
    ///
    /// `run WORD|WORD|..` makes a call. Behind it stands what is due of it: `out LINE` and `err LINE`, `cut TEXT` for output that has no end
    /// of line, `code N` and `finished N` where they are not 0, `meets` where the second piece comes while the first waits, and `reads BLOCK
    /// OTHER OTHER ..` that the call read a block, and the others before it.
    ///
    /// `answers` puts the lines of answers that no call sees yet, which are due as those of a call.
    pub fn take(
        &mut self,
        rt: &(impl Threads + Sync),
        word: &str,
        rest: &str,
    ) -> Result<(), Refusal> {
        match word {
            "run" => self.run(rt, rest),
            "answers" => self.put_answers(),
            "stops" => self.stop(rt, rest),
            _ => match self.disks.take(word, rest) {
                Err(Refusal::Unknown) => self.take_given(word, rest),
                taken => taken,
            },
        }
    }

    /// Takes a line that neither makes a call nor says what the disks hold.
    fn take_given(&mut self, word: &str, rest: &str) -> Result<(), Refusal> {
        match self.given.take(word, rest) {
            Err(Refusal::Unknown) => self.take_due(word, rest),
            taken => taken,
        }
    }

    /// Takes a line of what is due.
    fn take_due(&mut self, word: &str, rest: &str) -> Result<(), Refusal> {
        match word {
            "unseen" => {
                self.unseen = true;
                Ok(())
            }
            "holds" => self.compare(rest),
            "reads" => self.compare_reads(rest),
            _ => self.expect(word, rest),
        }
    }

    /// Tells where a block does not hold the bytes that a line says.
    fn compare(&mut self, text: &str) -> Result<(), Refusal> {
        if self.disks.holds(text)? {
            Ok(())
        } else {
            let line = format!(in self.alloc; "  not held: {text}\n");
            tell(&mut self.told, line)
        }
    }

    /// Tells which blocks the last call did not read before the first of these.
    fn compare_reads(&mut self, text: &str) -> Result<(), Refusal> {
        let (block, others) = cut(text);
        let block = number(block)?;
        for other in others.split_whitespace() {
            let other = number(other)?;
            if !self.disks.held.reads_before(other, block) {
                let line = format!(in self.alloc; "  block {other} is not read before {block}\n");
                tell(&mut self.told, line)?;
            }
        }
        Ok(())
    }

    /// Takes a line of what is due of the last call.
    fn expect(&mut self, word: &str, rest: &str) -> Result<(), Refusal> {
        match &mut self.call {
            Some(call) => call.due.take(word, rest),
            None => Err(Refusal::NoCall),
        }
    }

    /// Compares the last call, and makes another.
    fn run(&mut self, rt: &(impl Threads + Sync), words: &str) -> Result<(), Refusal> {
        self.end_call()?;
        let call = Call::make(rt, self.alloc, &mut self.disks.held, words, &self.given)?;
        self.begin(call);
        Ok(())
    }

    /// Compares the last call, and puts the answers that no call sees yet.
    fn put_answers(&mut self) -> Result<(), Refusal> {
        self.end_call()?;
        let call = Call::put_answers(self.alloc, &self.given)?;
        self.begin(call);
        Ok(())
    }

    /// Takes a call, whose answer the next lines say.
    fn begin(&mut self, call: Call) {
        drop(self.call.replace(call));
        self.calls = self.calls.saturating_add(1);
    }

    /// Makes a call on disks that stop after each of its writes.
    fn stop(&mut self, rt: &(impl Threads + Sync), text: &str) -> Result<(), Refusal> {
        let (due, rest) = cut(text);
        let (step, words) = cut(rest);
        let (due, step) = (number(due)?, number(step)?);
        let disk = &self.disks.held;
        let stops = stop_by_steps(rt, self.alloc, disk, step, words, &self.given)?;
        self.tell_stops(&stops, due)
    }

    /// Tells where so many blocks were not written, and where a stop left what it must not.
    fn tell_stops(&mut self, stops: &Stops, due: u64) -> Result<(), Refusal> {
        let Stops { writes, wrong } = *stops;
        if writes != due {
            let line = format!(in self.alloc; "  {writes} blocks written, due {due}\n");
            tell(&mut self.told, line)?;
        }
        match wrong {
            Some(written) => tell(
                &mut self.told,
                format!(in self.alloc; "  wrong behind {written} writes\n"),
            ),
            None => Ok(()),
        }
    }

    /// Tells what of the last call is not as it is due.
    fn end_call(&mut self) -> Result<(), AllocError> {
        match self.call.take() {
            Some(call) => {
                let told = self.tell_call(&call);
                drop(call);
                told
            }
            None => Ok(()),
        }
    }

    /// Tells what of a call is not as it is due.
    fn tell_call(&mut self, call: &Call) -> Result<(), AllocError> {
        if call.is_due() {
            return Ok(());
        }
        let place = format!(in self.alloc; "  call {}:\n", self.calls);
        add(&mut self.told, place)?;
        call.tell_differences(self.alloc, &mut self.told)
    }

    /// Tells that a line can't be done.
    pub fn tell(&mut self, line: &str, refusal: Refusal) -> Result<(), AllocError> {
        let told = format!(in self.alloc; "  {line}: {refusal}\n");
        add(&mut self.told, told)
    }

    /// Ends the case: compares the last call and the disks, and says how it went.
    pub fn end(&mut self) -> Result<String, AllocError> {
        self.end_call()?;
        if self.calls == 0 {
            self.told.push_str("  no call\n")?;
        }
        if !self.unseen && !self.disks.agree() {
            self.told
                .push_str("  the disk does not hold what is due\n")?;
        }
        self.verdict()
    }

    /// How the case went, by what was told.
    fn verdict(&self) -> Result<String, AllocError> {
        if self.told.is_empty() {
            format!(in self.alloc; "ok {}", self.name)
        } else {
            format!(in self.alloc; "wrong {}\n{}", self.name, self.told)
        }
    }
}
