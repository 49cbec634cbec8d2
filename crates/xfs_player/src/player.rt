//! Takes the lines of the cases one after the other.

use crate::case::Case;
use crate::numbers::cut;
use crate::refusal::Refusal;
use std::alloc::{AllocError, Global};
use std::io;
use std::thread::Threads;

/// Lines that stand for a name.
#[derive(Drop)]
struct Definition {
    name: String,
    lines: Vec<String>,
}

/// What was read so far: the definitions and the case that has begun.
#[derive(Drop)]
pub struct Player {
    alloc: Global,
    definitions: Vec<Definition>,
    case: Option<Case>,
}

impl Player {
    /// A player that has read nothing.
    pub fn new(alloc: Global) -> Player {
        Player {
            alloc,
            definitions: Vec::new(alloc),
            case: None,
        }
    }

    /// Takes a line. `case NAME` ends a case and begins another. `define NAME` ends a case, and the lines behind it make a definition;
    /// in a case `with NAME NAME ..` stands for the lines of these. Lines that begin with `#` and empty ones say nothing. Where a line can't be done, the
    /// case goes wrong.
    pub fn take(&mut self, rt: &(impl Print + Threads + Sync), line: &str) -> io::Result<()> {
        let line = line.trim();
        if line.is_empty() || line.starts_with('#') {
            return Ok(());
        }
        let (word, rest) = cut(line);
        if word == "case" || word == "define" {
            self.end_case(rt)?;
        }
        match self.perform(rt, line, word, rest) {
            Ok(()) => Ok(()),
            Err(refusal) => self.tell(rt, line, refusal),
        }
    }

    /// Ends the case that has begun, and prints how it went.
    pub fn end_case(&mut self, rt: &impl Print) -> io::Result<()> {
        match self.case.take() {
            Some(case) => end(rt, case),
            None => Ok(()),
        }
    }

    /// Tells that a line can't be done.
    fn tell(&mut self, rt: &impl Print, line: &str, refusal: Refusal) -> io::Result<()> {
        match &mut self.case {
            Some(case) => {
                case.tell(line, refusal)?;
                Ok(())
            }
            None => println!(rt; "wrong {line}: {refusal}"),
        }
    }

    /// Does what a line says.
    fn perform(
        &mut self,
        rt: &(impl Threads + Sync),
        line: &str,
        word: &str,
        rest: &str,
    ) -> Result<(), Refusal> {
        match word {
            "case" => self.begin(rest),
            "define" => self.define(rest),
            "with" => self.insert(rt, rest),
            _ => match &mut self.case {
                Some(case) => case.take(rt, word, rest),
                None => self.add(line),
            },
        }
    }

    /// Begins a case.
    fn begin(&mut self, name: &str) -> Result<(), Refusal> {
        let case = Case::new(self.alloc, name)?;
        drop(self.case.replace(case));
        Ok(())
    }

    /// Begins a definition.
    fn define(&mut self, name: &str) -> Result<(), Refusal> {
        self.definitions.push(Definition {
            name: String::from_str(self.alloc, name)?,
            lines: Vec::new(self.alloc),
        })?;
        Ok(())
    }

    /// Adds a line to the definition that was begun last.
    fn add(&mut self, line: &str) -> Result<(), Refusal> {
        let Some(definition) = self.definitions.last_mut() else {
            return Err(Refusal::NoCase);
        };
        definition.lines.push(String::from_str(self.alloc, line)?)?;
        Ok(())
    }

    /// Takes the lines of definitions.
    fn insert(&mut self, rt: &(impl Threads + Sync), names: &str) -> Result<(), Refusal> {
        let Some(case) = &mut self.case else {
            return Err(Refusal::NoCase);
        };
        for name in names.split_whitespace() {
            match lines_of(&self.definitions, name) {
                Some(lines) => take_lines(rt, case, lines)?,
                None => return Err(Refusal::Undefined),
            }
        }
        Ok(())
    }
}

/// Ends a case, and prints how it went.
fn end(rt: &impl Print, case: Case) -> io::Result<()> {
    let mut case = case;
    let told = case.end();
    drop(case);
    print_told(rt, told)
}

/// Prints a line, unless memory lacked for it.
fn print_told(rt: &impl Print, told: Result<String, AllocError>) -> io::Result<()> {
    let told = told?;
    println!(rt; "{told}")
}

/// Takes lines of a case.
fn take_lines(
    rt: &(impl Threads + Sync),
    case: &mut Case,
    lines: &[String],
) -> Result<(), Refusal> {
    for line in lines {
        let (word, rest) = cut(line.as_str());
        case.take(rt, word, rest)?;
    }
    Ok(())
}

/// The lines of the definition of this name.
fn lines_of<'a>(definitions: &'a [Definition], name: &str) -> Option<&'a [String]> {
    for definition in definitions {
        if definition.name.as_str() == name {
            return Some(definition.lines.as_slice());
        }
    }
    None
}
