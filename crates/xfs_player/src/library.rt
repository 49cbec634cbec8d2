//! A library of files in memory, and the lines that say what it has.

ghost use Rattle.std.specs.Prelude.{None};

use crate::numbers::{cut, number, read_bytes, set};
use crate::refusal::Refusal;
use std::alloc::Global;
use xfs_disk::{Library, LibraryFault, Word};

/// A file, found by its name.
#[derive(Drop)]
struct CaseFile {
    name: String,
    bytes: Vec<u8>,
}

/// The files of a library, and which call of it fails, counted from 1 in each run; 0 is none.
#[derive(Drop)]
pub struct Shelf {
    alloc: Global,
    files: Vec<CaseFile>,
    fails: u64,
}

impl Shelf {
    /// No files; no call fails.
    pub fn new(alloc: Global) -> Shelf {
        Shelf {
            alloc,
            files: Vec::new(alloc),
            fails: 0,
        }
    }

    /// Takes a line of what the library has: its first word, and what is behind. `file NAME DIGITS` adds a file of these bytes, `text
    /// NAME TEXT` one with a text. Behind it `more DIGITS` adds bytes to it, `below TEXT` a line of text, and `many COUNT TEXT` so many lines with
    /// the names `n00000`, `n00001` and so on in front of the text. `library-fail N` makes the call of this number fail.
    pub fn take(&mut self, word: &str, rest: &str) -> Result<(), Refusal> {
        let (name, text) = cut(rest);
        match word {
            "file" => self.begin(name, read_bytes(self.alloc, text)),
            "text" => self.begin(name, bytes_of(self.alloc, text)),
            "more" => self.add_bytes(rest),
            "below" => self.add_line(rest),
            "many" => self.add_entries(name, text),
            "library-fail" => set(&mut self.fails, rest),
            _ => Err(Refusal::Unknown),
        }
    }

    /// Adds a file, unless there are no bytes of it.
    fn begin(&mut self, name: &str, bytes: Result<Vec<u8>, Refusal>) -> Result<(), Refusal> {
        self.files.push(CaseFile {
            bytes: bytes?,
            name: String::from_str(self.alloc, name)?,
        })?;
        Ok(())
    }

    /// Adds the bytes that digits state to the file that was added last.
    fn add_bytes(&mut self, digits: &str) -> Result<(), Refusal> {
        let bytes = read_bytes(self.alloc, digits)?;
        self.add(bytes.as_slice())
    }

    /// Adds bytes to the file that was added last.
    fn add(&mut self, bytes: &[u8]) -> Result<(), Refusal> {
        let Some(file) = self.files.last_mut() else {
            return Err(Refusal::NoFile);
        };
        file.bytes.extend_from_slice(bytes)?;
        Ok(())
    }

    /// Adds a line to it.
    fn add_line(&mut self, text: &str) -> Result<(), Refusal> {
        self.add(b"\n")?;
        self.add(text.as_bytes())
    }

    /// Adds lines to it, each with a name of its own in front.
    fn add_entries(&mut self, count: &str, text: &str) -> Result<(), Refusal> {
        for number in 0..number(count)? {
            let line = format!(in self.alloc; "\nn{number:05} {text}")?;
            self.add(line.as_bytes())?;
        }
        Ok(())
    }

    /// The library of these files.
    pub fn library(&self) -> CaseLibrary<'_> {
        CaseLibrary {
            files: self.files.as_slice(),
            fails: self.fails,
            faults: 0,
        }
    }
}

/// The bytes of a text.
fn bytes_of(alloc: Global, text: &str) -> Result<Vec<u8>, Refusal> {
    match Vec::from_slice(alloc, text.as_bytes()) {
        Ok(bytes) => Ok(bytes),
        Err(_) => Err(Refusal::NoMemory),
    }
}

/// Files in memory, and which call from here on fails, counted from 1; 0 is none. No contract tells what it holds.
#[derive(Drop)]
pub struct CaseLibrary<'a> {
    files: &'a [CaseFile],
    fails: u64,
    faults: u64,
}

impl<'a> Library for CaseLibrary<'a> {
    ghost files = { λ _. None };

    ghost faults = { λ library. library.faults };

    fn file(&mut self, alloc: Global, name: &Word) -> Result<Vec<u8>, LibraryFault> {
        let fails = self.fails == 1;
        self.fails = self.fails.saturating_sub(1);
        if fails {
            self.faults = self.faults.saturating_add(1);
            return Err(LibraryFault::Failed);
        }
        let Some(found) = find(self.files, name) else {
            return Err(LibraryFault::Missing);
        };
        match Vec::from_slice(alloc, found.bytes.as_slice()) {
            Ok(bytes) => Ok(bytes),
            Err(_) => Err(LibraryFault::NoMemory),
        }
    }
}

/// The file of this name.
fn find<'a>(files: &'a [CaseFile], name: &Word) -> Option<&'a CaseFile> {
    for file in files {
        if file.name.as_bytes() == name.bytes() {
            return Some(file);
        }
    }
    None
}
