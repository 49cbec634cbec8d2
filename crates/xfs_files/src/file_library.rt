//! The library of the files of the system.

ghost use Rattle.std.specs.Prelude.{◌≡◌, ◌+◌, ◌^◌, ◌≤◌, None, Err, IfOk, vec_len};
ghost use Rattle.std.specs.Str.{IsUtf8};
ghost use Rattle.xfs_disk.specs.Files.{HasLibraryCause};

use std::alloc::Global;
use std::fs::Files;
use std::io::{ErrorKind, Read};
use std::{fs, io, str};
use xfs_disk::{Library, LibraryFault, Word, count_failure};

/// The most bytes of a file that a library gives.
const LARGEST_FILE: u64 = 1 << 38;

/// The files of the system by their paths. It tells nothing of them.
#[derive(Drop)]
pub struct FileLibrary<'a, R> {
    system: &'a R,
    faults: u64,
}

impl<'a, R: Files> FileLibrary<'a, R> {
    ghost use Rattle.xfs_files.specs.FileLibrary.{faults_of};

    /// The library of the files of this system.
    pub fn new(system: &'a R) -> FileLibrary<'a, R>
        ensures { faults_of result ≡ 0 }
    {
        FileLibrary { system, faults: 0 }
    }
}

impl<'a, R: Files> Library for FileLibrary<'a, R> {
    ghost use Rattle.xfs_files.specs.FileLibrary.{faults_of};

    ghost files = { λ _. None };

    ghost faults = { faults_of };

    /// A path that isn't text fails.
    fn file(&mut self, alloc: Global, name: &Word) -> Result<Vec<u8>, LibraryFault>
        ensures text { (IsUtf8 name.now → ⊥) → result ≡ Err LibraryFault.Failed }
        ensures largest { IfOk result (λ bytes. vec_len bytes ≤ 2 ^ 38) }
        ensures cause { HasLibraryCause (faults_of self.old) (faults_of self.new) result }
        ensures once { faults_of self.new ≤ faults_of self.old + 1 }
    {
        let outcome = read_file(alloc, self.system, name.bytes());
        if let Err(LibraryFault::Failed) = outcome {
            count_failure(&mut self.faults);
        }
        outcome
    }
}

/// The bytes of the file of this path, which is text.
fn read_file<R: Files>(alloc: Global, system: &R, path: &[u8]) -> Result<Vec<u8>, LibraryFault>
    ensures text { (IsUtf8 path.now → ⊥) → result ≡ Err LibraryFault.Failed }
    ensures largest { IfOk result (λ bytes. vec_len bytes ≤ 2 ^ 38) }
{
    let Ok(path) = str::from_utf8(path) else {
        return Err(LibraryFault::Failed);
    };
    match fs::open(system, path) {
        Ok(file) => read_whole(alloc, file),
        Err(error) => Err(refusal(&error)),
    }
}

/// What an error of the system is to a caller where a file was to be opened.
fn refusal(error: &io::Error) -> LibraryFault {
    match error.kind() {
        ErrorKind::NotFound => LibraryFault::Missing,
        _ => failure(error),
    }
}

/// All bytes of the file. More than the most that a library gives are a failure.
fn read_whole<F: Read + Drop>(alloc: Global, file: F) -> Result<Vec<u8>, LibraryFault>
    ensures { IfOk result (λ bytes. vec_len bytes ≤ 2 ^ 38) }
{
    let mut bytes = Vec::new(alloc);
    match file.take(LARGEST_FILE + 1).read_to_end(&mut bytes) {
        Ok(count) if count as u64 <= LARGEST_FILE => Ok(bytes),
        Ok(_) => Err(LibraryFault::Failed),
        Err(error) => Err(failure(&error)),
    }
}

/// What an error of the system other than a missing file is to a caller.
fn failure(error: &io::Error) -> LibraryFault {
    match error.kind() {
        ErrorKind::OutOfMemory => LibraryFault::NoMemory,
        _ => LibraryFault::Failed,
    }
}
