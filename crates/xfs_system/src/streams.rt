//! The standard streams, held before any other file is opened.

use std::fs::OpenOptions;
use std::io;
use std::rt::Files;

/// What is opened in the place of a standard stream that is closed.
const NOTHING: &str = "/dev/null";

/// Opens files until none of the three standard streams is free, and gives them to be held.
///
/// A program may be started with its output closed. The image would then be opened in that place, and
/// the line of the answer be written into it. Held open for reading alone, a closed output refuses what
/// is put, and a closed input is at its end.
pub fn hold_streams<R: Files>(rt: &R) -> io::Result<[R::File; 3]> {
    Ok([nothing(rt)?, nothing(rt)?, nothing(rt)?])
}

fn nothing<R: Files>(rt: &R) -> io::Result<R::File> {
    OpenOptions::new().read(true).open(rt, NOTHING)
}
