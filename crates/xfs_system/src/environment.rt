//! What the tools are handed in beside words, a disk and a stamp.

ghost use Rattle.std.specs.Prelude.{◌≡◌};
ghost use Rattle.xfs_files.specs.Streams.{reader_of, writer_of};

use std::io::{Stderr, Stdin, Stdout};
use xfs_files::{StreamSink, StreamSource};

/// The files that are found by name, the input, and the streams of the answers.
#[derive(Drop)]
pub struct Environment<L, S, O, E> {
    pub files: L,
    pub input: S,
    pub out: O,
    pub err: E,
}

/// Those of the system's streams, of which each has a type of its own.
pub fn over_streams<L>(
    files: L,
    input: Stdin,
    out: Stdout,
    err: Stderr,
) -> Environment<L, StreamSource<Stdin>, StreamSink<Stdout>, StreamSink<Stderr>>
    ensures files { result.files ≡ files }
    ensures input { reader_of result.input ≡ input }
    ensures out { writer_of result.out ≡ out }
    ensures err { writer_of result.err ≡ err }
{
    Environment {
        files,
        input: StreamSource::new(input),
        out: StreamSink::new(out),
        err: StreamSink::new(err),
    }
}
