//! The source and the sink over what the system reads and writes.

ghost use Rattle.std.specs.Prelude.{◌≡◌, ℕ, ◌≤◌, ◌<◌, ◌++◌, length, take, Some, None, IfOk, OnOk, OnErr};
ghost use Rattle.std.specs.Io.KnownBytes.{Appends, ReadConsumes};
ghost use Rattle.std.specs.Option.{ForSome};
ghost use Rattle.xfs_disk.specs.Counts.{CountsFailure};

use crate::system::{Outlet, is_interrupted};
use std::io;
use std::io::{Error, ErrorKind, Read};
use xfs_disk::{Failed, Sink, Source, counted};

/// A source over a reader. It tells nothing of the bytes that are left.
#[derive(Drop)]
pub struct StreamSource<R> {
    reader: R,
    faults: u64,
}

impl<R: Read> StreamSource<R> {
    ghost use Rattle.xfs_files.specs.Streams.{reader_of, source_faults};

    /// The source of what the reader gives.
    pub fn new(reader: R) -> StreamSource<R>
        ensures reader { reader_of result ≡ reader }
        ensures faults { source_faults result ≡ 0 }
    {
        StreamSource { reader, faults: 0 }
    }
}

impl<R: Read> Source for StreamSource<R> {
    ghost use Rattle.xfs_files.specs.Streams.{reader_of, source_faults};

    ghost left = { λ _. None };

    ghost faults = { source_faults };

    fn take(&mut self, into: &mut [u8]) -> Result<usize, Failed>
        requires { 0 < length into.old }
        ensures within { IfOk result (λ n. n ≤ length into.old) }
        ensures reads { ReadConsumes (R.remaining (reader_of self.old)) (R.remaining (reader_of self.new)) result into.new }
        ensures faults { CountsFailure (source_faults self.old) (source_faults self.new) result }
    {
        counted(self.reader.read(into), &mut self.faults)
    }
}

/// A sink over a writer. It tells the bytes that it took where the writer tells what it was given.
#[derive(Drop)]
pub struct StreamSink<W> {
    writer: W,
    faults: u64,
}

impl<W: Outlet> StreamSink<W> {
    ghost use Rattle.xfs_files.specs.Streams.{writer_of, sink_faults};

    /// The sink that gives to the writer.
    pub fn new(writer: W) -> StreamSink<W>
        ensures writer { writer_of result ≡ writer }
        ensures faults { sink_faults result ≡ 0 }
    {
        StreamSink { writer, faults: 0 }
    }
}

impl<W: Outlet> Sink for StreamSink<W> {
    ghost use Rattle.xfs_files.specs.Streams.{writer_of, sink_faults};

    ghost took = { λ sink. W.contents (writer_of sink) };

    ghost faults = { sink_faults };

    /// Takes the whole piece, and has then passed on all that it took, or fails after a prefix of it.
    fn put(&mut self, from: &[u8]) -> Result<(), Failed>
        ensures whole { OnOk result (ForSome (W.contents (writer_of self.old)) (λ before. W.contents (writer_of self.new) ≡ Some (before ++ from.now))) }
        ensures part { OnErr result (ForSome (W.contents (writer_of self.old)) (λ before.
            (n : ℕ) × (n ≤ length from.now) × (W.contents (writer_of self.new) ≡ Some (before ++ take n from.now)))) }
        ensures flushed { OnOk result (W.is_flushed (writer_of self.new)) }
        ensures faults { CountsFailure (sink_faults self.old) (sink_faults self.new) result }
    {
        counted(write_whole(&mut self.writer, from), &mut self.faults)
    }
}

/// Writes the whole slice, past what the writer itself keeps back. A write that takes nothing is an error.
fn write_whole<W: Outlet>(writer: &mut W, from: &[u8]) -> io::Result<()>
    ensures whole { OnOk result (ForSome (W.contents writer.old) (λ before. W.contents writer.new ≡ Some (before ++ from.now))) }
    ensures part { OnErr result (ForSome (W.contents writer.old) (λ before.
        (n : ℕ) × (n ≤ length from.now) × (W.contents writer.new ≡ Some (before ++ take n from.now)))) }
    ensures flushed { OnOk result (W.is_flushed writer.new) }
{
    let mut done = 0;
    for _ in 0..u64::MAX {
        if done == from.len() {
            return writer.pass_on();
        }
        match writer.give_some(&from[done..]) {
            Ok(0) => return Err(Error::from(ErrorKind::WriteZero)),
            Ok(count) => done += count,
            Err(error) => {
                if !is_interrupted(&error) {
                    return Err(error);
                }
            }
        }
    }
    Err(Error::from(ErrorKind::Interrupted))
}
