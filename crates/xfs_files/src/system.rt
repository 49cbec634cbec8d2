//! What the objects of this crate call on a file or a stream of the system: each call is one of the system's.

ghost use Rattle.std.specs.Prelude.{◌≡◌, ℕ, ◌≤◌, List, length, take, drop, Option, Some, None, OnOk, OnErr, IfOk};
ghost use Rattle.std.specs.Io.KnownBytes.{Keeps, WriteAppends};
ghost use Rattle.std.specs.Option.{ForSome};
ghost use Rattle.xfs_files.specs.System.{with_piece};

use std::fs::OpenFile;
use std::io;
use std::io::{Error, ErrorKind, Read, Seek, SeekFrom, Write};
use std::os::unix::fs::FileExt;

/// A file of bytes that is read and written at any place.
///
/// Contracts see its `bytes` where it tells them, and that it `is_synced`: a stop of the machine leaves the bytes that it has. A call
/// that fails moved nothing.
pub trait ByteFile {
    ghost bytes: { Self → Option (List ℕ) } = { λ _. None };

    ghost is_synced: { Self → Type 0 } = { λ _. Unit {0} };

    /// How many bytes the file has.
    fn count_bytes(&mut self) -> io::Result<u64>
        ensures count { IfOk result (λ n. ForSome (bytes self.old) (λ all. n ≡ length all)) }
        ensures bytes { bytes self.new ≡ bytes self.old };

    /// Moves bytes of the file, from the byte of number `start` on, to the front of `into`, and says how many.
    fn read_some(&mut self, start: u64, into: &mut [u8]) -> io::Result<usize>
        ensures within { IfOk result (λ n. n ≤ length into.old) }
        ensures moved { IfOk result (λ n. ForSome (bytes self.old) (λ all. take n into.new ≡ take n (drop start all))) }
        ensures bytes { bytes self.new ≡ bytes self.old };

    /// Writes bytes from the front of `from` into the file, from the byte of number `start` on, and says how many.
    fn write_some(&mut self, start: u64, from: &[u8]) -> io::Result<usize>
        ensures within { IfOk result (λ n. n ≤ length from.now) }
        ensures written { IfOk result (λ n. ForSome (bytes self.old) (λ all. start ≤ length all → bytes self.new ≡ Some (with_piece start (take n from.now) all))) }
        ensures bytes { OnErr result (bytes self.new ≡ bytes self.old) };

    /// Waits until a stop leaves the bytes that the file has.
    fn sync(&mut self) -> io::Result<()>
        ensures synced { OnOk result (is_synced self.new) }
        ensures bytes { bytes self.new ≡ bytes self.old };
}

/// What bytes are written to, one after the other.
///
/// Contracts see the `contents` that it has taken where it tells them, and that it `is_flushed`: it holds none of them back.
pub trait Outlet {
    ghost contents: { Self → Option (List ℕ) } = { λ _. None };

    ghost is_flushed: { Self → Type 0 } = { λ _. Unit {0} };

    /// Takes bytes from the start of `from`, and says how many. Where it fails it took none.
    fn give_some(&mut self, from: &[u8]) -> io::Result<usize>
        ensures within { IfOk result (λ n. n ≤ length from.now) }
        ensures contents { WriteAppends (contents self.old) (contents self.new) result from.now };

    /// Passes on what it holds back.
    fn pass_on(&mut self) -> io::Result<()>
        ensures flushed { OnOk result (is_flushed self.new) }
        ensures contents { Keeps (contents self.old) (contents self.new) };
}

impl<F: Read + Write + Seek + OpenFile + FileExt> ByteFile for F {
    fn count_bytes(&mut self) -> io::Result<u64>
        ensures count { IfOk result (λ n. ForSome (F.stream_position self.old) (λ _. ForSome (F.stream_bytes self.old) (λ all. n ≡ length all))) }
    {
        self.seek(SeekFrom::End(0))
    }

    fn read_some(&mut self, start: u64, into: &mut [u8]) -> io::Result<usize> {
        self.read_at(into, start)
    }

    fn write_some(&mut self, start: u64, from: &[u8]) -> io::Result<usize> {
        self.write_at(from, start)
    }

    fn sync(&mut self) -> io::Result<()> {
        self.flush()?;
        self.sync_all()
    }
}

impl<W: Write> Outlet for W {
    ghost contents = { W.contents };

    fn give_some(&mut self, from: &[u8]) -> io::Result<usize> {
        self.write(from)
    }

    fn pass_on(&mut self) -> io::Result<()> {
        self.flush()
    }
}

/// Whether a call was interrupted, and moved nothing.
pub(crate) fn is_interrupted(error: &Error) -> bool {
    error.kind() == ErrorKind::Interrupted
}
