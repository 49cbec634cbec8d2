//! A disk that is a file of the system.

ghost use Rattle.std.specs.Prelude.{◌≡◌, ℕ, ◌+◌, ◌*◌, ◌/◌, ◌^◌, ◌<◌, ◌≤◌, ◌↔◌, length, take, drop, Some, None, option_and_then, IsSome, IsNone, IfSome, IfOk, OnOk, OnErr, IsErr};
ghost use Rattle.std.specs.Option.{ForSome};
ghost use Rattle.std.proofs.Common.{rules};
ghost use Rattle.xfs_disk.specs.Counts.{CountsDone, CountsFailure, raised_times};
ghost use Rattle.xfs_files.specs.System.{with_piece};
ghost use Rattle.xfs_files.specs.Ahead.{HoldsPart};

use crate::ahead::Ahead;
use crate::system::{ByteFile, is_interrupted};
use std::alloc::Global;
use std::io;
use std::io::{Error, ErrorKind};
use xfs_disk::{BLOCK_SIZE, Disk, Failed, NoMemory, count_all_done, count_done, counted};

/// The bytes of a block, as a distance in a file.
const BLOCK_BYTES: u64 = BLOCK_SIZE as u64;

/// A disk over an opened file, or over none, and then every call fails.
///
/// It tells no blocks, since a write that fails may have written a part of its block. What a call does to the bytes of a file
/// that tells them, its own clauses say.
#[derive(Drop)]
pub struct FileDisk<F: ByteFile> {
    file: Option<F>,
    /// The whole blocks of the file when it was opened.
    blocks: u64,
    faults: u64,
    write_faults: u64,
    reads: u64,
    writes: u64,
    ahead: Ahead,
    ghost in_range: { blocks * 4096 < 2 ^ 64 },
    ghost held: { HoldsPart (option_and_then F.bytes file) ahead },
}

impl<F: ByteFile + Drop> FileDisk<F> {
    ghost use Rattle.xfs_files.specs.FileDisk.{file_of, bytes_of, size_of, faults_of, write_faults_of, reads_of, writes_of};

    /// The disk of an opened file, with as many blocks as the file has whole blocks of 4096 bytes. What is read ahead takes memory,
    /// and there is no disk without.
    pub fn open(alloc: Global, mut file: F) -> io::Result<FileDisk<F>>
        ensures opened { IfOk result (λ disk. IsSome (file_of disk)) }
        ensures size { IfOk result (λ disk. ForSome (F.bytes file) (λ all. size_of disk ≡ length all / 4096)) }
        ensures bytes { IfOk result (λ disk. bytes_of F.bytes disk ≡ F.bytes file) }
        ensures faults { IfOk result (λ disk. faults_of disk ≡ 0) }
        ensures write_faults { IfOk result (λ disk. write_faults_of disk ≡ 0) }
        ensures reads { IfOk result (λ disk. reads_of disk ≡ 0) }
        ensures writes { IfOk result (λ disk. writes_of disk ≡ 0) }
    {
        let count = file.count_bytes()?;
        match Ahead::make(alloc) {
            Ok(ahead) => Ok(FileDisk {
                file: Some(file),
                blocks: count / BLOCK_BYTES,
                faults: 0,
                write_faults: 0,
                reads: 0,
                writes: 0,
                ahead,
            }),
            Err(NoMemory) => Err(Error::from(ErrorKind::OutOfMemory)),
        }
    }

    /// The disk of no file.
    pub fn unopened(alloc: Global) -> FileDisk<F>
        ensures unopened { file_of result ≡ None }
        ensures size { size_of result ≡ 0 }
        ensures faults { faults_of result ≡ 0 }
        ensures write_faults { write_faults_of result ≡ 0 }
        ensures reads { reads_of result ≡ 0 }
        ensures writes { writes_of result ≡ 0 }
    {
        FileDisk {
            file: None,
            blocks: 0,
            faults: 0,
            write_faults: 0,
            reads: 0,
            writes: 0,
            ahead: Ahead::none(alloc),
        }
    }
}

impl<F: ByteFile + Drop> Disk for FileDisk<F> {
    ghost use Rattle.xfs_files.specs.FileDisk.{file_of, bytes_of, size_of, faults_of, write_faults_of, reads_of, writes_of};

    ghost size = { size_of };

    ghost holds = { λ _. None };

    ghost faults = { faults_of };

    ghost write_faults = { write_faults_of };

    ghost reads = { reads_of };

    ghost writes = { writes_of };

    fn faults(&self) -> u64 {
        self.faults
    }

    fn blocks(&mut self) -> Result<u64, Failed>
        ensures opened { IsErr result ↔ IsNone (file_of self.old) }
        ensures count { IfOk result (λ n. n ≡ size_of self.old) }
        ensures bytes { bytes_of F.bytes self.new ≡ bytes_of F.bytes self.old }
        ensures size { size_of self.new ≡ size_of self.old }
        ensures faults { CountsFailure (faults_of self.old) (faults_of self.new) result }
        ensures write_faults { write_faults_of self.new ≡ write_faults_of self.old }
        ensures reads { reads_of self.new ≡ reads_of self.old }
        ensures writes { writes_of self.new ≡ writes_of self.old }
    {
        let outcome = match &self.file {
            Some(_) => Ok(self.blocks),
            None => Err(no_file()),
        };
        counted(outcome, &mut self.faults)
    }

    fn read(&mut self, at: u64, into: &mut [u8]) -> Result<(), Failed>
        requires inside { at < size_of self.old }
        requires whole { length into.old ≡ 4096 }
        ensures opened { OnOk result (IsSome (file_of self.old)) }
        ensures read { OnOk result (ForSome (bytes_of F.bytes self.old) (λ all. into.new ≡ take 4096 (drop (at * 4096) all))) }
        ensures bytes { bytes_of F.bytes self.new ≡ bytes_of F.bytes self.old }
        ensures size { size_of self.new ≡ size_of self.old }
        ensures faults { CountsFailure (faults_of self.old) (faults_of self.new) result }
        ensures write_faults { write_faults_of self.new ≡ write_faults_of self.old }
        ensures reads { CountsDone (reads_of self.old) (reads_of self.new) result }
        ensures writes { writes_of self.new ≡ writes_of self.old }
    {
        let outcome = match &mut self.file {
            Some(file) => read_block(file, &mut self.ahead, at, into),
            None => Err(no_file()),
        };
        let outcome = counted(outcome, &mut self.faults);
        count_done(&outcome, &mut self.reads);
        outcome
    }

    /// By as few calls of the system as it takes, straight into `into`. What is held ahead stays, and is not asked.
    fn read_run(&mut self, at: u64, into: &mut [u8]) -> Result<(), Failed>
        requires inside { at + length into.old / 4096 ≤ size_of self.old }
        ensures opened { OnOk result (IsSome (file_of self.old)) }
        ensures read { OnOk result (ForSome (bytes_of F.bytes self.old) (λ all. into.new ≡ take (length into.old) (drop (at * 4096) all))) }
        ensures bytes { bytes_of F.bytes self.new ≡ bytes_of F.bytes self.old }
        ensures size { size_of self.new ≡ size_of self.old }
        ensures faults { CountsFailure (faults_of self.old) (faults_of self.new) result }
        ensures write_faults { write_faults_of self.new ≡ write_faults_of self.old }
        ensures reads { reads_of self.new ≤ reads_of self.old + length into.old / 4096 }
        ensures counted { OnOk result (reads_of self.new ≡ raised_times (length into.old / 4096) (reads_of self.old)) }
        ensures writes { writes_of self.new ≡ writes_of self.old }
    {
        let blocks = into.len() / BLOCK_SIZE;
        let outcome = match &mut self.file {
            Some(file) => read_at(file, at * BLOCK_BYTES, into),
            None => Err(no_file()),
        };
        let outcome = counted(outcome, &mut self.faults);
        count_all_done(&outcome, blocks as u64, &mut self.reads);
        outcome
    }

    fn read_front(&mut self, at: u64, into: &mut [u8]) -> Result<(), Failed>
        requires inside { at < size_of self.old }
        requires part { length into.old ≤ 4096 }
        ensures opened { OnOk result (IsSome (file_of self.old)) }
        ensures read { OnOk result (ForSome (bytes_of F.bytes self.old) (λ all. into.new ≡ take (length into.old) (drop (at * 4096) all))) }
        ensures bytes { bytes_of F.bytes self.new ≡ bytes_of F.bytes self.old }
        ensures size { size_of self.new ≡ size_of self.old }
        ensures faults { CountsFailure (faults_of self.old) (faults_of self.new) result }
        ensures write_faults { write_faults_of self.new ≡ write_faults_of self.old }
        ensures reads { CountsDone (reads_of self.old) (reads_of self.new) result }
        ensures writes { writes_of self.new ≡ writes_of self.old }
    {
        let outcome = match &mut self.file {
            Some(file) => read_front_of(file, &mut self.ahead, at, into),
            None => Err(no_file()),
        };
        let outcome = counted(outcome, &mut self.faults);
        count_done(&outcome, &mut self.reads);
        outcome
    }

    fn write(&mut self, at: u64, from: &[u8]) -> Result<(), Failed>
        requires inside { at < size_of self.old }
        requires whole { length from.now ≡ 4096 }
        ensures opened { OnOk result (IsSome (file_of self.old)) }
        ensures written { OnOk result (ForSome (bytes_of F.bytes self.old) (λ all. at * 4096 ≤ length all →
            bytes_of F.bytes self.new ≡ Some (with_piece (at * 4096) from.now all))) }
        ensures part { OnErr result (ForSome (bytes_of F.bytes self.old) (λ all. at * 4096 ≤ length all →
            (n : ℕ) × (n ≤ 4096) × (bytes_of F.bytes self.new ≡ Some (with_piece (at * 4096) (take n from.now) all)))) }
        ensures size { size_of self.new ≡ size_of self.old }
        ensures faults { faults_of self.new ≡ faults_of self.old }
        ensures write_faults { CountsFailure (write_faults_of self.old) (write_faults_of self.new) result }
        ensures reads { reads_of self.new ≡ reads_of self.old }
        ensures writes { CountsDone (writes_of self.old) (writes_of self.new) result }
    {
        self.ahead.drop_all();
        let outcome = match &mut self.file {
            Some(file) => write_at(file, at * BLOCK_BYTES, from),
            None => Err(no_file()),
        };
        let outcome = counted(outcome, &mut self.write_faults);
        count_done(&outcome, &mut self.writes);
        outcome
    }

    fn sync(&mut self) -> Result<(), Failed>
        ensures opened { OnOk result (IsSome (file_of self.old)) }
        ensures synced { OnOk result (IfSome (file_of self.new) F.is_synced) }
        ensures bytes { bytes_of F.bytes self.new ≡ bytes_of F.bytes self.old }
        ensures size { size_of self.new ≡ size_of self.old }
        ensures faults { faults_of self.new ≡ faults_of self.old }
        ensures write_faults { CountsFailure (write_faults_of self.old) (write_faults_of self.new) result }
        ensures reads { reads_of self.new ≡ reads_of self.old }
        ensures writes { writes_of self.new ≡ writes_of self.old }
    {
        let outcome = match &mut self.file {
            Some(file) => file.sync(),
            None => Err(no_file()),
        };
        counted(outcome, &mut self.write_faults)
    }

    ghost shape = { λ disk image told. Prim.search rules };

    ghost counts_now = { λ disk t image tells. absurd tells };

    ghost only_now = { λ disk image tells. absurd tells };
}

/// Fills the slice with a block of the file, which may have been read ahead, and reads ahead where blocks are asked for in a row.
fn read_block<F: ByteFile>(
    file: &mut F,
    ahead: &mut Ahead,
    at: u64,
    into: &mut [u8],
) -> io::Result<()>
    requires range { at * 4096 < 2 ^ 64 }
    requires whole { length into.old ≡ 4096 }
    requires held { HoldsPart (F.bytes file.old) ahead.old }
    ensures read { OnOk result (ForSome (F.bytes file.old) (λ all. into.new ≡ take 4096 (drop (at * 4096) all))) }
    ensures bytes { F.bytes file.new ≡ F.bytes file.old }
    ensures held { HoldsPart (F.bytes file.new) ahead.new }
{
    ahead.look(file, at);
    if ahead.give(at, into) {
        return Ok(());
    }
    ahead.expect_behind(at);
    read_at(file, at * BLOCK_BYTES, into)
}

/// Fills the slice with the first bytes of a block of the file, which may have been read ahead. Blocks are read ahead for them only where
/// many were asked for in a row, as in an election: where a few bytes of each block of a chunk are, whole blocks would be read for nothing.
fn read_front_of<F: ByteFile>(
    file: &mut F,
    ahead: &mut Ahead,
    at: u64,
    into: &mut [u8],
) -> io::Result<()>
    requires range { at * 4096 < 2 ^ 64 }
    requires part { length into.old ≤ 4096 }
    requires held { HoldsPart (F.bytes file.old) ahead.old }
    ensures read { OnOk result (ForSome (F.bytes file.old) (λ all. into.new ≡ take (length into.old) (drop (at * 4096) all))) }
    ensures bytes { F.bytes file.new ≡ F.bytes file.old }
    ensures held { HoldsPart (F.bytes file.new) ahead.new }
{
    ahead.look_front(file, at);
    if ahead.give(at, into) {
        return Ok(());
    }
    read_at(file, at * BLOCK_BYTES, into)
}

/// Fills the slice with the bytes of the file from this byte on. A file that ends earlier is an error.
fn read_at<F: ByteFile>(file: &mut F, start: u64, into: &mut [u8]) -> io::Result<()>
    requires range { start + length into.old ≤ 2 ^ 64 }
    ensures read { OnOk result (ForSome (F.bytes file.old) (λ all. into.new ≡ take (length into.old) (drop start all))) }
    ensures bytes { F.bytes file.new ≡ F.bytes file.old }
{
    let mut done = 0;
    for _ in 0..u64::MAX {
        if done == into.len() {
            return Ok(());
        }
        match file.read_some(start + done as u64, &mut into[done..]) {
            Ok(0) => return Err(Error::from(ErrorKind::UnexpectedEof)),
            Ok(count) => done += count,
            Err(error) => {
                if !is_interrupted(&error) {
                    return Err(error);
                }
            }
        }
    }
    Err(Error::from(ErrorKind::Interrupted))
}

/// Writes the slice into the file from this byte on. A write that takes nothing is an error.
fn write_at<F: ByteFile>(file: &mut F, start: u64, from: &[u8]) -> io::Result<()>
    requires range { start + length from.now ≤ 2 ^ 64 }
    ensures written { OnOk result (ForSome (F.bytes file.old) (λ all. start ≤ length all →
        F.bytes file.new ≡ Some (with_piece start from.now all))) }
    ensures part { OnErr result (ForSome (F.bytes file.old) (λ all. start ≤ length all →
        (n : ℕ) × (n ≤ length from.now) × (F.bytes file.new ≡ Some (with_piece start (take n from.now) all)))) }
{
    let mut done = 0;
    for _ in 0..u64::MAX {
        if done == from.len() {
            return Ok(());
        }
        match file.write_some(start + done as u64, &from[done..]) {
            Ok(0) => return Err(Error::from(ErrorKind::WriteZero)),
            Ok(count) => done += count,
            Err(error) => {
                if !is_interrupted(&error) {
                    return Err(error);
                }
            }
        }
    }
    Err(Error::from(ErrorKind::Interrupted))
}

/// What a call on the disk of no file meets.
fn no_file() -> Error {
    Error::from(ErrorKind::NotFound)
}
