//! The objects over the system, on files of the folder for temporary files.

use crate::checks::{equal, must, sure};
use std::fs::{File, OpenOptions};
use std::io::{ErrorKind, Write};
use std::path::PathBuf;
use std::process::Abort;
use std::{env, fs, io, process};
use xfs_disk::{BLOCK_SIZE, Disk, Failed, Library, LibraryFault, Sink, Source, Word};
use xfs_files::{FileDisk, FileLibrary, StreamSink, StreamSource};

/// The path of a temporary file of this process.
fn path_of(rt: &impl Abort, system: &HostRuntime, name: &str) -> PathBuf {
    let id = process::id(system.process());
    let file = must(rt, format!(in system.alloc(); "xfs_disk-{id}-{name}"));
    let folder = must(rt, env::temp_dir(system));
    must(rt, folder.join(system.alloc(), file))
}

fn word(rt: &impl Abort, system: &HostRuntime, bytes: &[u8]) -> Word {
    Word::from_vec(must(rt, Vec::from_slice(system.alloc(), bytes)))
}

#[test]
fn a_file_is_a_disk_of_its_whole_blocks(rt: HostRuntime) {
    let path = path_of(&rt, &rt, "disk");
    let bytes = must(&rt, vec![in rt.alloc(); 1u8; 2 * BLOCK_SIZE + 100]);
    must(&rt, fs::write(&rt, path.as_path(), bytes.as_slice()));
    let mut disk = opened(&rt, &rt, &path);
    assert!(rt; matches!(disk.blocks(), Ok(2)));
    equal(&rt, disk.write(1, &[2; BLOCK_SIZE]), Ok(()));
    equal(&rt, disk.sync(), Ok(()));
    are_read(&rt, &mut disk);
    holds(&rt, &rt, &path, bytes);
    cut(&rt, &rt, &path);
    does_not_read(&rt, &mut disk);
    must(&rt, fs::remove_file(&rt, path.as_path()));
}

/// The options that a disk is opened with.
fn writable() -> OpenOptions {
    let mut options = OpenOptions::new();
    options.read(true).write(true);
    options
}

/// The disk of a file.
fn opened(rt: &impl Abort, system: &HostRuntime, path: &PathBuf) -> FileDisk<File> {
    let file = must(rt, writable().open(system, path.as_path()));
    must(rt, FileDisk::open(system.alloc(), file))
}

/// Fails where block 1 is not of twos, or block 0 not of ones.
fn are_read(rt: &impl Abort, disk: &mut FileDisk<File>) {
    assert!(rt; matches!(disk.blocks(), Ok(2)));
    let mut block = [0; BLOCK_SIZE];
    equal(rt, disk.read(1, &mut block), Ok(()));
    sure(rt, block == [2; BLOCK_SIZE], "block 1");
    let mut front = [0; 512];
    equal(rt, disk.read_front(1, &mut front), Ok(()));
    sure(rt, front == [2; 512], "the front of block 1");
    equal(rt, disk.read(0, &mut block), Ok(()));
    sure(rt, block == [1; BLOCK_SIZE], "block 0");
    let mut due = [1; 2 * BLOCK_SIZE];
    due[BLOCK_SIZE..].fill(2);
    let mut both = [0; 2 * BLOCK_SIZE];
    equal(rt, disk.read_run(0, &mut both), Ok(()));
    sure(rt, both == due, "both blocks");
}

/// Fails where a file does not hold these bytes, those of block 1 replaced by twos.
fn holds(rt: &impl Abort, system: &HostRuntime, path: &PathBuf, mut bytes: Vec<u8>) {
    for byte in bytes.iter_mut().skip(BLOCK_SIZE).take(BLOCK_SIZE) {
        *byte = 2;
    }
    let now: Vec<u8> = must(rt, fs::read(system, path.as_path()));
    sure(rt, now == bytes, "the bytes of the file");
}

/// Cuts a file behind the first byte of block 1.
fn cut(rt: &impl Abort, system: &HostRuntime, path: &PathBuf) {
    let file = must(rt, writable().open(system, path.as_path()));
    must(rt, file.set_len(BLOCK_SIZE as u64 + 1));
}

/// Fails where block 1 is read, or where a fault is not counted.
fn does_not_read(rt: &impl Abort, disk: &mut FileDisk<File>) {
    let mut block = [0; BLOCK_SIZE];
    equal(rt, disk.faults(), 0);
    assert!(rt; matches!(disk.blocks(), Ok(2)));
    equal(rt, disk.read(1, &mut block), Err(Failed));
    equal(rt, disk.faults(), 1);
}

#[test]
fn no_file_is_no_disk(rt: HostRuntime) {
    let rt = &rt;
    let mut none = FileDisk::<File>::unopened(rt.alloc());
    equal(rt, none.blocks(), Err(Failed));
    equal(rt, none.sync(), Err(Failed));
    equal(rt, none.faults(), 1);
}

#[test]
fn a_file_that_is_only_read_takes_no_block(rt: HostRuntime) {
    let rt = &rt;
    let path = path_of(rt, rt, "read_only");
    let threes = [3; BLOCK_SIZE];
    must(rt, fs::write(rt, path.as_path(), threes.as_slice()));
    let file = must(rt, File::open(rt, path.as_path()));
    let mut disk = must(rt, FileDisk::open(rt.alloc(), file));
    assert!(rt; matches!(disk.blocks(), Ok(1)));
    equal(rt, disk.write(0, &[4; BLOCK_SIZE]), Err(Failed));
    equal(rt, disk.faults(), 0);
    has_bytes(rt, rt, &path, &threes);
    must(rt, fs::remove_file(rt, path.as_path()));
}

/// Fails where a file does not hold these bytes.
fn has_bytes(rt: &impl Abort, system: &HostRuntime, path: &PathBuf, bytes: &[u8]) {
    let now: Vec<u8> = must(rt, fs::read(system, path.as_path()));
    sure(rt, now.as_slice() == bytes, "the bytes of the file");
}

/// A writer that takes three bytes at a time and fails once it has taken so many.
#[derive(Drop)]
struct Narrow {
    left: usize,
    fault: Option<ErrorKind>,
}

impl Write for Narrow {
    fn write(&mut self, buf: &[u8]) -> io::Result<usize> {
        let count = buf.len().min(3).min(self.left);
        self.left -= count;
        match self.fault {
            Some(kind) if count == 0 => Err(io::Error::from(kind)),
            _ => Ok(count),
        }
    }

    fn flush(&mut self) -> io::Result<()> {
        Ok(())
    }
}

#[test]
fn streams_reach_the_system(rt: HostRuntime) {
    let rt = &rt;
    let path = path_of(rt, rt, "streams");
    let mut sink = StreamSink::new(must(rt, fs::create(rt, path.as_path())));
    equal(rt, sink.put(b"four words "), Ok(()));
    equal(rt, sink.put(b"of text"), Ok(()));
    has_bytes(rt, rt, &path, b"four words of text");
    gives_words(rt, rt, &path);
    must(rt, fs::remove_file(rt, path.as_path()));
    for (left, fault, put) in [
        (7, None, Ok(())),
        (6, None, Err(Failed)),
        (6, Some(ErrorKind::StorageFull), Err(Failed)),
    ] {
        let mut sink = StreamSink::new(Narrow { left, fault });
        equal(rt, sink.put(b"letters"), put);
    }
}

/// Fails where a source over the file does not give the words in parts.
fn gives_words(rt: &impl Abort, system: &HostRuntime, path: &PathBuf) {
    let mut source = StreamSource::new(must(rt, File::open(system, path.as_path())));
    let mut part = [0; 16];
    for (taken, held) in [
        (16, b"four words of te"),
        (2, b"xtur words of te"),
        (0, b"xtur words of te"),
    ] {
        equal(rt, source.take(&mut part), Ok(taken));
        sure(rt, part == *held, "the bytes of the part");
    }
}

#[test]
fn a_library_reads_the_files_of_the_system(rt: HostRuntime) {
    let rt = &rt;
    let path = path_of(rt, rt, "library");
    must(rt, fs::write(rt, path.as_path(), b"mode 0644".as_slice()));
    let bytes = must(rt, file_of(rt, rt, path.as_str().as_bytes()));
    sure(rt, bytes.as_slice() == b"mode 0644".as_slice(), "its bytes");
    must(rt, fs::remove_file(rt, path.as_path()));
    let missing = file_of(rt, rt, path.as_str().as_bytes());
    sure(
        rt,
        matches!(missing, Err(LibraryFault::Missing)),
        "a file that is removed",
    );
    let strange = file_of(rt, rt, b"\xff");
    sure(
        rt,
        matches!(strange, Err(LibraryFault::Failed)),
        "a name that is no text",
    );
    let folder = must(rt, env::temp_dir(rt));
    let folder = file_of(rt, rt, folder.as_str().as_bytes());
    sure(rt, matches!(folder, Err(LibraryFault::Failed)), "a folder");
}

/// What the library of the system answers to a name.
fn file_of(rt: &impl Abort, system: &HostRuntime, name: &[u8]) -> Result<Vec<u8>, LibraryFault> {
    let name = word(rt, system, name);
    let mut library = FileLibrary::new(system);
    library.file(system.alloc(), &name)
}
