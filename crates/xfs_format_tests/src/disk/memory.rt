//! The objects in memory.

ghost use Rattle.std.specs.Prelude.{◌≡◌};
ghost use Rattle.xfs_memory.specs.MemoryDisk.{size_of};

use crate::checks::{equal, must, sure};
use crate::text::{Row, line_at, line_count, tells};
use std::alloc::Global;
use std::process::Abort;
use xfs_disk::{BLOCK_SIZE, Disk, Failed, Library, LibraryFault, NoMemory, Sink, Source, Word};
use xfs_memory::{MemoryDisk, MemoryLibrary, MemorySink, MemorySource};

/// The outcomes of write 0, read 0, write 1, sync and read 1.
fn outcomes(disk: &mut MemoryDisk) -> [bool; 5]
    requires { size_of disk.old ≡ 2 }
{
    let mut block = [0; BLOCK_SIZE];
    [
        disk.write(0, &[7; BLOCK_SIZE]).is_ok(),
        disk.read(0, &mut block).is_ok(),
        disk.write(1, &[9; BLOCK_SIZE]).is_ok(),
        disk.sync().is_ok(),
        disk.read(1, &mut block).is_ok(),
    ]
}

/// A failing call and a stop that are asked for, and the outcomes, the failed reads and the first bytes of both blocks that
/// they lead to.
const FAILING: &str = "\
- - | ([true, true, true, true, true], 0, Some(7), Some(9))
2 - | ([true, false, true, true, true], 1, Some(7), Some(9))
1 - | ([false, true, true, true, true], 0, Some(0), Some(9))
0 - | ([true, true, true, true, true], 0, Some(7), Some(9))
5 1 | ([true, false, false, false, false], 2, Some(7), Some(0))
- 0 | ([false, false, false, false, false], 2, Some(0), Some(0))
";

#[test]
fn a_disk_fails_where_it_is_told_to(rt: HostRuntime) {
    let rt = &rt;
    for i in 0..line_count(FAILING) {
        let line = line_at(FAILING, i);
        try_failing(rt, line);
    }
    let large = MemoryDisk::make(rt.alloc(), 1 << 52);
    sure(rt, matches!(large, Err(NoMemory)), "a disk without memory");
}

fn try_failing(rt: &(impl Abort + AllocGlobal), line: &str) {
    let mut row = Row::new(line);
    let mut disk = disk_with(rt, rt.alloc(), row.optional(rt), row.optional(rt));
    let done = outcomes(&mut disk);
    let image = disk.image();
    let left = (image.first().copied(), image.get(BLOCK_SIZE).copied());
    let held = (done, disk.faults(), left.0, left.1);
    tells(rt, &held, row.text(), line);
}

/// A disk of two blocks, with the call that fails and the writes until it stops.
fn disk_with(rt: &impl Abort, alloc: Global, call: Option<u64>, writes: Option<u64>) -> MemoryDisk
    ensures { size_of result ≡ 2 }
{
    let mut disk = must(rt, MemoryDisk::make(alloc, 2));
    assert!(rt; matches!(disk.blocks(), Ok(2)));
    if let Some(call) = call {
        must(rt, disk.fail(call));
    }
    if let Some(writes) = writes {
        disk.stop_after(writes);
    }
    disk
}

#[test]
fn streams_keep_their_bytes(rt: HostRuntime) {
    let rt = &rt;
    let alloc = rt.alloc();
    let mut source = must(rt, MemorySource::make(alloc, b"hello"));
    must(rt, source.fail(2));
    let mut sink = must(rt, MemorySink::make(alloc, 7));
    must(rt, sink.fail(3));
    let mut part = [b'.'; 3];
    let steps: [(Result<usize, Failed>, Result<(), Failed>, &[u8]); 4] = [
        (Ok(3), Ok(()), b"hel"),
        (Err(Failed), Ok(()), b"helhel"),
        (Ok(2), Err(Failed), b"helhel"),
        (Ok(0), Err(Failed), b"helhell"),
    ];
    for (taken, put, bytes) in steps {
        equal(rt, source.take(&mut part), taken);
        equal(rt, sink.put(&part), put);
        equal(rt, sink.bytes(), bytes);
    }
    let missing = file_of(alloc);
    sure(
        rt,
        matches!(missing, Err(LibraryFault::Missing)),
        "an empty library",
    );
}

/// What a library without files answers.
fn file_of(alloc: Global) -> Result<Vec<u8>, LibraryFault> {
    let name = Word::from_vec(Vec::new(alloc));
    let mut library = MemoryLibrary::make();
    library.file(alloc, &name)
}
