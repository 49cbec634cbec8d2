//! A disk that notes which blocks are read, in order.

ghost use Rattle.std.specs.Prelude.{None};
ghost use Rattle.std.proofs.Common.{rules};

use crate::memory_disk::MemoryDisk;
use std::alloc::Global;
use xfs_disk::{Disk, Failed};

/// A disk in memory that notes its reads.
#[derive(Drop)]
pub struct NotedDisk {
    disk: MemoryDisk,
    /// The number of the block of each read, in order.
    reads: Vec<u64>,
}

impl NotedDisk {
    /// A disk in memory of which nothing is read yet.
    pub fn new(alloc: Global, disk: MemoryDisk) -> NotedDisk {
        NotedDisk {
            disk,
            reads: Vec::new(alloc),
        }
    }

    /// The number of the block of each read, in order.
    pub fn reads(&self) -> &[u64] {
        self.reads.as_slice()
    }

    /// Which of all reads is the first of a block.
    pub fn first_read(&self, block: u64) -> Option<usize> {
        self.reads.iter().position(|read| *read == block)
    }
}

impl Disk for NotedDisk {
    ghost use Rattle.xfs_memory.specs.MemoryDisk.{size_of, faults_of, write_faults_of, reads_of, writes_of};

    ghost size = { λ noted. size_of noted.disk };

    ghost holds = { λ _. None };

    ghost faults = { λ noted. faults_of noted.disk };

    ghost write_faults = { λ noted. write_faults_of noted.disk };

    ghost reads = { λ noted. reads_of noted.disk };

    ghost writes = { λ noted. writes_of noted.disk };

    fn faults(&self) -> u64 {
        self.disk.faults()
    }

    fn blocks(&mut self) -> Result<u64, Failed> {
        self.disk.blocks()
    }

    fn read(&mut self, at: u64, into: &mut [u8]) -> Result<(), Failed> {
        note(&mut self.reads, at);
        self.disk.read(at, into)
    }

    fn write(&mut self, at: u64, from: &[u8]) -> Result<(), Failed> {
        self.disk.write(at, from)
    }

    fn sync(&mut self) -> Result<(), Failed> {
        self.disk.sync()
    }

    ghost shape = { λ disk image told. Prim.search rules };

    ghost counts_now = { λ disk t image tells. absurd tells };

    ghost only_now = { λ disk image tells. absurd tells };
}

/// Notes a read. One that finds no memory is not noted, and a test that looks for it fails.
fn note(reads: &mut Vec<u64>, block: u64) {
    match reads.push(block) {
        Ok(()) => {}
        Err(_) => {}
    }
}
