//! A disk in memory of which no contract tells what it holds.

ghost use Rattle.std.specs.Prelude.{None};
ghost use Rattle.std.proofs.Common.{rules};

use crate::checks::must;
use std::alloc::Global;
use std::process::Abort;
use xfs_disk::{Disk, Failed};
use xfs_memory::MemoryDisk;

/// A disk of 2048 blocks.
#[derive(Drop)]
pub struct Untold {
    pub disk: MemoryDisk,
}

impl Untold {
    /// A disk of zeros.
    pub fn make(rt: &impl Abort, alloc: Global) -> Untold {
        Untold {
            disk: must(rt, MemoryDisk::make(alloc, 2048)),
        }
    }
}

impl Disk for Untold {
    ghost use Rattle.xfs_memory.specs.MemoryDisk.{size_of, faults_of, write_faults_of, reads_of, writes_of};

    ghost size = { λ untold. size_of untold.disk };

    ghost holds = { λ _. None };

    ghost faults = { λ untold. faults_of untold.disk };

    ghost write_faults = { λ untold. write_faults_of untold.disk };

    ghost reads = { λ untold. reads_of untold.disk };

    ghost writes = { λ untold. writes_of untold.disk };

    fn faults(&self) -> u64 {
        self.disk.faults()
    }

    fn blocks(&mut self) -> Result<u64, Failed> {
        self.disk.blocks()
    }

    fn read(&mut self, at: u64, into: &mut [u8]) -> Result<(), Failed> {
        self.disk.read(at, into)
    }

    fn write(&mut self, at: u64, from: &[u8]) -> Result<(), Failed> {
        self.disk.write(at, from)
    }

    fn sync(&mut self) -> Result<(), Failed> {
        self.disk.sync()
    }

    ghost shape = { λ disk image told. Prim.search rules };

    ghost counts_now = { λ disk t image tells. absurd tells };

    ghost only_now = { λ disk image tells. absurd tells };
}
