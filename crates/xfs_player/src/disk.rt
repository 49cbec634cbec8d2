//! A disk whose first blocks are in memory, and of which no contract tells what it holds.

ghost use Rattle.std.specs.Prelude.{◌+◌, ◌<◌, ◌≡◌, ◌≤◌, None, length};
ghost use Rattle.std.proofs.Common.{rules};

use crate::refusal::Refusal;
use std::alloc::Global;
use xfs_disk::{BLOCK_SIZE, Disk, Failed};
use xfs_memory::MemoryDisk;
use xfs_word::put_part;

/// A disk of `blocks` blocks. Those behind the ones in memory are zeros, and stay so.
#[derive(Drop)]
pub struct CaseDisk {
    memory: MemoryDisk,
    blocks: u64,
    reads: u64,
    writes: u64,
    /// The number of the block of each read of the last call, in order.
    noted: Vec<u64>,
}

impl CaseDisk {
    ghost use Rattle.xfs_memory.specs.MemoryDisk.{size_of};

    /// A disk of zeros.
    pub fn make(alloc: Global, held: u64, blocks: u64) -> Result<CaseDisk, Refusal> {
        Ok(CaseDisk {
            memory: MemoryDisk::make(alloc, held)?,
            blocks,
            reads: 0,
            writes: 0,
            noted: Vec::new(alloc),
        })
    }

    /// A disk whose blocks are all in memory, and each byte of them this one.
    pub fn filled(alloc: Global, blocks: u64, byte: u8) -> Result<CaseDisk, Refusal> {
        let mut disk = CaseDisk::make(alloc, blocks, blocks)?;
        for place in 0..blocks {
            disk.put(place, 0, &[byte; BLOCK_SIZE])?;
        }
        Ok(disk)
    }

    /// Makes the read, write or sync of this number fail, counted from 1 from now on.
    pub fn fail(&mut self, call: u64) -> Result<(), Refusal> {
        self.memory.fail(call)?;
        Ok(())
    }

    /// A disk that holds the same. No call of it is to fail, and it has counted nothing.
    pub fn copy(&self, alloc: Global) -> Result<CaseDisk, Refusal> {
        let mut copy = CaseDisk::make(alloc, self.held(), self.blocks)?;
        let zeros = [0; BLOCK_SIZE];
        for place in 0..self.held() {
            let block = block_of(self.image(), place as usize);
            if block != zeros.as_slice() {
                copy.put(place, 0, block)?;
            }
        }
        Ok(copy)
    }

    /// Makes every later call fail once so many blocks were written from now on.
    pub fn stop_after(&mut self, writes: u64) {
        self.memory.stop_after(writes);
    }

    /// How many blocks were written.
    pub fn writes(&self) -> u64 {
        self.writes
    }

    /// Forgets which blocks were read.
    pub fn forget_reads(&mut self) {
        self.noted.clear();
    }

    /// Whether the last call read one block before another one.
    pub fn reads_before(&self, block: u64, other: u64) -> bool {
        match (self.first_read(block), self.first_read(other)) {
            (Some(first), Some(second)) => first < second,
            _ => false,
        }
    }

    /// Which of all reads of the last call is the first of a block.
    fn first_read(&self, block: u64) -> Option<usize> {
        self.noted.iter().position(|read| *read == block)
    }

    /// The bytes in memory.
    pub fn image(&self) -> &[u8] {
        self.memory.image()
    }

    /// Writes bytes over those that a block in memory holds.
    pub fn put(&mut self, place: u64, from: usize, bytes: &[u8]) -> Result<(), Refusal> {
        if place < self.memory.blocks()? && from <= BLOCK_SIZE && bytes.len() <= BLOCK_SIZE - from {
            self.put_inside(place, from, bytes)
        } else {
            Err(Refusal::Outside)
        }
    }

    /// The same, where the bytes lie in a block in memory.
    fn put_inside(&mut self, place: u64, from: usize, bytes: &[u8]) -> Result<(), Refusal>
        requires place { place < size_of self.old.memory }
        requires bytes { from + length bytes.now ≤ 4096 }
    {
        let mut block = [0; BLOCK_SIZE];
        self.memory.read(place, &mut block)?;
        put_part(&mut block, from, bytes);
        self.memory.write(place, &block)?;
        Ok(())
    }

    /// Whether a block in memory holds these bytes from an offset on.
    pub fn holds(&self, place: u64, from: usize, bytes: &[u8]) -> Result<bool, Refusal> {
        let Some(block) = self.image().chunks(BLOCK_SIZE).nth(place as usize) else {
            return Err(Refusal::Outside);
        };
        if from > block.len() || bytes.len() > block.len() - from {
            return Err(Refusal::Outside);
        }
        Ok(&block[from..from + bytes.len()] == bytes)
    }

    /// Writes over a block in memory what another one holds.
    pub fn copy_block(&mut self, to: u64, from: u64) -> Result<(), Refusal> {
        let mut block = [0; BLOCK_SIZE];
        if from >= self.memory.blocks()? {
            return Err(Refusal::Outside);
        }
        self.memory.read(from, &mut block)?;
        self.put(to, 0, &block)
    }

    /// How many blocks are in memory.
    fn held(&self) -> u64
        ensures { result ≡ size_of self.now.memory }
    {
        (self.memory.image().len() / BLOCK_SIZE) as u64
    }
}

impl Disk for CaseDisk {
    ghost use Rattle.xfs_memory.specs.MemoryDisk.{faults_of, write_faults_of};

    ghost size = { λ disk. disk.blocks };

    ghost holds = { λ _. None };

    ghost faults = { λ disk. faults_of disk.memory };

    ghost write_faults = { λ disk. write_faults_of disk.memory };

    ghost reads = { λ disk. disk.reads };

    ghost writes = { λ disk. disk.writes };

    fn faults(&self) -> u64 {
        self.memory.faults()
    }

    fn blocks(&mut self) -> Result<u64, Failed> {
        Ok(self.blocks)
    }

    fn read(&mut self, at: u64, into: &mut [u8]) -> Result<(), Failed> {
        note(&mut self.noted, at);
        if at < self.held() {
            match self.memory.read(at, into) {
                Ok(()) => {}
                Err(Failed) => return Err(Failed),
            }
        } else {
            into.copy_from_slice(&[0; BLOCK_SIZE]);
        }
        self.reads = self.reads.saturating_add(1);
        Ok(())
    }

    fn write(&mut self, at: u64, from: &[u8]) -> Result<(), Failed> {
        if at < self.held() {
            match self.memory.write(at, from) {
                Ok(()) => {}
                Err(Failed) => return Err(Failed),
            }
        }
        self.writes = self.writes.saturating_add(1);
        Ok(())
    }

    fn sync(&mut self) -> Result<(), Failed> {
        self.memory.sync()
    }

    ghost shape = { λ disk image told. Prim.search rules };

    ghost counts_now = { λ disk t image tells. absurd tells };

    ghost only_now = { λ disk image tells. absurd tells };
}

/// The block of this number; nothing where it is not there.
pub fn block_of(image: &[u8], i: usize) -> &[u8] {
    match image.get(i.saturating_mul(BLOCK_SIZE)..) {
        Some(rest) => &rest[..rest.len().min(BLOCK_SIZE)],
        None => &[],
    }
}

/// Notes a read. One that finds no memory is not noted, and a line that asks for it finds it missing.
fn note(reads: &mut Vec<u64>, block: u64) {
    match reads.push(block) {
        Ok(()) => {}
        Err(_) => {}
    }
}
