//! The disk of a case, and the disk that says what it must hold in the end.

ghost use Rattle.std.specs.Prelude.{◌<◌};

use crate::disk::CaseDisk;
use crate::numbers::{cut, number, numbers, read_byte, read_bytes};
use crate::refusal::Refusal;
use crate::vast::put_chunks;
use std::alloc::Global;
use std::mem;
use xfs_disk::BLOCK_SIZE;
use xfs_word::{put_checksum, put_part, put16, put32, put64};

/// The identifier of the volumes.
pub const IDENTIFIER: [u8; 16] = [
    0x00, 0x11, 0x22, 0x33, 0x44, 0x55, 0x66, 0x77, 0x88, 0x99, 0xaa, 0xbb, 0xcc, 0xdd, 0xee, 0xff,
];

/// Both disks.
#[derive(Drop)]
pub struct Disks {
    alloc: Global,
    pub held: CaseDisk,
    pub due: CaseDisk,
    /// Whether lines change what is due alone.
    due_alone: bool,
}

impl Disks {
    /// Disks without blocks.
    pub fn make(alloc: Global) -> Result<Disks, Refusal> {
        Ok(Disks {
            alloc,
            held: CaseDisk::make(alloc, 0, 0)?,
            due: CaseDisk::make(alloc, 0, 0)?,
            due_alone: false,
        })
    }

    /// Whether the disk holds what is due.
    pub fn agree(&self) -> bool {
        self.held.image() == self.due.image()
    }

    /// Takes a line of the disks: its first word, and what is behind.
    pub fn take(&mut self, word: &str, rest: &str) -> Result<(), Refusal> {
        match word {
            "then" => {
                self.due_alone = true;
                Ok(())
            }
            "fail" => self.held.fail(number(rest)?),
            "halt" => {
                self.held.stop_after(number(rest)?);
                Ok(())
            }
            "restart" => {
                let copy = self.held.copy(self.alloc);
                self.hold(copy)
            }
            _ => self.fill(word, rest),
        }
    }

    /// Takes another disk, unless there was no memory for it.
    fn hold(&mut self, disk: Result<CaseDisk, Refusal>) -> Result<(), Refusal> {
        drop(mem::replace(&mut self.held, disk?));
        Ok(())
    }

    /// Takes a line of what the disks hold.
    fn fill(&mut self, word: &str, rest: &str) -> Result<(), Refusal> {
        match word {
            "zeros" => self.zeros(rest),
            "filled" => self.filled(rest),
            "bytes" => self.bytes(rest),
            "copy" => self.copy(rest),
            "slots" => self.slots(rest),
            "pipes" => self.pipes(rest),
            "entries" => self.entries(rest),
            "cycles" => self.cycles(rest),
            "chunks" => put_chunks(self),
            _ => Err(Refusal::Unknown),
        }
    }

    /// `zeros HELD` or `zeros HELD BLOCKS`: makes disks of so many blocks, all zeros, of which the first are in memory.
    fn zeros(&mut self, text: &str) -> Result<(), Refusal> {
        let (held, blocks) = cut(text);
        let held = number(held)?;
        let blocks = if blocks.is_empty() {
            held
        } else {
            number(blocks)?
        };
        let due = CaseDisk::make(self.alloc, held, blocks)?;
        self.replace(due)
    }

    /// Makes both disks, or what is due alone, as this one.
    fn replace(&mut self, due: CaseDisk) -> Result<(), Refusal> {
        drop(mem::replace(&mut self.due, due));
        if self.due_alone {
            Ok(())
        } else {
            let copy = self.due.copy(self.alloc);
            self.hold(copy)
        }
    }

    /// `filled BLOCKS DIGITS`: makes disks of so many blocks, all in memory, each byte of which is this one.
    fn filled(&mut self, text: &str) -> Result<(), Refusal> {
        let (blocks, digits) = cut(text);
        let (blocks, byte) = (number(blocks)?, read_byte(digits)?);
        let due = CaseDisk::filled(self.alloc, blocks, byte)?;
        self.replace(due)
    }

    /// `bytes BLOCK OFFSET DIGITS`: writes bytes over those that a block holds.
    fn bytes(&mut self, text: &str) -> Result<(), Refusal> {
        let part = read_part(self.alloc, text)?;
        self.put(part.place, part.from, part.bytes.as_slice())
    }

    /// `BLOCK OFFSET DIGITS`: whether a block holds these bytes from an offset on.
    pub fn holds(&self, text: &str) -> Result<bool, Refusal> {
        let part = read_part(self.alloc, text)?;
        self.held
            .holds(part.place, part.from, part.bytes.as_slice())
    }

    /// `copy TO FROM`: writes over a block what another holds.
    fn copy(&mut self, text: &str) -> Result<(), Refusal> {
        let [to, from] = numbers::<2>(text)?;
        if !self.due_alone {
            self.held.copy_block(to, from)?;
        }
        self.due.copy_block(to, from)
    }

    /// `slots FROM TO`: writes free slots of inodes into the blocks from one on, as far as another.
    fn slots(&mut self, text: &str) -> Result<(), Refusal> {
        let [from, to] = numbers::<2>(text)?;
        for place in from..to {
            for slot in 0..8u64 {
                self.put(
                    place,
                    512 * slot as usize,
                    &free_slot(place.wrapping_mul(8) | slot),
                )?;
            }
        }
        Ok(())
    }

    /// `pipes FROM TO`: writes the slots of pipes of one link, of the inodes from one on, as far as another.
    fn pipes(&mut self, text: &str) -> Result<(), Refusal> {
        let [from, to] = numbers::<2>(text)?;
        for ino in from..to {
            self.put(ino / 8, 512 * (ino % 8) as usize, &pipe_slot(ino))?;
        }
        Ok(())
    }

    /// `entries BLOCK OFFSET NAME INODE COUNT`: writes so many entries of a directory from an offset of a block on, whose names are `n` and
    /// five digits, those of NAME first, and which name pipes, the inode first.
    fn entries(&mut self, text: &str) -> Result<(), Refusal> {
        let [place, from, name, ino, count] = numbers::<5>(text)?;
        for i in 0..count {
            let tag = from.wrapping_add(i.wrapping_mul(ENTRY_SIZE as u64));
            let entry = pipe_entry(
                name.wrapping_add(i),
                ino.wrapping_add(i),
                (tag % 4096) as u16,
            );
            self.put(place, tag as usize, &entry)?;
        }
        Ok(())
    }

    /// `cycles FROM TO DIGITS`: writes a cycle into the sectors of the blocks from one on, as far as another.
    fn cycles(&mut self, text: &str) -> Result<(), Refusal> {
        let (from, rest) = cut(text);
        let (to, digits) = cut(rest);
        let (from, to) = (number(from)?, number(to)?);
        let cycle = read_bytes(self.alloc, digits)?;
        for place in from..to {
            for sector in 0..8usize {
                self.put(place, 512 * sector, cycle.as_slice())?;
            }
        }
        Ok(())
    }

    /// Writes bytes over those that a block holds.
    pub fn put(&mut self, place: u64, from: usize, bytes: &[u8]) -> Result<(), Refusal> {
        if !self.due_alone {
            self.held.put(place, from, bytes)?;
        }
        self.due.put(place, from, bytes)
    }
}

/// Bytes of a block, from an offset on.
#[derive(Drop)]
struct Part {
    place: u64,
    from: usize,
    bytes: Vec<u8>,
}

/// The part that `BLOCK OFFSET DIGITS` states.
fn read_part(alloc: Global, text: &str) -> Result<Part, Refusal> {
    let (place, rest) = cut(text);
    let (from, digits) = cut(rest);
    let (place, from) = (number(place)?, number(from)? as usize);
    let bytes = read_bytes(alloc, digits)?;
    Ok(Part { place, from, bytes })
}

/// The bytes of an entry with a name of six bytes.
const ENTRY_SIZE: usize = 24;

/// An entry of a directory that stands at this offset, and whose name is `n` and five digits, as it names a pipe.
fn pipe_entry(name: u64, ino: u64, tag: u16) -> [u8; ENTRY_SIZE] {
    let mut entry = [0; ENTRY_SIZE];
    put64(&mut entry, 0, ino);
    put_part(&mut entry, 8, b"\x06n");
    let mut rest = name;
    for place in 0..5usize {
        entry[14 - place] = b'0' + (rest % 10) as u8;
        rest /= 10;
    }
    entry[15] = 5;
    put16(&mut entry, 22, tag);
    entry
}

/// The slot of a pipe of one link.
fn pipe_slot(ino: u64) -> [u8; 512] {
    let mut slot = free_slot(ino);
    put16(&mut slot, 2, 0x11a4);
    put32(&mut slot, 16, 1);
    slot[83] = 2;
    put_checksum(&mut slot, 100);
    slot
}

/// The slot of a free inode.
fn free_slot(ino: u64) -> [u8; 512] {
    let mut slot = [0; 512];
    put_part(&mut slot, 0, b"IN\0\0\x03");
    put32(&mut slot, 96, u32::MAX);
    put64(&mut slot, 152, ino);
    put_part(&mut slot, 160, &IDENTIFIER);
    put_checksum(&mut slot, 100);
    slot
}
