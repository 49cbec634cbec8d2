//! A bank filled from a disk of three blocks, and worked on in parts.

ghost use Rattle.std.specs.Prelude.{◌≡◌, ◌<◌, length};
ghost use Rattle.xfs_collections.specs.Bank.{AreCuts};

use crate::checks::{equal, equal_at, must, sure};
use crate::text::{Row, part_at, part_count, refuse};
use std::alloc::Global;
use std::process::Abort;
use std::thread::Threads;
use xfs_collections::*;
use xfs_disk::{Disk, Failed};
use xfs_memory::MemoryDisk;

/// A disk whose block b has the byte 10 + b everywhere.
fn three_blocks(rt: &impl Abort, alloc: Global) -> MemoryDisk
    ensures { ⟦<MemoryDisk as Disk>⟧.size result ≡ 3 }
{
    let mut disk = must(rt, MemoryDisk::make(alloc, 3));
    for (place, byte) in [(0, 10), (1, 11), (2, 12)] {
        put(rt, &mut disk, place, &[byte; 4096]);
    }
    assert!(rt; matches!(disk.blocks(), Ok(3)));
    disk
}

/// A bank of three blocks of zeros.
fn three_zeros(rt: &impl Abort, alloc: Global) -> BlockBank
    ensures { length result ≡ 3 }
{
    match BlockBank::make(alloc, 3) {
        Ok(bank) => bank,
        Err(_) => refuse(rt, "memory is wanting", "a bank"),
    }
}

/// Writes a block.
fn put(rt: &impl Abort, disk: &mut MemoryDisk, place: u64, block: &[u8; 4096]) {
    assert!(rt; matches!(disk.blocks(), Ok(count) if place < count));
    must(rt, disk.write(place, block));
}

/// Asserts that of each of the bank's blocks the first byte and all others are these.
fn assert_blocks(rt: &impl Abort, bank: &BlockBank, due: &str) {
    for i in 0..part_count(due) {
        sure(rt, i < bank.len(), due);
        assert_block(rt, bank.view(i), part_at(due, i), due);
    }
}

/// Asserts that of a block the first byte and all others are those of a row.
pub fn assert_block(rt: &impl Abort, held: &[u8], mut row: Row, due: &str) {
    let first = row.number(rt);
    let mut block = [row.number(rt); 4096];
    block[0] = first;
    equal_at(rt, held, block.as_slice(), due);
}

/// Puts each part's number plus 1 into all of its bytes.
fn number_parts<R: Threads + Sync>(rt: &R, bank: &mut BlockBank, cuts: &[usize])
    requires { AreCuts 0 (length bank.old) cuts.now }
    ensures { length bank.new ≡ length bank.old }
{
    bank.each_part(
        rt,
        cuts,
        &|number: usize, part: &mut [u8]| {
            part.fill(number.to_le_bytes()[0].wrapping_add(1));
        },
    );
}

#[test]
fn filled_and_marked(rt: HostRuntime) {
    let rt = &rt;
    let alloc = rt.alloc();
    let mut disk = three_blocks(rt, alloc);
    let mut bank = three_zeros(rt, alloc);
    equal(rt, bank.len(), 3);
    assert_blocks(rt, &bank, "0 0, 0 0, 0 0");
    equal(rt, bank.fill(&mut disk, &[2, 0, 1]), Ok(()));
    assert_blocks(rt, &bank, "12 12, 10 10, 11 11");
    bank.each_part(
        rt,
        &[1],
        &|number: usize, part: &mut [u8]| {
            if let Some(first) = part.first_mut() {
                *first = number.to_le_bytes()[0].wrapping_add(1);
            }
        },
    );
    assert_blocks(rt, &bank, "1 12, 2 10, 11 11");
    bank.view_mut(2)[0] = 7;
    assert_blocks(rt, &bank, "1 12, 2 10, 7 11");
}

#[test]
fn cut_into_parts(rt: HostRuntime) {
    let rt = &rt;
    let mut bank = three_zeros(rt, rt.alloc());
    number_parts(rt, &mut bank, &[1]);
    assert_blocks(rt, &bank, "1 1, 2 2, 2 2");
    number_parts(rt, &mut bank, &[]);
    assert_blocks(rt, &bank, "1 1, 1 1, 1 1");
    number_parts(rt, &mut bank, &[1, 1]);
    assert_blocks(rt, &bank, "1 1, 3 3, 3 3");
    number_parts(rt, &mut bank, &[0, 2, 3]);
    assert_blocks(rt, &bank, "2 2, 2 2, 3 3");
}

#[test]
fn filled_up_to_a_failed_read(rt: HostRuntime) {
    let rt = &rt;
    let alloc = rt.alloc();
    let mut disk = three_blocks(rt, alloc);
    must(rt, disk.fail(2));
    let mut bank = three_zeros(rt, alloc);
    equal(rt, bank.fill(&mut disk, &[2, 0, 1]), Err(Failed));
    equal(rt, disk.faults(), 1);
    assert_blocks(rt, &bank, "0 0, 10 10, 0 0");
}
