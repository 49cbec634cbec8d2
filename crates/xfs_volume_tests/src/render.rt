//! The blocks of small volumes with objects, placed and rendered.

mod objects;
mod slots;
mod wanted;

use crate::checks::{compare_at, equal, must, sure};
use crate::small_volume::put;
use crate::text::{Row, line_at, line_count, put_parts, refuse};
use std::alloc::Global;
use std::marker::Sync;
use std::process::Abort;
use std::thread::Threads;
use wanted::plan_of;
use xfs_disk::{BLOCK_SIZE, Disk};
use xfs_memory::MemoryDisk;
use xfs_render::Plan;
use xfs_word::{put_part, put32, put64};

/// The blocks of a volume of two groups with two regular files of one block of zeros in its root, as they are by the format alone: of each the
/// offsets and the bytes from there on. The slots of free inodes are not among them.
const FILES: &str = "\
0 | 0 584653420000100000000000000008, 33 112233445566778899aabbccddeeff00000000000004060000000000000080000000000000008100000000000000820000000100000400000000020000000000000200b4a50200020000080000000000000000000000000c0909030a0000190000000000000040000000000000003b00000000000005ea, 183 08000000000000000000000000000000010000018a0000018a000000000000000300000003000000006118d8ad00000004, 512 58414746000000010000000000000400000000010000000200000005000000010000000100000001000000000000000500000006000003ea000003e60000000000112233445566778899aabbccddeeff00000001, 728 96a50cbe, 1024 584147490000000100000000000004000000004000000003000000010000003b00000080, 1060 ff*260, 1320 00112233445566778899aabbccddeeff6feaddc20000000000000000000000000000000400000001, 1536 5841464c0000000000112233445566778899aabbccddeeff000000000000000018d7f4ec000000060000000700000008000000090000000a0000000b, 1596 ff*452
1 | 0 4142334200000002ffffffffffffffff0000000000000008000000000000000000112233445566778899aabbccddeeff000000009457247f0000000c000000040000001a000003e6
2 | 0 4142334300000002ffffffffffffffff0000000000000010000000000000000000112233445566778899aabbccddeeff000000007c10918a0000000c000000040000001a000003e6
3 | 0 4941423300000001ffffffffffffffff0000000000000018000000000000000000112233445566778899aabbccddeeff00000000ff5b62d8000000800000403bffffffffffffffe0
4 | 0 4649423300000001ffffffffffffffff0000000000000020000000000000000000112233445566778899aabbccddeeff00000000c505efb3000000800000403bffffffffffffffe0
5 | 0 524d423300000007ffffffffffffffff0000000000000028000000000000000000112233445566778899aabbccddeeff00000000dd95fef70000000000000001fffffffffffffffd00000000000000000000000100000002fffffffffffffffb00000000000000000000000300000002fffffffffffffffa00000000000000000000000500000007fffffffffffffffb00000000000000000000001000000008fffffffffffffff9000000000000000000000018000000010000000000000083000000000000000000000019000000010000000000000084
16 | 0 494e41ed03010000000000000000000000000002, 63 18, 83 02000000000000000000000000ffffffffd67e5da2, 159 8000112233445566778899aabbccddeeff020000000080010060610100000083010070620100000084, 512 494e800003020000000000000000000000000001, 595 02000000000000000400000000ffffffff4c25abfe, 671 8100112233445566778899aabbccddeeff, 1024 494e800003020000000000000000000000000001, 1107 02000000000000000000000000ffffffff840eadd6, 1183 8200112233445566778899aabbccddeeff, 1536 494e81a403020000000000000000000000000001, 1598 10000000000000000001000000000000000100000002000000000000000000000000ffffffffbe8b17cc, 1695 8300112233445566778899aabbccddeeff00000000000000000000000003000001, 2048 494e81a403020000000000000000000000000001, 2110 10000000000000000001000000000000000100000002000000000000000000000000ffffffff9092942e, 2207 8400112233445566778899aabbccddeeff00000000000000000000000003200001
1024 | 0 584653420000100000000000000008, 33 112233445566778899aabbccddeeff00000000000004060000000000000080000000000000008100000000000000820000000100000400000000020000000000000200b4a50200020000080000000000000000000000000c0909030a0000190000000000000040000000000000003b00000000000005ea, 183 08000000000000000000000000000000010000018a0000018a000000000000000300000003000000006118d8ad00000004, 512 58414746000000010000000100000400000000010000000200000005000000010000000100000001000000000000000500000006000001f4000001f40000000000112233445566778899aabbccddeeff00000001, 728 0151aef6, 1024 5841474900000001000000010000040000000000000000030000000100000000, 1056 ff*264, 1320 00112233445566778899aabbccddeeff1025567d0000000000000000000000000000000400000001, 1536 5841464c0000000100112233445566778899aabbccddeeff000000000000000093faa038000002060000020700000208000002090000020a0000020b, 1596 ff*452
1025 | 0 4142334200000001ffffffffffffffff0000000000002008000000000000000000112233445566778899aabbccddeeff00000001aa2cf2c70000020c000001f4
1026 | 0 4142334300000001ffffffffffffffff0000000000002010000000000000000000112233445566778899aabbccddeeff00000001426b47320000020c000001f4
1027 | 0 4941423300000000ffffffffffffffff0000000000002018000000000000000000112233445566778899aabbccddeeff00000001b72fd239
1028 | 0 4649423300000000ffffffffffffffff0000000000002020000000000000000000112233445566778899aabbccddeeff000000018d715f52
1029 | 0 524d423300000006ffffffffffffffff0000000000002028000000000000000000112233445566778899aabbccddeeff00000001066a8e270000000000000001fffffffffffffffd00000000000000000000000100000002fffffffffffffffb00000000000000000000000300000002fffffffffffffffa00000000000000000000000500000001fffffffffffffffb00000000000000000000000600000200fffffffffffffffc00000000000000000000020600000006fffffffffffffffb
1030 | 0 feedbabe0000000100000002000002000000000100000000000000010000000000000000ffffffff00000001b0c0d0d0, 303 0100112233445566778899aabbccddeeff000080, 515 0100000008aa2000006e55
";

/// The slot of a free inode, apart from its number and checksum.
const FREE: &str = "0 494e, 4 03, 96 ffffffff, 160 00112233445566778899aabbccddeeff";

/// The checksums of the slots of free inodes, from 133 to 191.
const CHECKSUMS: &str = "\
0x0148a5b3 0x5a58a9da 0x9357adfd 0x55707d35 0x9c7f7912 0xc76f757b 0x0e60715c 0x714f6da9 0xb840698e 0xe35065e7
0x2a5f61c0 0x9e692973 0x57662d54 0x0c76213d 0xc579251a 0xba5639ef 0x73593dc8 0x284931a1 0xe1463586 0x2761e54e
0xee6ee169 0xb57eed00 0x7c71e927 0x035ef5d2 0xca51f1f5 0x9141fd9c 0x584ef9bb 0x085a81ff 0xc15585d8 0x9a4589b1
0x534a8d96 0x2c659163 0xe56a9544 0xbe7a992d 0x77759d0a 0xb1524dc2 0x785d49e5 0x234d458c 0xea4241ab 0x956d5d5e
0x5c625979 0x07725510 0xce7d5137 0x7a4b1984 0xb3441da3 0xe85411ca 0x215b15ed 0x5e740918 0x977b0d3f 0xcc6b0156
0x05640571 0xc343d5b9 0x0a4cd19e 0x515cddf7 0x9853d9d0 0xe77cc525 0x2e73c102 0x7563cd6b 0xbc6cc94c
";

/// The disk of the volume with two files.
fn due_disk(rt: &(impl Abort + AllocGlobal), alloc: Global) -> MemoryDisk {
    let mut disk = must(rt, MemoryDisk::make(alloc, 2048));
    for i in 0..line_count(FILES) {
        let line = line_at(FILES, i);
        let mut row = Row::new(line);
        let place = row.number(rt);
        let mut block = [0; BLOCK_SIZE];
        put_parts(rt, &mut block, row.rest());
        if place == 16 {
            put_chunk(rt, &mut disk, &chunk_of(rt, alloc, block));
        } else {
            put(rt, &mut disk, place, &block);
        }
    }
    disk
}

/// The blocks of the root's chunk, from the slots in use of its first block.
fn chunk_of(
    rt: &(impl Abort + AllocGlobal),
    alloc: Global,
    first: [u8; BLOCK_SIZE],
) -> [[u8; BLOCK_SIZE]; 8] {
    let mut clusters = [[0; BLOCK_SIZE]; 8];
    clusters[0] = first;
    let mut k = 5;
    for i in 0..line_count(CHECKSUMS) {
        let line = line_at(CHECKSUMS, i);
        for checksum in Row::new(line).numbers::<u32>(rt, alloc) {
            sure(rt, k < 64, "there are 59 checksums");
            put_part(
                &mut clusters[k / 8],
                512 * (k % 8),
                &free_slot(rt, 128 + k as u64, checksum),
            );
            k += 1;
        }
    }
    clusters
}

/// Writes the blocks of the root's chunk.
fn put_chunk(rt: &impl Abort, disk: &mut MemoryDisk, clusters: &[[u8; BLOCK_SIZE]; 8]) {
    for (k, block) in clusters.iter().enumerate() {
        put(rt, disk, 16 + k as u64, block);
    }
}

/// The slot of a free inode.
fn free_slot(rt: &(impl Abort + AllocGlobal), ino: u64, checksum: u32) -> [u8; 512] {
    let mut slot = [0; 512];
    put_parts(rt, &mut slot, FREE);
    put64(&mut slot, 152, ino);
    put32(&mut slot, 100, checksum);
    slot
}

/// A disk of so many blocks that holds those of a plan, and else zeros.
fn planned_disk(rt: &(impl Abort + AllocGlobal), alloc: Global, plan: &Plan) -> MemoryDisk {
    let mut disk = must(rt, MemoryDisk::make(alloc, 2048));
    for rows in [plan.fresh.as_slice(), plan.in_place.as_slice()] {
        for row in rows {
            sure(rt, row.index < plan.bank.len(), "a row has bytes");
            let mut block = [0; BLOCK_SIZE];
            block.copy_from_slice(plan.bank.view(row.index));
            put(rt, &mut disk, row.at, &block);
        }
    }
    disk
}

/// A block of a disk.
fn block_of(rt: &impl Abort, disk: &mut MemoryDisk, place: u64) -> [u8; BLOCK_SIZE] {
    let mut block = [0; BLOCK_SIZE];
    assert!(rt; matches!(disk.blocks(), Ok(count) if place < count));
    must(rt, disk.read(place, &mut block));
    block
}

#[test]
fn volume_with_two_files(rt: HostRuntime) {
    let rt = &rt;
    let alloc = rt.alloc();
    let mut due = due_disk(rt, alloc);
    let plan = plan_two(rt, alloc, &block_of(rt, &mut due, 0));
    // both groups have a first block and five trees, the chunk has eight blocks, each file one, and the log 512, which have two blocks of bytes
    equal(
        rt,
        (
            plan.fresh.as_slice().len(),
            plan.in_place.as_slice().len(),
            plan.bank.len(),
        ),
        (20, 514, 24),
    );
    let mut held = planned_disk(rt, alloc, &plan);
    for place in 0..2048 {
        are_same(rt, &mut held, &mut due, place);
    }
    drop(plan);
}

/// The plan of the volume with two files, whose first block is this.
#[tactic(auto, using(crate::proofs::Asked::counted))]
fn plan_two<R: Threads + Sync + Abort>(rt: &R, alloc: Global, head: &[u8; BLOCK_SIZE]) -> Plan {
    let Ok(objects) = objects::two_files(alloc) else {
        refuse(rt, "memory is wanting", "two files");
    };
    let Ok(built) = objects::blocks_of_two(alloc) else {
        refuse(rt, "memory is wanting", "two blocks");
    };
    plan_of(rt, alloc, head, objects, built)
}

/// Fails where two disks differ in a block.
fn are_same(rt: &impl Abort, held: &mut MemoryDisk, due: &mut MemoryDisk, place: u64) {
    compare_at(
        rt,
        &block_of(rt, held, place),
        &block_of(rt, due, place),
        &place,
    );
}
