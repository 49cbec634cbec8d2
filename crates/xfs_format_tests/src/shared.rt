//! Lists of blocks that share their bytes.

ghost use Rattle.std.specs.Prelude.{◌≡◌, length};

use crate::bank::assert_block;
use crate::checks::{equal, must, sure};
use crate::text::{part_at, part_count};
use std::alloc::Global;
use std::process::Abort;
use xfs_collections::{BlockBank, BlockList, SharedBytes};

/// Asserts that of each of the list's blocks the first byte and all others are these.
fn assert_blocks(rt: &impl Abort, list: &BlockList, due: &str) {
    for i in 0..part_count(due) {
        sure(rt, i < list.len(), due);
        assert_block(rt, list.view(i), part_at(due, i), due);
    }
}

/// Two blocks and a part of one that stand in the same bytes, and a block with bytes of its own.
fn three_blocks(rt: &impl Abort, alloc: Global) -> BlockList
    ensures { length result ≡ 3 }
{
    let mut bytes = must(rt, vec![in alloc; 3; 8197]);
    sure(rt, bytes.len() == 8197, "bytes");
    bytes[4096] = 4;
    let bytes = must(rt, SharedBytes::make(alloc, bytes));
    let mut list = BlockList::make(alloc);
    must(rt, list.push_blocks(&bytes));
    must(rt, list.push(&[5; 4096]));
    sure(rt, list.len() == 3, "blocks");
    list
}

/// The last two of three blocks, and a block of a bank.
fn other_blocks(rt: &impl Abort, alloc: Global, first: &BlockList) -> BlockList
    requires { length first.now ≡ 3 }
{
    let mut list = BlockList::make(alloc);
    must(rt, list.push_shared(first, 1));
    must(rt, list.push_shared(first, 2));
    must(rt, list.push_bank(&must(rt, BlockBank::make(alloc, 1))));
    list
}

#[test]
fn blocks_of_two_lists(rt: HostRuntime) {
    let rt = &rt;
    let alloc = rt.alloc();
    let first = three_blocks(rt, alloc);
    let second = other_blocks(rt, alloc, &first);
    equal(rt, second.len(), 3);
    assert_blocks(rt, &first, "3 3, 4 3, 5 5");
    drop(first);
    assert_blocks(rt, &second, "4 3, 5 5, 0 0");
}
