//! Sums over the records of a group's trees, which counters state (chapter "AG Free Space Management").

ghost use Rattle.std.specs.Prelude.{◌≡◌, ◌*◌, ◌^◌, ◌≤◌, length};
ghost use Rattle.xfs_geom.specs.Sums.{free_blocks, free_slots, longest, slots};

use crate::records::{InoRec, Span};

/// The blocks of free runs.
pub fn free_blocks(spans: &[Span]) -> u128
    ensures value { result ≡ free_blocks spans.now }
    ensures less { result ≤ length spans.now * 2 ^ 32 }
{
    let mut blocks = 0;
    for span in spans {
        blocks += span.count as u128;
    }
    blocks
}

/// The blocks of the longest of free runs, or 0 where there is none.
pub fn longest(spans: &[Span]) -> u32
    ensures { result ≡ longest spans.now }
{
    let mut most = 0;
    for span in spans {
        if span.count > most {
            most = span.count;
        }
    }
    most
}

/// The inodes of chunks, missing ones not among them.
pub fn slots(chunks: &[InoRec]) -> u128
    ensures value { result ≡ slots chunks.now }
    ensures less { result ≤ length chunks.now * 2 ^ 8 }
{
    let mut inodes = 0;
    for chunk in chunks {
        inodes += chunk.count as u128;
    }
    inodes
}

/// The inodes of chunks that are free, as the chunks state.
pub fn free_slots(chunks: &[InoRec]) -> u128
    ensures value { result ≡ free_slots chunks.now }
    ensures less { result ≤ length chunks.now * 2 ^ 8 }
{
    let mut inodes = 0;
    for chunk in chunks {
        inodes += chunk.freecount as u128;
    }
    inodes
}
