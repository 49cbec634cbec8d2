//! Data blocks, filled with entries one after the other.

ghost use Rattle.std.specs.Prelude.{◌≡◌, ℕ, [], ◌∷◌, ◌++◌, ◌+◌, ◌-◌, ◌<◌, ◌≤◌, ◌^◌, length, map, All, Some, IfOk, IfSome, OnOk, IsPermutation, slice_index_or, slice_set, take};
ghost use Rattle.xfs_word.specs.Field.{zeros};
ghost use Rattle.xfs_dirdata.specs.Written.{IsWritableEntry, data_length, first_entries, placed_entries, offsets};
ghost use Rattle.xfs_word.specs.Hash.{hash_of};
ghost use Rattle.xfs_dirindex.specs.Data.{due_pairs, entry_address};
ghost use Rattle.xfs_dirindex.specs.Sorted.{PairsRanked};
ghost use Rattle.xfs_dirbuild.specs.Blocks.{data_block, bank_part};
ghost use Rattle.xfs_dirbuild.specs.Filling.{filled_shares, pairs_from, rest_in};
ghost use Rattle.xfs_dirbuild.specs.Index.{IsPointer};
ghost use Rattle.xfs_dirbuild.specs.Placed.{IsBuiltDataBlock};

use crate::writing::{blank, put_block};
use std::alloc::Global;
use xfs_collections::BlockBank;
use xfs_dirdata::layouts::data_block::HEADER_SIZE;
use xfs_dirdata::{EntryRec, data_size, put_data};
use xfs_dirindex::Pair;
use xfs_dirindex::layouts::data_magic;
use xfs_disk::{BLOCK_SIZE, NoMemory};
use xfs_word::{name_hash, put32};

/// What an index has to say of data blocks that were filled.
#[derive(Drop)]
pub struct StatedBlocks {
    /// The pair of each entry.
    pub pairs: Vec<Pair>,
    /// How many bytes each block has left.
    pub rests: Vec<u16>,
}

/// Fills the first blocks of a bank with these entries, behind those of the directory and its parent.
pub fn fill_blocks(
    alloc: Global,
    entries: &[EntryRec],
    dir: u64,
    parent: u64,
    blocks: &mut BlockBank,
) -> Result<StatedBlocks, NoMemory>
    requires writable { All IsWritableEntry entries.now }
    requires dir { dir < 2 ^ 32 }
    requires parent { parent < 2 ^ 32 }
    requires room { length (filled_shares dir parent entries.now) ≤ length blocks.old }
    requires low { length (filled_shares dir parent entries.now) ≤ 0x800000 }
    ensures pairs { IfOk result (λ stated. stated.pairs.items ≡ pairs_from 0 (filled_shares dir parent entries.now)) }
    ensures sound { IfOk result (λ stated. All IsPointer stated.pairs.items) }
    ensures added { IfOk result (λ stated. length stated.pairs.items ≡ length entries.now + 2) }
    ensures rests { IfOk result (λ stated. stated.rests.items ≡ map rest_in (filled_shares dir parent entries.now)) }
    ensures blocks { OnOk result ((k : ℕ) → k < length (filled_shares dir parent entries.now) → IsBuiltDataBlock (slice_index_or (filled_shares dir parent entries.now) k []) (slice_index_or blocks.new k [])) }
    ensures bytes { OnOk result (bank_part blocks.new 0 (length (filled_shares dir parent entries.now)) ≡ map data_block (filled_shares dir parent entries.now)) }
    ensures count { length blocks.new ≡ length blocks.old }
{
    let mut stated = StatedBlocks {
        pairs: Vec::new(alloc),
        rests: Vec::new(alloc),
    };
    let mut start = fill_block(entries, Some((dir, parent)), 0, blocks, &mut stated)?;
    let mut number = 1;
    while start < entries.len() {
        let taken = fill_block(&entries[start..], None, number, blocks, &mut stated)?;
        start += taken;
        number += 1;
    }
    Ok(stated)
}

/// Fills block `number` of a bank with as many of these entries as fit, and returns how many those are.
fn fill_block(
    entries: &[EntryRec],
    first: Option<(u64, u64)>,
    number: usize,
    blocks: &mut BlockBank,
    stated: &mut StatedBlocks,
) -> Result<usize, NoMemory>
    requires writable { All IsWritableEntry entries.now }
    requires first { IfSome first (λ numbers. (numbers.0 < 2 ^ 32) × (numbers.1 < 2 ^ 32)) }
    requires long { data_length (first_entries first) ≤ 32 }
    requires inside { number < length blocks.old }
    requires low { number < 0x800000 }
    requires sound { All IsPointer stated.old.pairs.items }
    ensures within { IfOk result (λ count. count ≤ length entries.now) }
    ensures fits { IfOk result (λ count. 64 + data_length (placed_entries first entries.now count) ≤ 4096) }
    ensures longest { IfOk result (λ count. count < length entries.now → 4096 < 64 + data_length (placed_entries first entries.now (count + 1))) }
    ensures block { IfOk result (λ count. IsBuiltDataBlock (placed_entries first entries.now count) (slice_index_or blocks.new number [])) }
    ensures bytes { IfOk result (λ count. slice_index_or blocks.new number [] ≡ data_block (placed_entries first entries.now count)) }
    ensures count { length blocks.new ≡ length blocks.old }
    ensures others { (k : ℕ) → k < number → slice_index_or blocks.new k [] ≡ slice_index_or blocks.old k [] }
    ensures pairs { IfOk result (λ count. stated.new.pairs.items ≡ stated.old.pairs.items ++ due_pairs number (placed_entries first entries.now count) (offsets 64 (placed_entries first entries.now count))) }
    ensures sound { OnOk result (All IsPointer stated.new.pairs.items) }
    ensures added { IfOk result (λ count. length stated.new.pairs.items ≡ length stated.old.pairs.items + length (first_entries first) + count) }
    ensures rests { IfOk result (λ count. stated.new.rests.items ≡ stated.old.rests.items ++ rest_in (placed_entries first entries.now count) ∷ []) }
{
    let mut block = blank();
    let count = put_data_block(entries, first, &mut block);
    put_block(number, &block, blocks);
    let start = add_first(first, number as u64, &mut stated.pairs)?;
    let end = add_pairs(&entries[..count], number as u64, start, &mut stated.pairs)?;
    stated.rests.push((BLOCK_SIZE - end) as u16)?;
    Ok(count)
}

/// Writes a data block with as many of these entries as fit, and returns how many those are.
fn put_data_block(entries: &[EntryRec], first: Option<(u64, u64)>, block: &mut [u8]) -> usize
    requires writable { All IsWritableEntry entries.now }
    requires first { IfSome first (λ numbers. (numbers.0 < 2 ^ 32) × (numbers.1 < 2 ^ 32)) }
    requires room { data_length (first_entries first) ≤ 32 }
    requires long { length block.old ≡ 4096 }
    requires blank { block.old ≡ zeros 4096 }
    ensures within { result ≤ length entries.now }
    ensures fits { 64 + data_length (placed_entries first entries.now result) ≤ 4096 }
    ensures longest { result < length entries.now → 4096 < 64 + data_length (placed_entries first entries.now (result + 1)) }
    ensures block { IsBuiltDataBlock (placed_entries first entries.now result) block.new }
    ensures bytes { block.new ≡ data_block (placed_entries first entries.now result) }
{
    put32(block, 0, data_magic(false));
    put_data(entries, first, block)
}

/// Adds the pairs of the entries of the directory and its parent, where they are given, and returns the byte
/// offset behind them.
pub fn add_first(
    first: Option<(u64, u64)>,
    number: u64,
    pairs: &mut Vec<Pair>,
) -> Result<usize, NoMemory>
    requires low { number < 0x800000 }
    requires sound { All IsPointer pairs.old.items }
    ensures end { IfOk result (λ end. end ≡ 64 + data_length (first_entries first)) }
    ensures pairs { OnOk result (pairs.new.items ≡ pairs.old.items ++ due_pairs number (first_entries first) (offsets 64 (first_entries first))) }
    ensures count { OnOk result (length pairs.new.items ≡ length pairs.old.items + length (first_entries first)) }
    ensures sound { OnOk result (All IsPointer pairs.new.items) }
{
    if first.is_none() {
        return Ok(HEADER_SIZE);
    }
    add_pair(b".", number, HEADER_SIZE, pairs)?;
    add_pair(b"..", number, HEADER_SIZE + data_size(1), pairs)?;
    Ok(HEADER_SIZE + data_size(1) + data_size(2))
}

/// Adds the pairs of these entries, which stand in data block `number` one behind the other from a byte offset
/// on, and returns the byte offset behind them.
pub fn add_pairs(
    entries: &[EntryRec],
    number: u64,
    start: usize,
    pairs: &mut Vec<Pair>,
) -> Result<usize, NoMemory>
    requires writable { All IsWritableEntry entries.now }
    requires low { number < 0x800000 }
    requires inside { start + data_length entries.now ≤ 4096 }
    requires behind { 64 ≤ start }
    requires sound { All IsPointer pairs.old.items }
    ensures end { IfOk result (λ end. end ≡ start + data_length entries.now) }
    ensures pairs { OnOk result (pairs.new.items ≡ pairs.old.items ++ due_pairs number entries.now (offsets start entries.now)) }
    ensures count { OnOk result (length pairs.new.items ≡ length pairs.old.items + length entries.now) }
    ensures sound { OnOk result (All IsPointer pairs.new.items) }
{
    let mut at = start;
    for entry in entries {
        let name = entry.name.bytes();
        add_pair(name, number, at, pairs)?;
        at += data_size(name.len());
    }
    Ok(at)
}

/// Adds the pair of an entry with this name, which stands in data block `number` at a byte offset.
fn add_pair(name: &[u8], number: u64, at: usize, pairs: &mut Vec<Pair>) -> Result<(), NoMemory>
    requires low { number < 0x800000 }
    requires inside { at < 4096 }
    requires behind { 64 ≤ at }
    requires sound { All IsPointer pairs.old.items }
    ensures pair { OnOk result (pairs.new.items ≡ pairs.old.items ++ (record { hash = hash_of name.now; address = entry_address number at }) ∷ []) }
    ensures sound { OnOk result (All IsPointer pairs.new.items) }
{
    pairs.push(Pair {
        hash: name_hash(name),
        address: (number * BLOCK_SIZE as u64 + at as u64) / 8,
    })?;
    Ok(())
}

/// Sorts the pairs by hash, and those of a hash by address.
pub fn sort_pairs(pairs: &mut Vec<Pair>) -> Result<(), NoMemory>
    requires sound { All IsPointer pairs.old.items }
    ensures moved { OnOk result (IsPermutation pairs.old.items pairs.new.items) }
    ensures ranked { OnOk result (PairsRanked pairs.new.items) }
    ensures sound { OnOk result (All IsPointer pairs.new.items) }
    ensures count { OnOk result (length pairs.new.items ≡ length pairs.old.items) }
{
    pairs.sort()?;
    Ok(())
}
