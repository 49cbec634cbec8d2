//! Data blocks of a directory, written.

ghost use Rattle.std.specs.Prelude.{◌≡◌, ℕ, ◌+◌, ◌-◌, ◌*◌, ◌%◌, ◌<◌, ◌≤◌, ◌^◌, ◌++◌, [], ◌∷◌, length, map, take, All, Some, IfSome, slice_index};
ghost use Rattle.xfs_word.specs.Field.{field_of, part_of, SameBeside, KeepsBeside, KeepsParts, zeros};
ghost use Rattle.xfs_dirdata.specs.declared.records.EntryRec.{EntryRec};
ghost use Rattle.xfs_dirdata.specs.Sizes.{data_size};
ghost use Rattle.xfs_dirdata.specs.Best.{bests_of};
ghost use Rattle.xfs_dirdata.specs.Data.{is_span, best_at, stated_bests, area_of};
ghost use Rattle.xfs_dirdata.specs.Bytes.{data_bytes};
ghost use Rattle.xfs_dirdata.specs.Written.{IsWritableEntry, data_length, IsDataEntry, AreDataEntries, first_entries, placed_entries, IsUnused, rest_span, written_area};

use crate::best::bestfree;
use crate::layouts::data_block::{
    BESTFREE, FREETAG, HEADER_SIZE, INUMBER, LENGTH, NAME, NAMELEN, PAD, TAG_SIZE, UNUSED,
};
use crate::records::{EntryRec, FreeSpan};
use crate::sizes::data_size;
use xfs_word::{put_part, put8, put16, put32, put64};

/// The file type of a directory.
const DIRECTORY: u8 = 2;

/// Writes as many of these entries as a data block can take, in their order, and returns how many those are;
/// before them the entries "." and "..", where `first` gives the inode numbers of the directory and its parent.
/// `block` has the bytes of the block up to the end of its entries and unused spans: all, or in the
/// single-block form those before the index. What is left is one unused span. The first 48 bytes stay. Names
/// have at most 255 bytes and inode numbers at most 4 (chapter "Directories").
pub fn put_data(entries: &[EntryRec], first: Option<(u64, u64)>, block: &mut [u8]) -> usize
    requires writable { All IsWritableEntry entries.now }
    requires first { IfSome first (λ numbers. (numbers.0 < 2 ^ 32) × (numbers.1 < 2 ^ 32)) }
    requires long { 64 + data_length (first_entries first) ≤ length block.old }
    requires short { length block.old ≤ 4096 }
    requires whole { length block.old % 8 ≡ 0 }
    ensures within { result ≤ length entries.now }
    ensures fits { 64 + data_length (placed_entries first entries.now result) ≤ length block.old }
    ensures longest { result < length entries.now → length block.old < 64 + data_length (placed_entries first entries.now (result + 1)) }
    ensures read { (dir : ℕ) → area_of dir block.new ≡ Some (written_area dir (placed_entries first entries.now result) (length block.old)) }
    ensures stand { AreDataEntries block.new 64 (placed_entries first entries.now result) }

    // Each byte that is written: no other byte of the old block is left behind the first 48.
    ensures bytes { part_of block.new 48 (length block.old - 48) ≡ data_bytes (placed_entries first entries.now result) (length block.old) }
    ensures padding { field_of block.new 60 4 ≡ 0 }
    ensures others { SameBeside block.old block.new 48 (length block.old - 48) }
{
    let start = put_first(first, block);
    let count = count_fitting(entries, block.len() - start);
    let end = put_entries(&entries[..count], start, block);
    put_rest(end, block);
    count
}

/// How many of these entries have so many bytes at most, from the first on.
fn count_fitting(entries: &[EntryRec], room: usize) -> usize
    requires writable { All IsWritableEntry entries.now }
    requires room { room ≤ 4096 }
    ensures within { result ≤ length entries.now }
    ensures fits { data_length (take result entries.now) ≤ room }
    ensures longest { result < length entries.now → room < data_length (take (result + 1) entries.now) }
{
    let mut used = 0;
    for (index, entry) in entries.iter().enumerate() {
        used += data_size(entry.name.bytes().len());
        if room < used {
            return index;
        }
    }
    entries.len()
}

/// Writes the entries of the directory and its parent, where they are given, and returns where they end.
fn put_first(first: Option<(u64, u64)>, block: &mut [u8]) -> usize
    requires first { IfSome first (λ numbers. (numbers.0 < 2 ^ 32) × (numbers.1 < 2 ^ 32)) }
    requires long { 64 + data_length (first_entries first) ≤ length block.old }
    requires short { length block.old ≤ 4096 }
    ensures end { result ≡ 64 + data_length (first_entries first) }
    ensures stand { AreDataEntries block.new 64 (first_entries first) }
    ensures others { SameBeside block.old block.new 64 (data_length (first_entries first)) }
{
    let Some((directory, parent)) = first else {
        return HEADER_SIZE;
    };
    put_entry(b".", directory, DIRECTORY, HEADER_SIZE, block);
    put_entry(b"..", parent, DIRECTORY, HEADER_SIZE + data_size(1), block);
    HEADER_SIZE + data_size(1) + data_size(2)
}

/// Writes these entries from the byte offset `start` on, and returns where they end.
fn put_entries(entries: &[EntryRec], start: usize, block: &mut [u8]) -> usize
    requires writable { All IsWritableEntry entries.now }
    requires room { start + data_length entries.now ≤ length block.old }
    requires short { length block.old ≤ 4096 }
    ensures end { result ≡ start + data_length entries.now }
    ensures stand { AreDataEntries block.new start entries.now }
    ensures others { SameBeside block.old block.new start (data_length entries.now) }
{
    let mut at = start;
    for entry in entries {
        let name = entry.name.bytes();
        put_entry(name, entry.ino, entry.ftype, at, block);
        at += data_size(name.len());
    }
    at
}

/// Writes an entry at the byte offset `at`, with zeros between its file type and its tag.
fn put_entry(name: &[u8], ino: u64, ftype: u8, at: usize, block: &mut [u8])
    requires name { length name.now < 256 }
    requires ino { ino < 2 ^ 32 }
    requires inside { at + data_size (length name.now) ≤ length block.old }
    requires short { length block.old ≤ 4096 }
    ensures stands { IsDataEntry block.new at name.now ino ftype }
    ensures others { SameBeside block.old block.new at (data_size (length name.now)) }
{
    let size = data_size(name.len());
    let behind = at + NAME + name.len();
    put64(block, at + INUMBER.offset, ino);
    put8(block, at + NAMELEN.offset, name.len() as u8);
    put_part(block, at + NAME, name);
    put8(block, behind, ftype);
    put_zeros(behind + 1, at + size - TAG_SIZE, block);
    put16(block, at + size - TAG_SIZE, at as u16);
}

/// Makes an unused span of what is left from the byte offset `at` on, and states it in the header.
fn put_rest(at: usize, block: &mut [u8])
    requires long { 64 ≤ at }
    requires inside { at ≤ length block.old }
    requires short { length block.old ≤ 4096 }
    requires aligned { at % 8 ≡ 0 }
    requires whole { length block.old % 8 ≡ 0 }
    ensures unused { at < length block.old → IsUnused block.new at (length block.old - at) }
    ensures bests { stated_bests block.new ≡ bests_of (rest_span at (length block.old)) }
    ensures padding { field_of block.new 60 4 ≡ 0 }
    ensures head { (k : ℕ) → k < 48 → slice_index block.new k ≡ slice_index block.old k }
    ensures entries { (k : ℕ) → 64 ≤ k → k < at → slice_index block.new k ≡ slice_index block.old k }
{
    if at == block.len() {
        put_bests(&bestfree(&[]), block);
        return;
    }
    let span = FreeSpan {
        offset: at as u16,
        length: (block.len() - at) as u16,
    };
    put_bests(&bestfree(&[span]), block);
    put_span(span, block);
}

/// Writes an unused span, with zeros between its length and its tag.
fn put_span(span: FreeSpan, block: &mut [u8])
    requires some { 8 ≤ span.length }
    requires inside { span.offset + span.length ≤ length block.old }
    ensures unused { IsUnused block.new span.offset span.length }
    ensures keeps { KeepsBeside block.old block.new span.offset span.length }
    ensures others { SameBeside block.old block.new span.offset span.length }
{
    let at = span.offset as usize;
    let tag = at + span.length as usize - TAG_SIZE;
    put16(block, at + FREETAG.offset, UNUSED);
    put16(block, at + LENGTH.offset, span.length);
    put_zeros(at + LENGTH.offset + LENGTH.width, tag, block);
    put16(block, tag, span.offset);
}

/// Writes the largest unused spans into the header.
fn put_bests(bests: &[FreeSpan; 3], block: &mut [u8])
    requires { 64 ≤ length block.old }
    ensures bests { stated_bests block.new ≡ bests.now }
    ensures padding { field_of block.new 60 4 ≡ 0 }
    ensures others { SameBeside block.old block.new 48 16 }
{
    let [a, b, c] = *bests;
    put_best(0, a, block);
    put_best(1, b, block);
    put_best(2, c, block);
    put32(block, PAD.offset, 0);
}

/// Writes one of the three spans of the header.
fn put_best(index: usize, span: FreeSpan, block: &mut [u8])
    requires block { 64 ≤ length block.old }
    requires index { index < 3 }
    ensures best { best_at block.new index ≡ span }
    ensures keeps { KeepsBeside block.old block.new (48 + 4 * index) 4 }
    ensures others { SameBeside block.old block.new (48 + 4 * index) 4 }
{
    put16(block, BESTFREE + 4 * index, span.offset);
    put16(block, BESTFREE + 4 * index + 2, span.length);
}

/// Makes the bytes from one offset up to another zero.
fn put_zeros(from: usize, to: usize, block: &mut [u8])
    requires order { from ≤ to }
    requires inside { to ≤ length block.old }
    ensures zeros { part_of block.new from (to - from) ≡ zeros (to - from) }
    ensures keeps { KeepsBeside block.old block.new from (to - from) }
    ensures keeps_parts { KeepsParts block.old block.new from (to - from) }
    ensures others { SameBeside block.old block.new from (to - from) }
{
    clear(from, to, block);
}

/// Makes bytes zero, and leaves the bytes beside them.
#[tactic(auto, unfolding(xfs_word::specs::Field::part_of, xfs_word::specs::Field::zeros))]
fn clear(from: usize, to: usize, block: &mut [u8])
    requires order { from ≤ to }
    requires inside { to ≤ length block.old }
    ensures zeros { part_of block.new from (to - from) ≡ zeros (to - from) }
    ensures others { SameBeside block.old block.new from (to - from) }
{
    block[from..to].fill(0);
}
