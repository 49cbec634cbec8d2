//! Data blocks of a directory, read.

ghost use Rattle.std.specs.Prelude.{◌≡◌, ℕ, Bool, true, false, ◌+◌, ◌*◌, ◌-◌, ◌%◌, ◌<◌, ◌≤◌, ◌++◌, [], ◌∷◌, List, length, Some, None, IfOk, IfErr, OnOk, MatchOption, ◌^◌, map, if◌then◌else◌, IsTrue};
ghost use Rattle.std.specs.Option.{option_map};
ghost use Rattle.std.specs.List.{filter};
ghost use Rattle.xfs_word.specs.Field.{field_of, part_of};
ghost use Rattle.xfs_dirdata.specs.Sizes.{data_size};
ghost use Rattle.xfs_dirdata.specs.Faults.{OnUnsound};
ghost use Rattle.xfs_dirdata.specs.Data.{DataArea, is_span, span_at, entry_at, entry_size_at, size_at, is_tagged, is_sound_span, is_entry, is_item, HasSize, items, best_at, has_bests, stated_area, area_of, data_area, data_of, States, StatesNothing};

use crate::best::are_bests;
use crate::layouts::data_block::{
    BESTFREE, COUNT, FREETAG, HEADER_SIZE, INUMBER, LENGTH, NAME, NAMELEN, PAIR_SIZE, TAG_SIZE,
    UNUSED,
};
use crate::records::{DirDataFault, EntryRec, FreeSpan};
use crate::sizes::data_size;
use std::alloc::{AllocError, Global};
use xfs_disk::Word;
use xfs_word::{get8, get16, get32, get64, part};

/// What a data block of a directory states.
#[derive(Drop)]
pub struct DataBlock {
    /// The entries in the order in which they stand, with those of the directory and its parent.
    pub entries: Vec<EntryRec>,
    /// Where each of the entries stands, in bytes from the block's start.
    pub places: Vec<u16>,
    /// The unused spans in the order in which they stand.
    pub free: Vec<FreeSpan>,
    /// The spans that the header states as the largest.
    pub bests: [FreeSpan; 3],
}

/// Reads a data block, of 4096 bytes, of the directory with inode number `dir`, without its seal; `whole` says that it is the only
/// block of its directory, whose tail says where the entries end. `Unsound` where the block breaks a rule, `NoMemory` where the
/// lists do not fit (chapter "Directories").
#[tactic(auto, unfolding(crate::specs::Data::data_of, crate::specs::Data::data_area))]
pub fn read_data(
    alloc: Global,
    dir: u64,
    block: &[u8],
    whole: bool,
) -> Result<DataBlock, DirDataFault>
    requires { length block.now ≡ 4096 }
    ensures read { IfOk result (λ d. data_of dir block.now whole
        ≡ Some (record { entries = d.entries.items; places = d.places.items; free = d.free.items; bests = d.bests })) }
    ensures states { IfOk result (λ d. States dir (data_area block.now whole)
        (record { entries = d.entries.items; places = d.places.items; free = d.free.items; bests = d.bests })) }
    ensures unsound { IfErr result (λ fault. OnUnsound fault (data_of dir block.now whole ≡ None)) }
    ensures none { IfErr result (λ fault. OnUnsound fault (StatesNothing dir (data_area block.now whole))) }
{
    if !whole {
        return read_area(alloc, dir, block);
    }
    let index = get32(block, COUNT.offset) as usize * PAIR_SIZE;
    if COUNT.offset - HEADER_SIZE < index {
        return Err(DirDataFault::Unsound);
    }
    read_area(alloc, dir, part(block, 0, COUNT.offset - index))
}

/// So many entries have room from the first on: most directories of a block have no more.
const FEW: usize = 32;

/// Reads the entries and unused spans that fill the bytes behind a header.
fn read_area(alloc: Global, dir: u64, bytes: &[u8]) -> Result<DataBlock, DirDataFault>
    requires long { 64 ≤ length bytes.now }
    requires short { length bytes.now ≤ 4096 }
    requires whole { length bytes.now % 8 ≡ 0 }
    ensures read { IfOk result (λ d. area_of dir bytes.now
        ≡ Some (record { entries = d.entries.items; places = d.places.items; free = d.free.items; bests = d.bests })) }
    ensures states { IfOk result (λ d. States dir bytes.now
        (record { entries = d.entries.items; places = d.places.items; free = d.free.items; bests = d.bests })) }
    ensures unsound { IfErr result (λ fault. OnUnsound fault (area_of dir bytes.now ≡ None)) }
    ensures none { IfErr result (λ fault. OnUnsound fault (StatesNothing dir bytes.now)) }
{
    let mut taken = DataBlock {
        entries: Vec::with_capacity(alloc, FEW)?,
        places: Vec::with_capacity(alloc, FEW)?,
        free: Vec::new(alloc),
        bests: [best_at(bytes, 0), best_at(bytes, 1), best_at(bytes, 2)],
    };
    let mut at = HEADER_SIZE;
    while at < bytes.len() {
        let size = match sound_size(bytes, at) {
            Some(size) => size,
            None => return Err(DirDataFault::Unsound),
        };
        take_item(alloc, dir, bytes, at, &mut taken)?;
        at += size;
    }
    if has_bests(bytes, &taken.free) {
        Ok(taken)
    } else {
        Err(DirDataFault::Unsound)
    }
}

/// Takes up the entry or unused span at a byte offset.
fn take_item(
    alloc: Global,
    dir: u64,
    bytes: &[u8],
    at: usize,
    taken: &mut DataBlock,
) -> Result<(), DirDataFault>
    requires inside { at + 8 ≤ length bytes.now }
    requires entry { is_span bytes.now at ≡ false → at + entry_size_at bytes.now at ≤ length bytes.now }
    requires below { at < 2 ^ 16 }
    ensures entries { OnOk result (taken.new.entries.items ≡ taken.old.entries.items ++ map (entry_at dir bytes.now) (filter (is_entry bytes.now) (at ∷ []))) }
    ensures places { OnOk result (taken.new.places.items ≡ taken.old.places.items ++ filter (is_entry bytes.now) (at ∷ [])) }
    ensures free { OnOk result (taken.new.free.items ≡ taken.old.free.items ++ map (span_at bytes.now) (filter (is_span bytes.now) (at ∷ []))) }
    ensures bests { taken.new.bests ≡ taken.old.bests }
    ensures fault { IfErr result (λ fault. fault ≡ DirDataFault.NoMemory) }
{
    if is_span(bytes, at) {
        take_span(bytes, at, &mut taken.free)
    } else {
        take_entry(alloc, dir, bytes, at, taken)
    }
}

/// Takes up the unused span at a byte offset.
fn take_span(bytes: &[u8], at: usize, free: &mut Vec<FreeSpan>) -> Result<(), DirDataFault>
    requires inside { at + 4 ≤ length bytes.now }
    requires below { at < 2 ^ 16 }
    ensures free { OnOk result (free.new.items ≡ free.old.items ++ span_at bytes.now at ∷ []) }
    ensures fault { IfErr result (λ fault. fault ≡ DirDataFault.NoMemory) }
{
    free.push(FreeSpan {
        offset: at as u16,
        length: get16(bytes, at + LENGTH.offset),
    })?;
    Ok(())
}

/// Takes up the entry at a byte offset.
fn take_entry(
    alloc: Global,
    dir: u64,
    bytes: &[u8],
    at: usize,
    taken: &mut DataBlock,
) -> Result<(), DirDataFault>
    requires inside { at + entry_size_at bytes.now at ≤ length bytes.now }
    requires below { at < 2 ^ 16 }
    ensures entries { OnOk result (taken.new.entries.items ≡ taken.old.entries.items ++ entry_at dir bytes.now at ∷ []) }
    ensures places { OnOk result (taken.new.places.items ≡ taken.old.places.items ++ at ∷ []) }
    ensures free { taken.new.free.items ≡ taken.old.free.items }
    ensures bests { taken.new.bests ≡ taken.old.bests }
    ensures fault { IfErr result (λ fault. fault ≡ DirDataFault.NoMemory) }
{
    let entry = read_entry(alloc, dir, bytes, at)?;
    taken.entries.push(entry)?;
    taken.places.push(at as u16)?;
    Ok(())
}

/// The entry at a byte offset.
#[tactic(auto, unfolding(crate::specs::Data::entry_at))]
fn read_entry(alloc: Global, dir: u64, bytes: &[u8], at: usize) -> Result<EntryRec, AllocError>
    requires { at + entry_size_at bytes.now at ≤ length bytes.now }
    ensures { IfOk result (λ entry. entry ≡ entry_at dir bytes.now at) }
{
    let name_length = get8(bytes, at + NAMELEN.offset) as usize;
    Ok(EntryRec {
        dir,
        name: Word::from_slice(alloc, part(bytes, at + NAME, name_length))?,
        ino: get64(bytes, at + INUMBER.offset),
        ftype: get8(bytes, at + NAME + name_length),
    })
}

/// Whether what stands at a byte offset is an unused span and no entry.
#[tactic(auto, unfolding(crate::specs::Data::is_span))]
fn is_span(bytes: &[u8], at: usize) -> bool
    requires { at + 2 ≤ length bytes.now }
    ensures { result ≡ is_span bytes.now at }
{
    get16(bytes, at + FREETAG.offset) == UNUSED
}

/// How many bytes the entry or unused span at a byte offset has, where it keeps its rules.
#[tactic(auto, unfolding(crate::specs::Data::is_item))]
fn sound_size(bytes: &[u8], at: usize) -> Option<usize>
    requires inside { at < length bytes.now }
    requires whole { length bytes.now % 8 ≡ 0 }
    requires aligned { at % 8 ≡ 0 }
    ensures { MatchOption result (is_item bytes.now at ≡ false) (λ size. (is_item bytes.now at ≡ true) × (size ≡ size_at bytes.now at) × HasSize bytes.now at size) }
{
    if is_span(bytes, at) {
        sound_span_size(bytes, at)
    } else {
        sound_entry_size(bytes, at)
    }
}

/// How many bytes the unused span at a byte offset has, where it keeps its rules.
fn sound_span_size(bytes: &[u8], at: usize) -> Option<usize>
    requires inside { at < length bytes.now }
    requires whole { length bytes.now % 8 ≡ 0 }
    requires aligned { at % 8 ≡ 0 }
    ensures { MatchOption result (is_sound_span bytes.now at (field_of bytes.now (at + 2) 2) ≡ false) (λ size.
        (is_sound_span bytes.now at (field_of bytes.now (at + 2) 2) ≡ true) × (size ≡ field_of bytes.now (at + 2) 2) × HasSize bytes.now at size) }
{
    let size = get16(bytes, at + LENGTH.offset) as usize;
    if is_sound_span(bytes, at, size) {
        Some(size)
    } else {
        None
    }
}

/// Whether so many bytes from an offset on are an unused span that keeps its rules.
fn is_sound_span(bytes: &[u8], at: usize, size: usize) -> bool
    requires inside { at < length bytes.now }
    requires whole { length bytes.now % 8 ≡ 0 }
    requires aligned { at % 8 ≡ 0 }
    ensures value { result ≡ is_sound_span bytes.now at size }
    ensures some { IsTrue result → 8 ≤ size }
    ensures whole { IsTrue result → size % 8 ≡ 0 }
    ensures inside { IsTrue result → at + size ≤ length bytes.now }
{
    if size < 8 {
        return false;
    }
    if size % 8 != 0 {
        return false;
    }
    if !is_tagged(bytes, at, size) {
        return false;
    }
    at + size == bytes.len() || !is_span(bytes, at + size)
}

/// How many bytes the entry at a byte offset has, where it keeps its rules.
fn sound_entry_size(bytes: &[u8], at: usize) -> Option<usize>
    requires inside { at < length bytes.now }
    ensures { MatchOption result (is_tagged bytes.now at (entry_size_at bytes.now at) ≡ false) (λ size.
        (is_tagged bytes.now at (entry_size_at bytes.now at) ≡ true) × (size ≡ entry_size_at bytes.now at) × HasSize bytes.now at size) }
{
    if bytes.len() - at < NAME {
        return None;
    }
    let size = data_size(get8(bytes, at + NAMELEN.offset) as usize);
    if is_tagged(bytes, at, size) {
        Some(size)
    } else {
        None
    }
}

/// Whether so many bytes from an offset on lie inside and end with their tag, which is the offset.
fn is_tagged(bytes: &[u8], at: usize, size: usize) -> bool
    requires inside { at < length bytes.now }
    requires tag { 2 ≤ size }
    ensures value { result ≡ is_tagged bytes.now at size }
    ensures inside { IsTrue result → at + size ≤ length bytes.now }
{
    if bytes.len() - at < size {
        return false;
    }
    get16(bytes, at + size - TAG_SIZE) as usize == at
}

/// Whether the three spans of the header are the largest of the unused ones.
fn has_bests(bytes: &[u8], free: &[FreeSpan]) -> bool
    requires { 64 ≤ length bytes.now }
    ensures { result ≡ has_bests bytes.now free.now }
{
    are_bests(
        free,
        best_at(bytes, 0),
        best_at(bytes, 1),
        best_at(bytes, 2),
    )
}

/// One of the three spans of the header.
fn best_at(bytes: &[u8], index: usize) -> FreeSpan
    requires bytes { 64 ≤ length bytes.now }
    requires index { index < 3 }
    ensures { result ≡ best_at bytes.now index }
{
    FreeSpan {
        offset: get16(bytes, BESTFREE + 4 * index),
        length: get16(bytes, BESTFREE + 4 * index + 2),
    }
}
