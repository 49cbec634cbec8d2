//! The short form of a directory, read.

ghost use Rattle.std.specs.Prelude.{◌≡◌, ℕ, ◌+◌, ◌<◌, ◌≤◌, ◌++◌, [], ◌∷◌, length, Some, None, IfOk, IfErr, IsTrue, ◌==◌, ◌&&◌, nat_le};
ghost use Rattle.std.specs.Option.{option_map};
ghost use Rattle.xfs_word.specs.Field.{field_of, part_of};
ghost use Rattle.xfs_dirdata.specs.Sizes.{data_size, short_size};
ghost use Rattle.xfs_dirdata.specs.Faults.{OnUnsound};
ghost use Rattle.xfs_dirdata.specs.Short.{short_entry, is_short_entry, short_entries, short_size_at, data_offset_at, data_end_at, index_size, short_of};

use crate::layouts::short_form::{COUNT, HEADER_SIZE, I8COUNT, NAME, NAMELEN, OFFSET, PARENT};
use crate::records::{DirDataFault, EntryRec};
use crate::sizes::{data_size, short_size};
use std::alloc::{AllocError, Global};
use xfs_disk::{BLOCK_SIZE, Word};
use xfs_word::{get8, get16, get32, part};

/// The byte offset of the first entry of a data block behind those of the directory and its parent.
pub const FIRST_OFFSET: usize = 96;

/// What the short form of a directory states.
#[derive(Drop)]
pub struct ShortDir {
    /// The inode number of the parent.
    pub parent: u64,
    /// The entries in the order in which they stand.
    pub entries: Vec<EntryRec>,
}

/// Reads the short form of the directory `dir` from its bytes, which are as many as the directory's size.
/// `Unsound` where it breaks a rule (chapter "Directories").
#[tactic(auto, unfolding(crate::specs::Short::short_of))]
pub fn read_short_entries(alloc: Global, dir: u64, form: &[u8]) -> Result<ShortDir, DirDataFault>
    ensures read { IfOk result (λ d. short_of dir form.now ≡ Some (record { parent = d.parent; entries = d.entries.items })) }
    ensures unsound { IfErr result (λ fault. OnUnsound fault (short_of dir form.now ≡ None)) }
{
    if form.len() < HEADER_SIZE {
        return Err(DirDataFault::Unsound);
    }
    if get8(form, I8COUNT.offset) != 0 {
        return Err(DirDataFault::Unsound);
    }
    match read_entries(alloc, dir, form, get8(form, COUNT.offset)) {
        Ok(entries) => Ok(ShortDir {
            parent: get32(form, PARENT.offset) as u64,
            entries,
        }),
        Err(fault) => Err(fault),
    }
}

/// Reads the entries, of which there are `count`.
fn read_entries(
    alloc: Global,
    dir: u64,
    form: &[u8],
    count: u8,
) -> Result<Vec<EntryRec>, DirDataFault>
    requires { 6 ≤ length form.now }
    ensures read { IfOk result (λ entries. short_entries dir form.now (index_size count) count 6 96 ≡ Some entries.items) }
    ensures unsound { IfErr result (λ fault. OnUnsound fault (short_entries dir form.now (index_size count) count 6 96 ≡ None)) }
{
    let mut entries = Vec::new(alloc);
    let mut at = HEADER_SIZE;
    let mut least = FIRST_OFFSET;
    while entries.len() < count as usize {
        if !is_entry(form, at, least) {
            return Err(DirDataFault::Unsound);
        }
        let name_length = get8(form, at + NAMELEN.offset) as usize;
        entries.push(read_entry(alloc, dir, form, at)?)?;
        least = get16(form, at + OFFSET.offset) as usize + data_size(name_length);
        at += short_size(name_length);
    }
    if fills(form, at, least, count) {
        Ok(entries)
    } else {
        Err(DirDataFault::Unsound)
    }
}

/// Whether the entries end where the form does, and would leave room in a single block for its index.
fn fills(form: &[u8], at: usize, least: usize, count: u8) -> bool
    requires { least < 70000 }
    ensures { result ≡ (at == length form.now && nat_le (least + index_size count) 4096) }
{
    at == form.len() && least + index_size(count) <= BLOCK_SIZE
}

/// The bytes of the index and the tail that a single block would have behind so many entries and those of
/// the directory and its parent.
fn index_size(count: u8) -> usize
    ensures value { result ≡ index_size count }
    ensures bound { result < 4096 }
{
    8 * (count as usize + 2) + 8
}

/// Whether an entry lies in the form from the byte offset `at` on, and would stand in a data block at a
/// multiple of 8 from the byte offset `least` on.
fn is_entry(form: &[u8], at: usize, least: usize) -> bool
    requires { at ≤ length form.now }
    ensures value { result ≡ is_short_entry form.now at least }
    ensures inside { IsTrue result → at + short_size_at form.now at ≤ length form.now }
{
    if form.len() - at < NAME {
        return false;
    }
    if form.len() - at < short_size(get8(form, at + NAMELEN.offset) as usize) {
        return false;
    }
    let offset = get16(form, at + OFFSET.offset) as usize;
    offset % 8 == 0 && least <= offset
}

/// The entry at the byte offset `at`.
#[tactic(auto, unfolding(crate::specs::Short::short_entry))]
fn read_entry(alloc: Global, dir: u64, form: &[u8], at: usize) -> Result<EntryRec, AllocError>
    requires { at + short_size_at form.now at ≤ length form.now }
    ensures { IfOk result (λ entry. entry ≡ short_entry dir form.now at) }
{
    let name_length = get8(form, at + NAMELEN.offset) as usize;
    let behind = at + NAME + name_length;
    Ok(EntryRec {
        dir,
        name: Word::from_slice(alloc, part(form, at + NAME, name_length))?,
        ino: get32(form, behind + 1) as u64,
        ftype: get8(form, behind),
    })
}
