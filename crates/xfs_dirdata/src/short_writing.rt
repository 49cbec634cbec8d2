//! The short form of a directory, written.

ghost use Rattle.std.specs.Prelude.{◌≡◌, ℕ, ◌+◌, ◌<◌, ◌≤◌, ◌^◌, length, map, take, All, Some};
ghost use Rattle.xfs_word.specs.Field.{field_of, part_of, SameBeside, KeepsBeside, KeepsParts};
ghost use Rattle.xfs_dirdata.specs.Sizes.{data_size, short_size};
ghost use Rattle.xfs_dirdata.specs.Short.{short_of, index_size};
ghost use Rattle.xfs_dirdata.specs.Bytes.{short_bytes};
ghost use Rattle.xfs_dirdata.specs.Written.{IsWritableEntry, in_directory, short_length, data_length, IsShortEntry, AreShortEntries};

use crate::layouts::short_form::{COUNT, HEADER_SIZE, I8COUNT, NAME, NAMELEN, OFFSET, PARENT};
use crate::records::EntryRec;
use crate::short::FIRST_OFFSET;
use crate::sizes::{data_size, short_size};
use xfs_word::{put_part, put8, put16, put32};

/// Writes the short form of a directory at the front of `form`, with the least offsets, and returns how many
/// bytes it has. Names have at most 255 bytes and inode numbers at most 4; the form fits `form`, and the
/// entries fit a single block (chapter "Directories").
pub fn put_short(parent: u64, entries: &[EntryRec], form: &mut [u8]) -> usize
    requires parent { parent < 2 ^ 32 }
    requires writable { All IsWritableEntry entries.now }
    requires room { 6 + short_length entries.now ≤ length form.old }
    requires single { 96 + data_length entries.now + index_size (length entries.now) ≤ 4096 }
    ensures size { result ≡ 6 + short_length entries.now }
    ensures read { (dir : ℕ) → short_of dir (take result form.new) ≡ Some (record { parent = parent; entries = map (in_directory dir) entries.now }) }
    ensures stand { AreShortEntries form.new 6 96 entries.now }

    // Each byte of the form.
    ensures bytes { take result form.new ≡ short_bytes parent entries.now }
    ensures others { SameBeside form.old form.new 0 result }
{
    put_header(parent, entries.len() as u8, form);
    put_entries(entries, form)
}

/// Writes what stands before the entries.
fn put_header(parent: u64, count: u8, form: &mut [u8])
    requires parent { parent < 2 ^ 32 }
    requires room { 6 ≤ length form.old }
    ensures count { field_of form.new 0 1 ≡ count }
    ensures i8count { field_of form.new 1 1 ≡ 0 }
    ensures parent { field_of form.new 2 4 ≡ parent }
    ensures others { SameBeside form.old form.new 0 6 }
{
    put8(form, COUNT.offset, count);
    put8(form, I8COUNT.offset, 0);
    put32(form, PARENT.offset, parent as u32);
}

/// Writes the entries behind the header, and returns where they end.
fn put_entries(entries: &[EntryRec], form: &mut [u8]) -> usize
    requires writable { All IsWritableEntry entries.now }
    requires room { 6 + short_length entries.now ≤ length form.old }
    requires single { 96 + data_length entries.now ≤ 4096 }
    ensures size { result ≡ 6 + short_length entries.now }
    ensures stand { AreShortEntries form.new 6 96 entries.now }
    ensures others { SameBeside form.old form.new 6 (short_length entries.now) }
{
    let mut at = HEADER_SIZE;
    let mut offset = FIRST_OFFSET;
    for entry in entries {
        let name_length = entry.name.bytes().len();
        put_entry(entry, at, offset as u16, form);
        at += short_size(name_length);
        offset += data_size(name_length);
    }
    at
}

/// Writes an entry at the byte offset `at`, with its offset in a data block.
fn put_entry(entry: &EntryRec, at: usize, offset: u16, form: &mut [u8])
    requires writable { IsWritableEntry entry.now }
    requires inside { at + short_size (length entry.now.name) ≤ length form.old }
    ensures stands { IsShortEntry form.new at offset entry.now }
    ensures others { SameBeside form.old form.new at (short_size (length entry.now.name)) }
{
    let name = entry.name.bytes();
    let behind = at + NAME + name.len();
    put8(form, at + NAMELEN.offset, name.len() as u8);
    put16(form, at + OFFSET.offset, offset);
    put_part(form, at + NAME, name);
    put8(form, behind, entry.ftype);
    put32(form, behind + 1, entry.ino as u32);
}
