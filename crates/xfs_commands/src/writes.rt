//! The command that writes a number into an object, and seals it anew.

ghost use Rattle.std.specs.Prelude.{◌≡◌, ℕ, ◌+◌, ◌-◌, ◌^◌, ◌<◌, ◌≤◌, ◌++◌, ◌*◌, nat_lt, if◌then◌else◌, length, Some, None, IfOk, IfSome, OnOk, IsTrue};
ghost use Rattle.xfs_word.specs.Crc.{has_checksum};
ghost use Rattle.xfs_word.specs.Field.{is_width};
ghost use Rattle.xfs_commands.specs.Commands.{checksum_at, fitting, number_bytes, patched, put_of, resealed, sets, sets_fitting, sets_item, session_of, with_field_number, with_object, IsEffect};
ghost use Rattle.xfs_objects.specs.Items.{is_inside, item_of, shape_len};
ghost use Rattle.xfs_objects.specs.Numbers.{typed};
ghost use Rattle.xfs_objects.specs.Objects.{object_in, object_size};
ghost use Rattle.xfs_objects.specs.Values.{item_line};

use crate::cursor::{Cursor, Verdict, refuse_word};
use std::alloc::Global;
use xfs_disk::NoMemory;
use xfs_geom::superblock;
use xfs_heads::layouts::{agf, agfl, agi};
use xfs_inode::layouts::inode;
use xfs_objects::{
    Item, ObjectPlace, ObjectType, SECTOR_SIZE, Typed, named_item, number_width, push_line,
    read_number,
};
use xfs_tree::{LONG, SHORT};
use xfs_word::crc_skipping;

/// The index of the checksum in the tables of both headers of tree blocks.
const CHECKSUM: usize = 9;

/// The byte offsets of the checksums of objects.
const SUPER_CRC: usize = superblock::CRC.offset;

const AGF_CRC: usize = agf::CRC.offset;

const AGI_CRC: usize = agi::CRC.offset;

const AGFL_CRC: usize = agfl::CRC.offset;

const INODE_CRC: usize = inode::CRC.offset;

const LONG_CRC: usize = LONG[CHECKSUM].offset;

const SHORT_CRC: usize = SHORT[CHECKSUM].offset;

/// Writes a number into an object of a block, seals the object anew, and prints what was written.
#[tactic(auto, unfolding(crate::specs::Commands::sets))]
pub fn set(
    alloc: Global,
    text: &mut Vec<u8>,
    cursor: &Cursor,
    place: ObjectPlace,
    block: &mut [u8],
    name: &[u8],
    value: &[u8],
) -> Result<Verdict, NoMemory>
    requires block { length block.old ≡ 4096 }
    requires sector { place.sector < 8 }
    ensures { IfOk result (λ verdict. IsEffect (sets place block.old name.now value.now (session_of cursor.now)) verdict text.old.items text.new.items (session_of cursor.now) (put_of verdict place.block block.new)) }
{
    let object = place.kind.object(place.sector, block);
    match named_item(alloc, place.kind, object, name)? {
        Some(item) => set_item(text, cursor, place, block, name, value, &item),
        None => refuse_word(text, "no field: ", name),
    }
}

/// Writes a number into an item of an object, where it holds one.
fn set_item(
    text: &mut Vec<u8>,
    cursor: &Cursor,
    place: ObjectPlace,
    block: &mut [u8],
    name: &[u8],
    value: &[u8],
    item: &Item,
) -> Result<Verdict, NoMemory>
    requires block { length block.old ≡ 4096 }
    requires sector { place.sector < 8 }
    requires inside { IsTrue (is_inside (object_size place.kind) (item_of item.now)) }
    ensures { IfOk result (λ verdict. IsEffect (sets_item place block.old name.now value.now (Some (item_of item.now)) (session_of cursor.now)) verdict text.old.items text.new.items (session_of cursor.now) (put_of verdict place.block block.new)) }
{
    match number_width(item.shape) {
        Some(width) => set_typed(text, cursor, place, block, value, item, width),
        None => refuse_word(text, "no field: ", name),
    }
}

/// Writes the number of so many bytes that a word states, where it is one.
fn set_typed(
    text: &mut Vec<u8>,
    cursor: &Cursor,
    place: ObjectPlace,
    block: &mut [u8],
    value: &[u8],
    item: &Item,
    width: usize,
) -> Result<Verdict, NoMemory>
    requires block { length block.old ≡ 4096 }
    requires sector { place.sector < 8 }
    requires inside { IsTrue (is_inside (object_size place.kind) (item_of item.now)) }
    requires width { IsTrue (is_width width) }
    requires long { width ≡ shape_len item.now.shape }
    ensures { IfOk result (λ verdict. IsEffect (sets_fitting place block.old value.now (item_of item.now) width (fitting width (typed value.now)) (session_of cursor.now)) verdict text.old.items text.new.items (session_of cursor.now) (put_of verdict place.block block.new)) }
{
    match fitting(value, width) {
        Some(number) => {
            set_number(text, place, block, item, width, number)?;
            Ok(Verdict::Done)
        }
        None => refuse_word(text, "bad number: ", value),
    }
}

/// The number that a word states, where it fits so many bytes.
fn fitting(word: &[u8], width: usize) -> Option<u64>
    requires { IsTrue (is_width width) }
    ensures { result ≡ fitting width (typed word.now) }
{
    match read_number(word) {
        Typed::NoNumber | Typed::TooLarge => None,
        Typed::Number(number) => fit(number, width),
    }
}

/// The number, where it fits so many bytes.
fn fit(number: u64, width: usize) -> Option<u64>
    requires { IsTrue (is_width width) }
    ensures { result ≡ (if nat_lt number (256 ^ width) then Some number else None) }
{
    if width == 8 || number >> (8 * width) == 0 {
        Some(number)
    } else {
        None
    }
}

/// Writes a number of so many bytes into an item of an object, and adds its line.
fn set_number(
    text: &mut Vec<u8>,
    place: ObjectPlace,
    block: &mut [u8],
    item: &Item,
    width: usize,
    number: u64,
) -> Result<(), NoMemory>
    requires block { length block.old ≡ 4096 }
    requires sector { place.sector < 8 }
    requires inside { IsTrue (is_inside (object_size place.kind) (item_of item.now)) }
    requires width { IsTrue (is_width width) }
    requires long { width ≡ shape_len item.now.shape }
    ensures text { OnOk result (text.new.items ≡ text.old.items ++ item_line (with_field_number place.kind item.now.offset width number (object_in place.kind place.sector block.old)) (item_of item.now)) }
    ensures block { OnOk result (block.new ≡ with_object place.kind place.sector (with_field_number place.kind item.now.offset width number (object_in place.kind place.sector block.old)) block.old) }
{
    if place.kind.is_sector() {
        set_in_sector(text, place, block, item, width, number)
    } else {
        set_in_object(text, place.kind, block, item, width, number)
    }
}

/// Writes a number into an object that has a sector of the block.
#[tactic(auto, unfolding(crate::specs::Commands::with_object))]
fn set_in_sector(
    text: &mut Vec<u8>,
    place: ObjectPlace,
    block: &mut [u8],
    item: &Item,
    width: usize,
    number: u64,
) -> Result<(), NoMemory>
    requires kind { object_size place.kind ≡ 512 }
    requires block { length block.old ≡ 4096 }
    requires sector { place.sector < 8 }
    requires inside { IsTrue (is_inside 512 (item_of item.now)) }
    requires width { IsTrue (is_width width) }
    requires long { width ≡ shape_len item.now.shape }
    ensures text { OnOk result (text.new.items ≡ text.old.items ++ item_line (with_field_number place.kind item.now.offset width number (object_in place.kind place.sector block.old)) (item_of item.now)) }
    ensures block { OnOk result (block.new ≡ patched block.old (512 * place.sector) (with_field_number place.kind item.now.offset width number (object_in place.kind place.sector block.old))) }
{
    let mut object = [0; SECTOR_SIZE];
    object.copy_from_slice(place.kind.object(place.sector, block));
    set_in_object(text, place.kind, &mut object, item, width, number)?;
    patch(block, SECTOR_SIZE * place.sector as usize, &object);
    Ok(())
}

/// Writes a number into an object, seals it anew, and adds the line of what was written.
#[tactic(auto, unfolding(crate::specs::Commands::with_field_number))]
fn set_in_object(
    text: &mut Vec<u8>,
    kind: ObjectType,
    object: &mut [u8],
    item: &Item,
    width: usize,
    number: u64,
) -> Result<(), NoMemory>
    requires object { length object.old ≡ object_size kind }
    requires inside { IsTrue (is_inside (object_size kind) (item_of item.now)) }
    requires width { IsTrue (is_width width) }
    requires long { width ≡ shape_len item.now.shape }
    ensures text { OnOk result (text.new.items ≡ text.old.items ++ item_line (with_field_number kind item.now.offset width number object.old) (item_of item.now)) }
    ensures object { OnOk result (object.new ≡ with_field_number kind item.now.offset width number object.old) }
{
    put_number(object, item.offset, width, number);
    reseal(object, checksum_at(kind));
    push_line(text, object, item)
}

/// Writes a number into so many bytes.
fn put_number(object: &mut [u8], at: usize, width: usize, number: u64)
    requires width { IsTrue (is_width width) }
    requires inside { at + width ≤ length object.old }
    ensures { object.new ≡ patched object.old at (number_bytes width number) }
{
    patch(object, at, &number.to_be_bytes()[8 - width..]);
}

/// Writes the checksum of an object, which is then right.
#[tactic(auto, unfolding(crate::specs::Commands::resealed), using(crate::proofs::Resealing::resealing))]
fn reseal(object: &mut [u8], at: usize)
    requires { at + 4 ≤ length object.old }
    ensures object { object.new ≡ resealed at object.old }
    ensures right { IsTrue (has_checksum object.new at) }
{
    let checksum = crc_skipping(object, at);
    patch(object, at, &checksum.to_le_bytes());
}

/// Copies bytes over those from a place on.
#[tactic(auto, unfolding(crate::specs::Commands::patched))]
fn patch(bytes: &mut [u8], at: usize, piece: &[u8])
    requires { at + length piece.now ≤ length bytes.old }
    ensures { bytes.new ≡ patched bytes.old at piece.now }
{
    bytes[at..at + piece.len()].copy_from_slice(piece);
}

/// The byte offset of an object's checksum.
fn checksum_at(kind: ObjectType) -> usize
    ensures value { result ≡ checksum_at kind }
    ensures inside { result + 4 ≤ object_size kind }
{
    match kind {
        ObjectType::Sb => SUPER_CRC,
        ObjectType::Agf => AGF_CRC,
        ObjectType::Agi => AGI_CRC,
        ObjectType::Agfl => AGFL_CRC,
        ObjectType::Inode => INODE_CRC,
        ObjectType::Bmapbt => LONG_CRC,
        _ => SHORT_CRC,
    }
}
