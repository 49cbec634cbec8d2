//! How the values of items are printed.

ghost use Rattle.std.specs.Prelude.{◌≡◌, ℕ, ◌+◌, ◌*◌, ◌/◌, ◌%◌, ◌<◌, ◌≤◌, ◌++◌, ◌∷◌, codes, decimal, length, map, false, not, ◌==◌, IsTrue, OnOk};
ghost use Rattle.std.specs.Fmt.{digit_glyph};
ghost use Rattle.std.specs.List.{flat_map, range_with_len, take_while};
ghost use Rattle.xfs_word.specs.Field.{field_of, is_width};
ghost use Rattle.xfs_objects.specs.Items.{is_inside, is_shown, item_of, row_len, AllInside};
ghost use Rattle.xfs_objects.specs.Objects.{object_size};
ghost use Rattle.uuid.specs.Text.{hyphenated_text};
ghost use Rattle.xfs_objects.specs.declared.items.PrintedRow.TheVariants as PrintedRow;
ghost use Rattle.xfs_objects.specs.declared.items.ItemShape.TheVariants as ItemShape;
ghost use Rattle.xfs_word.specs.declared.layout.Form.TheVariants as Form;
ghost use Rattle.xfs_objects.specs.Values.{dump, dump_line, escaped, field_text, group_text, item_line, item_lines, joined_numbers, row_numbers, offset_text, pair, pairs, quoted, shape_text, value_text, whole_text};

use crate::items::{Item, ItemShape, PrintedRow, push_name};
use crate::listed::items;
use crate::objects::ObjectType;
use itoa::Buffer;
use std::alloc::Global;
use uuid::Uuid;
use xfs_disk::NoMemory;
use xfs_kinds::Bmbt;
use xfs_kinds::layouts::{extent_key, inode_chunk, owner, owner_key, span};
use xfs_tree::Kind;
use xfs_word::{FieldLayout, Form, field, is_checksum_right, part, stored_checksum};

/// The bytes of a line of a dump, and of a group of it.
const LINE: usize = 32;

const GROUP: usize = 4;

/// Adds everything in an object that has a name, or bytes of no type as they are.
#[tactic(auto, unfolding(crate::specs::Values::whole_text))]
pub fn push_whole(
    alloc: Global,
    text: &mut Vec<u8>,
    kind: ObjectType,
    object: &[u8],
) -> Result<(), NoMemory>
    requires { length object.now ≡ object_size kind }
    ensures { OnOk result (text.new.items ≡ text.old.items ++ whole_text kind object.now) }
{
    if kind == ObjectType::Data {
        push_dump(text, object)
    } else {
        let items = items(alloc, kind, object)?;
        push_lines(text, object, items.as_slice())
    }
}

/// Adds the lines of items of an object.
#[tactic(auto, unfolding(crate::specs::Values::item_lines))]
fn push_lines(text: &mut Vec<u8>, object: &[u8], items: &[Item]) -> Result<(), NoMemory>
    requires { AllInside (length object.now) items.now }
    ensures { OnOk result (text.new.items ≡ text.old.items ++ item_lines object.now (map item_of items.now)) }
{
    for item in items {
        push_line(text, object, item)?;
    }
    Ok(())
}

/// Adds the line of an item of an object.
#[tactic(auto, unfolding(crate::specs::Values::item_line))]
pub fn push_line(text: &mut Vec<u8>, object: &[u8], item: &Item) -> Result<(), NoMemory>
    requires { IsTrue (is_inside (length object.now) (item_of item.now)) }
    ensures { OnOk result (text.new.items ≡ text.old.items ++ item_line object.now (item_of item.now)) }
{
    push_name(text, item)?;
    push_behind_name(text, object, item)
}

/// Adds what stands behind the name of an item of an object in its line.
fn push_behind_name(text: &mut Vec<u8>, object: &[u8], item: &Item) -> Result<(), NoMemory>
    requires { IsTrue (is_inside (length object.now) (item_of item.now)) }
    ensures { OnOk result (text.new.items ≡ text.old.items ++ (codes " = " ++ value_text object.now (item_of item.now) ++ codes "\n")) }
{
    text.extend_from_slice(b" = ")?;
    push_value(text, object, item)?;
    text.extend_from_slice(b"\n")?;
    Ok(())
}

/// Adds the value of an item of an object.
fn push_value(text: &mut Vec<u8>, object: &[u8], item: &Item) -> Result<(), NoMemory>
    requires { IsTrue (is_inside (length object.now) (item_of item.now)) }
    ensures { OnOk result (text.new.items ≡ text.old.items ++ value_text object.now (item_of item.now)) }
{
    match item.shape {
        ItemShape::Field { width, form } => push_field(text, object, form, item.offset, width),
        ItemShape::Pointer { width } => push_decimal(text, field(object, item.offset, width)),
        ItemShape::Numbers(row) => push_row(text, object, row, item.offset),
    }
}

/// Adds the value of a field of this form.
fn push_field(
    text: &mut Vec<u8>,
    object: &[u8],
    form: Form,
    at: usize,
    width: usize,
) -> Result<(), NoMemory>
    requires inside { at + width ≤ length object.now }
    requires shown { IsTrue (is_shown (ItemShape.Field width form)) }
    ensures { OnOk result (text.new.items ≡ text.old.items ++ field_text form object.now at width) }
{
    match form {
        Form::Decimal => push_decimal(text, field(object, at, width)),
        Form::Hexadecimal => push_hexadecimal(text, part(object, at, width)),
        Form::Identifier => push_identifier(text, part(object, at, width)),
        Form::Text => push_quoted(text, part(object, at, width)),
        Form::Checksum => push_checksum(text, object, at),
    }
}

/// Adds a decimal number.
pub fn push_decimal(text: &mut Vec<u8>, number: u64) -> Result<(), NoMemory>
    ensures { OnOk result (text.new.items ≡ text.old.items ++ decimal number) }
{
    text.extend_from_slice(Buffer::new().format(number).as_bytes())?;
    Ok(())
}

/// Adds `0x` and two digits for each byte.
fn push_hexadecimal(text: &mut Vec<u8>, bytes: &[u8]) -> Result<(), NoMemory>
    ensures { OnOk result (text.new.items ≡ text.old.items ++ (codes "0x" ++ pairs bytes.now)) }
{
    text.extend_from_slice(b"0x")?;
    push_pairs(text, bytes)
}

/// Adds two digits for each byte.
#[tactic(auto, unfolding(crate::specs::Values::pairs))]
fn push_pairs(text: &mut Vec<u8>, bytes: &[u8]) -> Result<(), NoMemory>
    ensures { OnOk result (text.new.items ≡ text.old.items ++ pairs bytes.now) }
{
    for byte in bytes {
        push_pair(text, *byte)?;
    }
    Ok(())
}

/// Adds the two digits of a byte.
fn push_pair(text: &mut Vec<u8>, byte: u8) -> Result<(), NoMemory>
    ensures { OnOk result (text.new.items ≡ text.old.items ++ pair byte) }
{
    text.extend_from_slice(&[glyph(byte / 16), glyph(byte % 16)])?;
    Ok(())
}

/// The digit of a number below 16.
pub(crate) fn glyph(digit: u8) -> u8
    requires { digit < 16 }
    ensures { result ≡ digit_glyph false digit }
{
    if digit < 10 {
        b'0' + digit
    } else {
        b'a' + (digit - 10)
    }
}

/// Adds an identifier as hyphenated text.
fn push_identifier(text: &mut Vec<u8>, bytes: &[u8]) -> Result<(), NoMemory>
    requires { length bytes.now ≡ 16 }
    ensures { OnOk result (text.new.items ≡ text.old.items ++ hyphenated_text 97 bytes.now) }
{
    let mut identifier = [0; 16];
    identifier.copy_from_slice(bytes);
    let mut buffer = Uuid::encode_buffer();
    let hyphenated = Uuid::from_bytes(identifier).hyphenated();
    text.extend_from_slice(hyphenated.encode_lower(&mut buffer).as_bytes())?;
    Ok(())
}

/// Adds a text in double quotes, up to the first zero byte.
#[tactic(auto, unfolding(crate::specs::Values::quoted))]
fn push_quoted(text: &mut Vec<u8>, bytes: &[u8]) -> Result<(), NoMemory>
    ensures { OnOk result (text.new.items ≡ text.old.items ++ quoted bytes.now) }
{
    text.extend_from_slice(b"\"")?;
    push_escaped(text, bytes)?;
    text.extend_from_slice(b"\"")?;
    Ok(())
}

/// Adds the bytes before the first zero byte, those that don't print as octal numbers.
fn push_escaped(text: &mut Vec<u8>, bytes: &[u8]) -> Result<(), NoMemory>
    ensures { OnOk result (text.new.items ≡ text.old.items ++ flat_map escaped (take_while (λ byte. not (byte == 0)) bytes.now)) }
{
    for byte in bytes {
        if *byte == 0 {
            return Ok(());
        }
        push_byte(text, *byte)?;
    }
    Ok(())
}

/// Adds a byte of a text.
fn push_byte(text: &mut Vec<u8>, byte: u8) -> Result<(), NoMemory>
    ensures { OnOk result (text.new.items ≡ text.old.items ++ escaped byte) }
{
    if 0x20 <= byte && byte <= 0x7e {
        text.push(byte)?;
    } else {
        text.extend_from_slice(&[
            b'\\',
            b'0' + byte / 64,
            b'0' + byte / 8 % 8,
            b'0' + byte % 8,
        ])?;
    }
    Ok(())
}

/// Adds a checksum, and whether it is that of its object.
fn push_checksum(text: &mut Vec<u8>, object: &[u8], at: usize) -> Result<(), NoMemory>
    requires { at + 4 ≤ length object.now }
    ensures { OnOk result (text.new.items ≡ text.old.items ++ field_text Form.Checksum object.now at 4) }
{
    push_hexadecimal(text, &stored_checksum(object, at).to_be_bytes())?;
    let verdict: &[u8] = if is_checksum_right(object, at) {
        b" (correct)"
    } else {
        b" (bad)"
    };
    text.extend_from_slice(verdict)?;
    Ok(())
}

/// Adds the numbers of a record or a key, with commas between them.
fn push_row(text: &mut Vec<u8>, object: &[u8], row: PrintedRow, at: usize) -> Result<(), NoMemory>
    requires { at + row_len row ≤ length object.now }
    ensures { OnOk result (text.new.items ≡ text.old.items ++ joined_numbers (row_numbers row object.now at)) }
{
    match row {
        PrintedRow::Span => push_span(text, object, at),
        PrintedRow::Chunk => push_chunk(text, object, at),
        PrintedRow::ChunkStart => push_numbers(text, &[read(object, at, &inode_chunk::STARTINO)]),
        PrintedRow::Owner => push_owner(text, object, at),
        PrintedRow::OwnerKeys => push_owner_keys(text, object, at),
        PrintedRow::FileExtent => push_extent(text, object, at),
        PrintedRow::FileOffset => push_numbers(text, &[read(object, at, &extent_key::OFFSET)]),
    }
}

/// Adds the numbers of a run of free blocks.
fn push_span(text: &mut Vec<u8>, object: &[u8], at: usize) -> Result<(), NoMemory>
    requires { at + 8 ≤ length object.now }
    ensures { OnOk result (text.new.items ≡ text.old.items ++ joined_numbers (row_numbers PrintedRow.Span object.now at)) }
{
    let start = read(object, at, &span::START);
    let count = read(object, at, &span::COUNT);
    push_numbers(text, &[start, count])
}

/// Adds the numbers of a record of the trees of inodes.
fn push_chunk(text: &mut Vec<u8>, object: &[u8], at: usize) -> Result<(), NoMemory>
    requires { at + 16 ≤ length object.now }
    ensures { OnOk result (text.new.items ≡ text.old.items ++ joined_numbers (row_numbers PrintedRow.Chunk object.now at)) }
{
    let numbers = [
        read(object, at, &inode_chunk::STARTINO),
        read(object, at, &inode_chunk::HOLEMASK),
        read(object, at, &inode_chunk::COUNT),
        read(object, at, &inode_chunk::FREECOUNT),
        read(object, at, &inode_chunk::FREE),
    ];
    push_numbers(text, &numbers)
}

/// Adds the numbers of a record of the tree of owners.
fn push_owner(text: &mut Vec<u8>, object: &[u8], at: usize) -> Result<(), NoMemory>
    requires { at + 24 ≤ length object.now }
    ensures { OnOk result (text.new.items ≡ text.old.items ++ joined_numbers (row_numbers PrintedRow.Owner object.now at)) }
{
    let numbers = [
        read(object, at, &owner::START),
        read(object, at, &owner::COUNT),
        read(object, at, &owner::OWNER),
        read(object, at, &owner::OFFSET),
    ];
    push_numbers(text, &numbers)
}

/// Adds the numbers of the low and the high key of the tree of owners.
fn push_owner_keys(text: &mut Vec<u8>, object: &[u8], at: usize) -> Result<(), NoMemory>
    requires { at + 40 ≤ length object.now }
    ensures { OnOk result (text.new.items ≡ text.old.items ++ joined_numbers (row_numbers PrintedRow.OwnerKeys object.now at)) }
{
    let high = at + HIGH_KEY;
    let numbers = [
        read(object, at, &owner_key::START),
        read(object, at, &owner_key::OWNER),
        read(object, at, &owner_key::OFFSET),
        read(object, high, &owner_key::START),
        read(object, high, &owner_key::OWNER),
        read(object, high, &owner_key::OFFSET),
    ];
    push_numbers(text, &numbers)
}

/// Adds the numbers of a record of the tree of a file's extents.
fn push_extent(text: &mut Vec<u8>, object: &[u8], at: usize) -> Result<(), NoMemory>
    requires { at + 16 ≤ length object.now }
    ensures { OnOk result (text.new.items ≡ text.old.items ++ joined_numbers (row_numbers PrintedRow.FileExtent object.now at)) }
{
    let extent = Bmbt { ino: 0 }.read_record(part(object, at, 16));
    let unwritten = extent.unwritten as u64;
    push_numbers(
        text,
        &[unwritten, extent.offset, extent.start, extent.count],
    )
}

/// The bytes from a low key of the tree of owners to its high key.
const HIGH_KEY: usize = 20;

/// A field of a record that stands in an object.
fn read(object: &[u8], at: usize, layout: &FieldLayout) -> u64
    requires width { IsTrue (is_width layout.now.width) }
    requires inside { at + layout.now.offset + layout.now.width ≤ length object.now }
    ensures { result ≡ field_of object.now (at + layout.now.offset) layout.now.width }
{
    field(object, at + layout.offset, layout.width)
}

/// Adds numbers, with commas between them.
#[tactic(auto, unfolding(crate::specs::Values::joined_numbers))]
fn push_numbers(text: &mut Vec<u8>, numbers: &[u64]) -> Result<(), NoMemory>
    requires { 0 < length numbers.now }
    ensures { OnOk result (text.new.items ≡ text.old.items ++ joined_numbers numbers.now) }
{
    push_decimal(text, numbers[0])?;
    push_listed(text, &numbers[1..])
}

/// Adds numbers, with a comma before each.
fn push_listed(text: &mut Vec<u8>, numbers: &[u64]) -> Result<(), NoMemory>
    ensures { OnOk result (text.new.items ≡ text.old.items ++ flat_map (λ n. 44 ∷ decimal n) numbers.now) }
{
    for number in numbers {
        text.push(b',')?;
        push_decimal(text, *number)?;
    }
    Ok(())
}

/// Adds a block as hexadecimal numbers, 32 bytes a line.
#[tactic(auto, unfolding(crate::specs::Values::dump))]
fn push_dump(text: &mut Vec<u8>, block: &[u8]) -> Result<(), NoMemory>
    requires { length block.now ≡ 4096 }
    ensures { OnOk result (text.new.items ≡ text.old.items ++ dump block.now) }
{
    for line in 0..128 {
        push_dump_line(text, block, line)?;
    }
    Ok(())
}

/// Adds the line of this number of a dump.
#[tactic(auto, unfolding(crate::specs::Values::dump_line))]
fn push_dump_line(text: &mut Vec<u8>, block: &[u8], line: usize) -> Result<(), NoMemory>
    requires block { length block.now ≡ 4096 }
    requires line { line < 128 }
    ensures { OnOk result (text.new.items ≡ text.old.items ++ dump_line block.now line) }
{
    push_offset(text, LINE * line)?;
    push_groups(text, block, LINE * line)?;
    text.extend_from_slice(b"\n")?;
    Ok(())
}

/// Adds an offset in three digits, and a colon.
fn push_offset(text: &mut Vec<u8>, offset: usize) -> Result<(), NoMemory>
    requires { offset < 4096 }
    ensures { OnOk result (text.new.items ≡ text.old.items ++ (offset_text offset ++ codes ":")) }
{
    let high = glyph((offset / 256) as u8);
    let middle = glyph((offset / 16 % 16) as u8);
    let low = glyph((offset % 16) as u8);
    text.extend_from_slice(&[high, middle, low, b':'])?;
    Ok(())
}

/// Adds eight groups of four bytes.
fn push_groups(text: &mut Vec<u8>, block: &[u8], at: usize) -> Result<(), NoMemory>
    requires { at + 32 ≤ length block.now }
    ensures { OnOk result (text.new.items ≡ text.old.items ++ flat_map (λ g. group_text block.now (at + 4 * g)) (range_with_len 0 8)) }
{
    for group in 0..8 {
        push_group(text, block, at + GROUP * group)?;
    }
    Ok(())
}

/// Adds a blank and four bytes.
fn push_group(text: &mut Vec<u8>, block: &[u8], at: usize) -> Result<(), NoMemory>
    requires { at + 4 ≤ length block.now }
    ensures { OnOk result (text.new.items ≡ text.old.items ++ group_text block.now at) }
{
    text.push(b' ')?;
    push_pairs(text, part(block, at, GROUP))
}
