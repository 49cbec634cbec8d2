//! The commands that go to a place, and those that convert numbers.

ghost use Rattle.std.specs.Prelude.{◌≡◌, ℕ, ◌*◌, ◌<◌, ◌++◌, List, codes, length, Some, None, IfOk, IfSome, OnOk};
ghost use Rattle.xfs_geom.specs.Volumes.{volume_of};
ghost use Rattle.xfs_commands.specs.Commands.{at_group, converts, goes_to, group_start, hash_text, does, line_of_stack, session_of, sets_type, stack_line, stack_text, tells_spot, to_group, to_head, to_number, to_spot, types, IsEffect, IsWithin};
ghost use Rattle.xfs_objects.specs.Places.{pair_of};
ghost use Rattle.xfs_objects.specs.Numbers.{typed};
ghost use Rattle.xfs_objects.specs.Objects.{type_name, type_named};
ghost use Rattle.std.specs.Option.{option_map};
ghost use Rattle.std.specs.List.{flat_map, range_with_len};

use crate::cursor::{Cursor, Verdict, refuse, refuse_word};
use xfs_disk::{NoMemory, Word};
use xfs_geom::Geometry;
use xfs_objects::{
    Measure, ObjectPlace, ObjectType, Spot, Typed, push_both, push_decimal, push_hexadecimal,
    read_number,
};
use xfs_word::name_hash;

/// Goes to the header of a group, which has this sector of the group's first block. Without a word the group is 0.
#[tactic(auto, unfolding(crate::specs::Commands::to_head))]
pub(crate) fn go_to_head(
    text: &mut Vec<u8>,
    geometry: &Geometry,
    cursor: &mut Cursor,
    kind: ObjectType,
    sector: u8,
    arguments: &[Word],
) -> Result<Verdict, NoMemory>
    requires sector { sector < 8 }
    requires within { IsWithin geometry.now.dblocks (session_of cursor.old) }
    ensures within { IsWithin geometry.now.dblocks (session_of cursor.new) }
    ensures effect { IfOk result (λ verdict. IsEffect (to_head (volume_of geometry.now) kind sector arguments.now (session_of cursor.old)) verdict text.old.items text.new.items (session_of cursor.new) None) }
{
    if arguments.is_empty() {
        cursor.go(kind, Spot { block: 0, sector });
        return Ok(Verdict::Done);
    }
    go_to_group(text, geometry, cursor, kind, sector, arguments[0].bytes())
}

/// Goes to the header of the group of this number.
fn go_to_group(
    text: &mut Vec<u8>,
    geometry: &Geometry,
    cursor: &mut Cursor,
    kind: ObjectType,
    sector: u8,
    word: &[u8],
) -> Result<Verdict, NoMemory>
    requires sector { sector < 8 }
    requires within { IsWithin geometry.now.dblocks (session_of cursor.old) }
    ensures within { IsWithin geometry.now.dblocks (session_of cursor.new) }
    ensures effect { IfOk result (λ verdict. IsEffect (to_group (volume_of geometry.now) kind sector (typed word.now) word.now (session_of cursor.old)) verdict text.old.items text.new.items (session_of cursor.new) None) }
{
    match read_number(word) {
        Typed::NoNumber => refuse_word(text, "bad number: ", word),
        Typed::TooLarge => refuse_word(text, "bad number: ", word),
        Typed::Number(number) => go_to_start(
            text,
            cursor,
            kind,
            sector,
            word,
            group_start(geometry, number),
        ),
    }
}

/// The block at which the group of this number begins.
fn group_start(geometry: &Geometry, number: u64) -> Option<u64>
    ensures value { result ≡ group_start (volume_of geometry.now) number }
    ensures inside { IfSome result (λ block. block < geometry.now.dblocks) }
{
    if number < geometry.agcount as u64 {
        Some(geometry.start_of_group(number as u32))
    } else {
        None
    }
}

/// Goes to a header in the first block of a group, where the word named one.
fn go_to_start(
    text: &mut Vec<u8>,
    cursor: &mut Cursor,
    kind: ObjectType,
    sector: u8,
    word: &[u8],
    start: Option<u64>,
) -> Result<Verdict, NoMemory>
    requires sector { sector < 8 }
    ensures within { (n : ℕ) → IsWithin n (session_of cursor.old) → IfSome start (λ block. block < n) → IsWithin n (session_of cursor.new) }
    ensures effect { IfOk result (λ verdict. IsEffect (at_group kind sector start word.now (session_of cursor.old)) verdict text.old.items text.new.items (session_of cursor.new) None) }
{
    match start {
        Some(block) => {
            cursor.go(kind, Spot { block, sector });
            Ok(Verdict::Done)
        }
        None => refuse_word(text, "bad number: ", word),
    }
}

/// Goes to a place in the volume.
#[tactic(auto, unfolding(crate::specs::Commands::goes_to))]
pub(crate) fn go_to(
    text: &mut Vec<u8>,
    cursor: &mut Cursor,
    kind: ObjectType,
    spot: Option<Spot>,
) -> Result<Verdict, NoMemory>
    ensures within { (n : ℕ) → IsWithin n (session_of cursor.old) → IfSome spot (λ spot. (spot.block < n) × (spot.sector < 8)) → IsWithin n (session_of cursor.new) }
    ensures effect { IfOk result (λ verdict. IsEffect (goes_to kind (option_map pair_of spot) (session_of cursor.old)) verdict text.old.items text.new.items (session_of cursor.new) None) }
{
    match spot {
        Some(spot) => {
            cursor.go(kind, spot);
            Ok(Verdict::Done)
        }
        None => refuse(text, "out of image\n"),
    }
}

/// Goes to the place that a number of this measure stands for.
#[tactic(auto, unfolding(crate::specs::Commands::to_number))]
pub(crate) fn go_to_number(
    text: &mut Vec<u8>,
    geometry: &Geometry,
    cursor: &mut Cursor,
    measure: Measure,
    kind: ObjectType,
    word: &[u8],
) -> Result<Verdict, NoMemory>
    requires within { IsWithin geometry.now.dblocks (session_of cursor.old) }
    ensures within { IsWithin geometry.now.dblocks (session_of cursor.new) }
    ensures effect { IfOk result (λ verdict. IsEffect (to_number (volume_of geometry.now) measure kind word.now (session_of cursor.old)) verdict text.old.items text.new.items (session_of cursor.new) None) }
{
    match read_number(word) {
        Typed::NoNumber => refuse_word(text, "bad number: ", word),
        Typed::TooLarge => refuse(text, "out of image\n"),
        Typed::Number(number) => go_to(text, cursor, kind, measure.spot(geometry, number)),
    }
}

/// Prints a number of one measure as one of another.
#[tactic(auto, unfolding(crate::specs::Commands::converts))]
pub(crate) fn convert(
    text: &mut Vec<u8>,
    geometry: &Geometry,
    cursor: &Cursor,
    source: Measure,
    word: &[u8],
    target: Measure,
) -> Result<Verdict, NoMemory>
    ensures { IfOk result (λ verdict. IsEffect (converts (volume_of geometry.now) source word.now target (session_of cursor.now)) verdict text.old.items text.new.items (session_of cursor.now) None) }
{
    match read_number(word) {
        Typed::NoNumber => refuse_word(text, "bad number: ", word),
        Typed::TooLarge => refuse(text, "out of image\n"),
        Typed::Number(number) => tell_spot(
            text,
            geometry,
            cursor,
            target,
            source.spot(geometry, number),
        ),
    }
}

/// Prints the number of this measure for a place.
fn tell_spot(
    text: &mut Vec<u8>,
    geometry: &Geometry,
    cursor: &Cursor,
    measure: Measure,
    spot: Option<Spot>,
) -> Result<Verdict, NoMemory>
    requires block { IfSome spot (λ spot. spot.block < geometry.now.dblocks) }
    requires sector { IfSome spot (λ spot. spot.sector < 8) }
    ensures { IfOk result (λ verdict. IsEffect (tells_spot (volume_of geometry.now) measure (option_map pair_of spot) (session_of cursor.now)) verdict text.old.items text.new.items (session_of cursor.now) None) }
{
    match spot {
        None => refuse(text, "out of image\n"),
        Some(spot) => {
            push_both(text, measure.number(geometry, spot))?;
            Ok(Verdict::Done)
        }
    }
}

/// Prints the hash of a name.
#[tactic(auto, unfolding(crate::specs::Commands::hash_text))]
pub(crate) fn hash(text: &mut Vec<u8>, cursor: &Cursor, name: &[u8]) -> Result<Verdict, NoMemory>
    ensures { IfOk result (λ verdict. IsEffect (does (hash_text name.now) (session_of cursor.now)) verdict text.old.items text.new.items (session_of cursor.now) None) }
{
    text.extend_from_slice(b"0x")?;
    push_hexadecimal(text, name_hash(name) as u64)?;
    text.extend_from_slice(b"\n")?;
    Ok(Verdict::Done)
}

/// Prints the stack, the top first.
pub(crate) fn show_stack(text: &mut Vec<u8>, cursor: &Cursor) -> Result<Verdict, NoMemory>
    ensures { IfOk result (λ verdict. IsEffect (does (stack_text (session_of cursor.now).stack) (session_of cursor.now)) verdict text.old.items text.new.items (session_of cursor.now) None) }
{
    push_stack(text, cursor.stack.as_slice())?;
    Ok(Verdict::Done)
}

/// Adds a line for each place of a stack, the top first.
#[tactic(auto, unfolding(crate::specs::Commands::stack_text))]
fn push_stack(text: &mut Vec<u8>, stack: &[ObjectPlace]) -> Result<(), NoMemory>
    ensures { OnOk result (text.new.items ≡ text.old.items ++ stack_text stack.now) }
{
    for i in 0..stack.len() {
        push_place(text, stack, i)?;
    }
    Ok(())
}

/// Adds the line of the place of this number from the top.
fn push_place(text: &mut Vec<u8>, stack: &[ObjectPlace], i: usize) -> Result<(), NoMemory>
    requires { i < length stack.now }
    ensures { OnOk result (text.new.items ≡ text.old.items ++ line_of_stack stack.now i) }
{
    match stack.get(stack.len() - 1 - i) {
        Some(place) => push_numbered(text, i, place),
        None => Ok(()),
    }
}

/// Adds the line of a place of the stack.
fn push_numbered(text: &mut Vec<u8>, i: usize, place: &ObjectPlace) -> Result<(), NoMemory>
    ensures { OnOk result (text.new.items ≡ text.old.items ++ stack_line i (Some place.now)) }
{
    push_decimal(text, i as u64)?;
    text.extend_from_slice(b": block ")?;
    push_decimal(text, place.block)?;
    text.extend_from_slice(b" sector ")?;
    push_decimal(text, place.sector as u64)?;
    push_type(text, b" type ", place.kind)
}

/// Adds the name of a type behind a label, and the end of the line.
fn push_type(text: &mut Vec<u8>, label: &[u8], kind: ObjectType) -> Result<(), NoMemory>
    ensures { OnOk result (text.new.items ≡ text.old.items ++ (label.now ++ type_name kind ++ codes "\n")) }
{
    text.extend_from_slice(label)?;
    text.extend_from_slice(kind.name().as_bytes())?;
    text.extend_from_slice(b"\n")?;
    Ok(())
}

/// Sets the type of the current place, or prints it.
#[tactic(auto, unfolding(crate::specs::Commands::types))]
pub(crate) fn set_type(
    text: &mut Vec<u8>,
    cursor: &mut Cursor,
    place: ObjectPlace,
    arguments: &[Word],
) -> Result<Verdict, NoMemory>
    requires place { cursor.old.at ≡ Some place }
    ensures within { (n : ℕ) → IsWithin n (session_of cursor.old) → IsWithin n (session_of cursor.new) }
    ensures effect { IfOk result (λ verdict. IsEffect (types place arguments.now (session_of cursor.old)) verdict text.old.items text.new.items (session_of cursor.new) None) }
{
    if arguments.is_empty() {
        push_type(text, b"type = ", place.kind)?;
        return Ok(Verdict::Done);
    }
    set_type_named(text, cursor, place, arguments[0].bytes())
}

/// Sets the type of the current place to that of this name.
fn set_type_named(
    text: &mut Vec<u8>,
    cursor: &mut Cursor,
    place: ObjectPlace,
    word: &[u8],
) -> Result<Verdict, NoMemory>
    requires place { cursor.old.at ≡ Some place }
    ensures within { (n : ℕ) → IsWithin n (session_of cursor.old) → IsWithin n (session_of cursor.new) }
    ensures effect { IfOk result (λ verdict. IsEffect (sets_type place word.now (type_named word.now) (session_of cursor.old)) verdict text.old.items text.new.items (session_of cursor.new) None) }
{
    match ObjectType::named(word) {
        None => refuse_word(text, "no type: ", word),
        Some(kind) => {
            cursor.at = Some(ObjectPlace { kind, ..place });
            Ok(Verdict::Done)
        }
    }
}
