//! The commands that look at an object: its items are printed, and their pointers followed.

ghost use Rattle.std.specs.Prelude.{◌≡◌, ℕ, ◌/◌, ◌<◌, ◌++◌, length, Some, None, not, IfOk, IfSome, OnOk, IsTrue};
ghost use Rattle.std.specs.List.{find};
ghost use Rattle.std.specs.Option.{option_copied, option_map};
ghost use Rattle.xfs_geom.specs.Volumes.{volume_of};
ghost use Rattle.xfs_commands.specs.Commands.{addresses, follows, follows_item, goes_to, in_group, is_unknown, line_named, lines_named, prints, prints_named, root_type, session_of, target_block, target_type, IsEffect, IsWithin};
ghost use Rattle.xfs_objects.specs.Items.{is_inside, item_named, item_of, number_width};
ghost use Rattle.xfs_objects.specs.declared.objects.ObjectType.TheVariants as ObjectType;
ghost use Rattle.xfs_objects.specs.Objects.{object_size};
ghost use Rattle.xfs_objects.specs.Places.{first_sector, pair_of};

use crate::cursor::{Cursor, Verdict, refuse_word};
use crate::moves::go_to;
use std::alloc::Global;
use xfs_disk::{NoMemory, Word};
use xfs_geom::Geometry;
use xfs_heads::layouts::{agf, agi};
use xfs_objects::{
    Item, ItemShape, ObjectPlace, ObjectType, Spot, named_item, number_width, push_line,
    push_whole, spot_of_address,
};
use xfs_word::field;

/// Prints the items that words name, or without words all of the object.
#[tactic(auto, unfolding(crate::specs::Commands::prints))]
pub fn print(
    alloc: Global,
    text: &mut Vec<u8>,
    cursor: &Cursor,
    kind: ObjectType,
    object: &[u8],
    words: &[Word],
) -> Result<Verdict, NoMemory>
    requires { length object.now ≡ object_size kind }
    ensures { IfOk result (λ verdict. IsEffect (prints kind object.now words.now (session_of cursor.now)) verdict text.old.items text.new.items (session_of cursor.now) None) }
{
    if words.is_empty() {
        push_whole(alloc, text, kind, object)?;
        return Ok(Verdict::Done);
    }
    print_named(alloc, text, cursor, kind, object, words)
}

/// Prints the items that words name.
fn print_named(
    alloc: Global,
    text: &mut Vec<u8>,
    cursor: &Cursor,
    kind: ObjectType,
    object: &[u8],
    words: &[Word],
) -> Result<Verdict, NoMemory>
    requires { length object.now ≡ object_size kind }
    ensures { IfOk result (λ verdict. IsEffect (prints_named kind object.now words.now (find (is_unknown kind object.now) words.now) (session_of cursor.now)) verdict text.old.items text.new.items (session_of cursor.now) None) }
{
    match find_unknown(alloc, kind, object, words)? {
        Some(word) => refuse_word(text, "no field: ", word.bytes()),
        None => {
            push_named(alloc, text, kind, object, words)?;
            Ok(Verdict::Done)
        }
    }
}

/// The first of the words that names nothing in an object.
fn find_unknown<'a>(
    alloc: Global,
    kind: ObjectType,
    object: &[u8],
    words: &'a [Word],
) -> Result<Option<&'a Word>, NoMemory>
    requires { length object.now ≡ object_size kind }
    ensures { IfOk result (λ found. option_copied found ≡ find (is_unknown kind object.now) words.now) }
{
    for word in words {
        if !is_known(alloc, kind, object, word.bytes())? {
            return Ok(Some(word));
        }
    }
    Ok(None)
}

/// Whether a word names something in an object.
fn is_known(alloc: Global, kind: ObjectType, object: &[u8], word: &[u8]) -> Result<bool, NoMemory>
    requires { length object.now ≡ object_size kind }
    ensures { IfOk result (λ known. is_unknown kind object.now word.now ≡ not known) }
{
    let found = named_item(alloc, kind, object, word)?;
    Ok(found.is_some())
}

/// Adds the lines of the items that words name.
fn push_named(
    alloc: Global,
    text: &mut Vec<u8>,
    kind: ObjectType,
    object: &[u8],
    words: &[Word],
) -> Result<(), NoMemory>
    requires { length object.now ≡ object_size kind }
    ensures { OnOk result (text.new.items ≡ text.old.items ++ lines_named kind object.now words.now) }
{
    for word in words {
        push_named_line(alloc, text, kind, object, word.bytes())?;
    }
    Ok(())
}

/// Adds the line of the item that a word names.
fn push_named_line(
    alloc: Global,
    text: &mut Vec<u8>,
    kind: ObjectType,
    object: &[u8],
    word: &[u8],
) -> Result<(), NoMemory>
    requires { length object.now ≡ object_size kind }
    ensures { OnOk result (text.new.items ≡ text.old.items ++ line_named object.now (item_named kind object.now word.now)) }
{
    match named_item(alloc, kind, object, word)? {
        Some(item) => push_line(text, object, &item),
        None => Ok(()),
    }
}

/// Goes to the block that an item of the object at a place points at.
#[tactic(auto, unfolding(crate::specs::Commands::addresses))]
pub fn go_along(
    alloc: Global,
    text: &mut Vec<u8>,
    geometry: &Geometry,
    cursor: &mut Cursor,
    place: ObjectPlace,
    object: &[u8],
    word: &[u8],
) -> Result<Verdict, NoMemory>
    requires object { length object.now ≡ object_size place.kind }
    requires block { place.block < geometry.now.dblocks }
    requires within { IsWithin geometry.now.dblocks (session_of cursor.old) }
    ensures within { IsWithin geometry.now.dblocks (session_of cursor.new) }
    ensures effect { IfOk result (λ verdict. IsEffect (addresses (volume_of geometry.now) place object.now word.now (session_of cursor.old)) verdict text.old.items text.new.items (session_of cursor.new) None) }
{
    match named_item(alloc, place.kind, object, word)? {
        Some(item) => go_along_item(text, geometry, cursor, place, object, word, &item),
        None => refuse_word(text, "no field: ", word),
    }
}

/// Goes to the block that an item points at, where it points at one.
fn go_along_item(
    text: &mut Vec<u8>,
    geometry: &Geometry,
    cursor: &mut Cursor,
    place: ObjectPlace,
    object: &[u8],
    word: &[u8],
    item: &Item,
) -> Result<Verdict, NoMemory>
    requires object { length object.now ≡ object_size place.kind }
    requires block { place.block < geometry.now.dblocks }
    requires inside { IsTrue (is_inside (object_size place.kind) (item_of item.now)) }
    requires within { IsWithin geometry.now.dblocks (session_of cursor.old) }
    ensures within { IsWithin geometry.now.dblocks (session_of cursor.new) }
    ensures effect { IfOk result (λ verdict. IsEffect (follows_item (volume_of geometry.now) place object.now word.now (Some (item_of item.now)) (session_of cursor.old)) verdict text.old.items text.new.items (session_of cursor.new) None) }
{
    match target_type(place.kind, word, item.shape) {
        Some(kind) => go_along_kind(text, geometry, cursor, place, object, word, item, kind),
        None => refuse_word(text, "no field: ", word),
    }
}

/// Goes to the block of this type that an item points at, where it holds a number.
fn go_along_kind(
    text: &mut Vec<u8>,
    geometry: &Geometry,
    cursor: &mut Cursor,
    place: ObjectPlace,
    object: &[u8],
    word: &[u8],
    item: &Item,
    kind: ObjectType,
) -> Result<Verdict, NoMemory>
    requires object { length object.now ≡ object_size place.kind }
    requires block { place.block < geometry.now.dblocks }
    requires inside { IsTrue (is_inside (object_size place.kind) (item_of item.now)) }
    requires within { IsWithin geometry.now.dblocks (session_of cursor.old) }
    ensures within { IsWithin geometry.now.dblocks (session_of cursor.new) }
    ensures effect { IfOk result (λ verdict. IsEffect (follows (volume_of geometry.now) place object.now word.now item.now.offset (Some kind) (number_width item.now.shape) (session_of cursor.old)) verdict text.old.items text.new.items (session_of cursor.new) None) }
{
    match number_width(item.shape) {
        Some(width) => go_along_pointer(
            text,
            geometry,
            cursor,
            place,
            kind,
            field(object, item.offset, width),
        ),
        None => refuse_word(text, "no field: ", word),
    }
}

/// Goes to the block of this type that a pointer in the object at a place names.
fn go_along_pointer(
    text: &mut Vec<u8>,
    geometry: &Geometry,
    cursor: &mut Cursor,
    place: ObjectPlace,
    kind: ObjectType,
    pointer: u64,
) -> Result<Verdict, NoMemory>
    requires block { place.block < geometry.now.dblocks }
    requires within { IsWithin geometry.now.dblocks (session_of cursor.old) }
    ensures within { IsWithin geometry.now.dblocks (session_of cursor.new) }
    ensures effect { IfOk result (λ verdict. IsEffect (goes_to kind (first_sector (target_block (volume_of geometry.now) place.kind place.block pointer)) (session_of cursor.old)) verdict text.old.items text.new.items (session_of cursor.new) None) }
{
    go_to(text, cursor, kind, target(geometry, place, pointer))
}

/// The type of the block that an item of this name points at, where it points at one.
fn target_type(kind: ObjectType, name: &[u8], shape: ItemShape) -> Option<ObjectType>
    ensures { result ≡ target_type kind name.now shape }
{
    match shape {
        ItemShape::Pointer { .. } => Some(kind),
        ItemShape::Field { .. } => root_type(kind, name),
        ItemShape::Numbers(_) => None,
    }
}

/// The type of the tree whose root a field of this name names.
fn root_type(kind: ObjectType, name: &[u8]) -> Option<ObjectType>
    ensures { result ≡ root_type kind name.now }
{
    match kind {
        ObjectType::Agf => free_root_type(name),
        ObjectType::Agi => inode_root_type(name),
        _ => None,
    }
}

/// The type of the tree whose root a field of a header of free space names.
fn free_root_type(name: &[u8]) -> Option<ObjectType>
    ensures { result ≡ root_type ObjectType.Agf name.now }
{
    if name == agf::BNOROOT.name.as_bytes() {
        Some(ObjectType::Bnobt)
    } else if name == agf::CNTROOT.name.as_bytes() {
        Some(ObjectType::Cntbt)
    } else if name == agf::RMAPROOT.name.as_bytes() {
        Some(ObjectType::Rmapbt)
    } else {
        None
    }
}

/// The type of the tree whose root a field of a header of inodes names.
fn inode_root_type(name: &[u8]) -> Option<ObjectType>
    ensures { result ≡ root_type ObjectType.Agi name.now }
{
    if name == agi::ROOT.name.as_bytes() {
        Some(ObjectType::Inobt)
    } else if name == agi::FREE_ROOT.name.as_bytes() {
        Some(ObjectType::Finobt)
    } else {
        None
    }
}

/// The block of a pointer that stands in the object at a place.
#[tactic(auto, unfolding(crate::specs::Commands::target_block))]
fn target(geometry: &Geometry, place: ObjectPlace, pointer: u64) -> Option<Spot>
    requires { place.block < geometry.now.dblocks }
    ensures value { option_map pair_of result ≡ first_sector (target_block (volume_of geometry.now) place.kind place.block pointer) }
    ensures inside { IfSome result (λ spot. (spot.block < geometry.now.dblocks) × (spot.sector < 8)) }
{
    match place.kind {
        ObjectType::Bmapbt => spot_of_address(geometry, pointer),
        _ => spot_in_group(geometry, place.block, pointer),
    }
}

/// An AG block of the group that has a block, where it is there.
fn spot_in_group(geometry: &Geometry, block: u64, ag_block: u64) -> Option<Spot>
    requires { block < geometry.now.dblocks }
    ensures value { option_map pair_of result ≡ first_sector (in_group (volume_of geometry.now) (block / geometry.now.agblocks) ag_block) }
    ensures inside { IfSome result (λ spot. (spot.block < geometry.now.dblocks) × (spot.sector < 8)) }
{
    let group = group_of(geometry, block);
    if ag_block < geometry.group_length(group) as u64 {
        Some(Spot {
            block: geometry.start_of_group(group) + ag_block,
            sector: 0,
        })
    } else {
        None
    }
}

/// The number of the group that has a block.
#[tactic(auto, using(crate::proofs::Groups::group_below))]
fn group_of(geometry: &Geometry, block: u64) -> u32
    requires { block < geometry.now.dblocks }
    ensures value { result ≡ block / geometry.now.agblocks }
    ensures inside { result < geometry.now.agcount }
{
    (block / geometry.agblocks as u64) as u32
}
