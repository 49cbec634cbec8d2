//! What has a name in an object: fields, entries of arrays, and of a block of a tree records, keys and pointers.

ghost use Rattle.std.specs.Prelude.{◌≡◌, ℕ, ◌+◌, ◌*◌, ◌<◌, ◌≤◌, ◌^◌, ◌++◌, bytes_eq, codes, decimal, length, map, take, drop, IsTrue, IfOk, IfSome, OnOk};
ghost use Rattle.std.specs.List.{find, list_all};
ghost use Rattle.std.specs.Option.{option_map};
ghost use Rattle.xfs_tree.specs.Layout.{IsLayout, pointer_len, keys_len};
ghost use Rattle.xfs_word.specs.Field.{is_width};
ghost use Rattle.xfs_objects.specs.Items.{agfl_items, agi_items, aliases_of, array_items, block_items, child_items, field_item, is_inside, is_shown, item_named, item_of, number_width, record_items, run_items, row_len, shape_len, AllInside};
ghost use Rattle.xfs_objects.specs.Objects.{object_size};
ghost use Rattle.xfs_word.specs.declared.layout.FieldLayout.{FieldLayout};
ghost use Rattle.xfs_objects.specs.declared.items.ItemShape.TheVariants as ItemShape;

use crate::aliases::INODE_ALIASES;
use crate::listed::items;
use crate::objects::ObjectType;
use itoa::Buffer;
use std::alloc::Global;
use xfs_disk::NoMemory;
use xfs_heads::ArrayLayout;
use xfs_heads::layouts::agfl::{AGFL, BNO};
use xfs_heads::layouts::agi::{AGI, UNLINKED};
use xfs_tree::{Layout, SHORT};
use xfs_word::{FieldLayout, Form, get16};

/// How many fields of the header of inodes stand before its array.
const BEFORE_UNLINKED: usize = 10;

/// The byte offsets of a tree block's level and of its number of records, in both headers.
const LEVEL: usize = SHORT[1].offset;

const NUMRECS: usize = SHORT[2].offset;

/// Numbers that stand side by side and are printed as one.
#[derive(Clone, Copy)]
pub enum PrintedRow {
    /// A record or key of the trees of free runs.
    Span,
    /// A record of the trees of inodes.
    Chunk,
    /// A key of the trees of inodes.
    ChunkStart,
    /// A record of the tree of owners.
    Owner,
    /// The low and the high key of the tree of owners.
    OwnerKeys,
    /// A record of the tree of a file's extents.
    FileExtent,
    /// A key of the tree of a file's extents.
    FileOffset,
}

/// How an item is shown. Widths are in bytes.
#[derive(Clone, Copy)]
pub enum ItemShape {
    /// A field or an entry of an array.
    Field { width: usize, form: Form },
    /// A pointer to a block of a tree.
    Pointer { width: usize },
    /// A record or a key.
    Numbers(PrintedRow),
}

/// What has a name in an object: where it stands there, in bytes, and how it is shown.
#[derive(Clone, Copy)]
pub struct Item {
    pub name: &'static str,
    /// The index behind the name.
    pub index: Option<u32>,
    pub offset: usize,
    pub shape: ItemShape,
}

/// The items of an object that has fields alone.
pub(crate) fn sector_items(alloc: Global, fields: &[FieldLayout]) -> Result<Vec<Item>, NoMemory>
    requires { IsTrue (list_all (λ (f : FieldLayout). is_inside 512 (field_item f)) fields.now) }
    ensures items { IfOk result (λ items. map item_of items.items ≡ map field_item fields.now) }
    ensures inside { IfOk result (λ items. AllInside 512 items.items) }
{
    let mut items = Vec::new(alloc);
    push_fields(&mut items, fields, 512)?;
    Ok(items)
}

/// The items of a header of inodes.
pub(crate) fn inode_head_items(alloc: Global) -> Result<Vec<Item>, NoMemory>
    ensures items { IfOk result (λ items. map item_of items.items ≡ agi_items) }
    ensures inside { IfOk result (λ items. AllInside 512 items.items) }
{
    let mut items = Vec::new(alloc);
    push_fields(&mut items, &AGI[..BEFORE_UNLINKED], 512)?;
    push_array(&mut items, &UNLINKED)?;
    push_fields(&mut items, &AGI[BEFORE_UNLINKED..], 512)?;
    Ok(items)
}

/// The items of a free list.
pub(crate) fn free_list_items(alloc: Global) -> Result<Vec<Item>, NoMemory>
    ensures items { IfOk result (λ items. map item_of items.items ≡ agfl_items) }
    ensures inside { IfOk result (λ items. AllInside 512 items.items) }
{
    let mut items = Vec::new(alloc);
    push_fields(&mut items, &AGFL, 512)?;
    push_array(&mut items, &BNO)?;
    Ok(items)
}

/// The items of a block of a tree: its header, and then its records, or its keys and pointers.
#[tactic(auto, unfolding(crate::specs::Items::tree_items))]
pub(crate) fn block_items(
    alloc: Global,
    fields: &[FieldLayout],
    layout: &Layout,
    leaf_row: PrintedRow,
    node_row: PrintedRow,
    block: &[u8],
) -> Result<Vec<Item>, NoMemory>
    requires fields { IsTrue (list_all (λ (f : FieldLayout). is_inside 4096 (field_item f)) fields.now) }
    requires layout { IsLayout layout.now }
    requires leaf { row_len leaf_row ≡ layout.now.record_len }
    requires node { row_len node_row ≡ keys_len layout.now }
    requires block { length block.now ≡ 4096 }
    ensures items { IfOk result (λ items. map item_of items.items ≡ block_items (map field_item fields.now) layout.now leaf_row node_row block.now) }
    ensures inside { IfOk result (λ items. AllInside 4096 items.items) }
{
    let mut items = Vec::new(alloc);
    push_fields(&mut items, fields, 4096)?;
    if get16(block, LEVEL) == 0 {
        push_records(&mut items, layout, leaf_row, block)?;
    } else {
        push_children(&mut items, layout, node_row, block)?;
    }
    Ok(items)
}

/// Adds the records of a leaf.
fn push_records(
    items: &mut Vec<Item>,
    layout: &Layout,
    row: PrintedRow,
    block: &[u8],
) -> Result<(), NoMemory>
    requires layout { IsLayout layout.now }
    requires row { row_len row ≡ layout.now.record_len }
    requires block { length block.now ≡ 4096 }
    requires inside { AllInside 4096 items.old.items }
    ensures items { OnOk result (map item_of items.new.items ≡ map item_of items.old.items ++ record_items layout.now row block.now) }
    ensures inside { OnOk result (AllInside 4096 items.new.items) }
{
    let run = ItemRun {
        name: "recs",
        first: 1,
        count: (get16(block, NUMRECS) as u64).min(layout.leaf_cap) as u32,
        offset: layout.header_len(),
        step: layout.record_len,
        shape: ItemShape::Numbers(row),
    };
    push_run(items, &run, 4096)
}

/// Adds the keys and the pointers of a node.
fn push_children(
    items: &mut Vec<Item>,
    layout: &Layout,
    row: PrintedRow,
    block: &[u8],
) -> Result<(), NoMemory>
    requires layout { IsLayout layout.now }
    requires row { row_len row ≡ keys_len layout.now }
    requires block { length block.now ≡ 4096 }
    requires inside { AllInside 4096 items.old.items }
    ensures items { OnOk result (map item_of items.new.items ≡ map item_of items.old.items ++ child_items layout.now row block.now) }
    ensures inside { OnOk result (AllInside 4096 items.new.items) }
{
    let count = (get16(block, NUMRECS) as u64).min(layout.node_cap) as u32;
    let keys_len = keys_len(layout);
    let keys = ItemRun {
        name: "keys",
        first: 1,
        count,
        offset: layout.header_len(),
        step: keys_len,
        shape: ItemShape::Numbers(row),
    };
    push_run(items, &keys, 4096)?;
    let pointers = ItemRun {
        name: "ptrs",
        first: 1,
        count,
        offset: layout.header_len() + layout.node_cap as usize * keys_len,
        step: layout.pointer_len(),
        shape: ItemShape::Pointer {
            width: layout.pointer_len(),
        },
    };
    push_run(items, &pointers, 4096)
}

/// The bytes of a child's key, or of its pair of keys.
fn keys_len(layout: &Layout) -> usize
    requires { IsLayout layout.now }
    ensures { result ≡ keys_len layout.now }
{
    if layout.high {
        2 * layout.key_len
    } else {
        layout.key_len
    }
}

/// Items of one name that stand side by side, `step` bytes from one to the next, with indexes from the first on.
#[derive(Clone, Copy)]
struct ItemRun {
    name: &'static str,
    first: u32,
    count: u32,
    offset: usize,
    step: usize,
    shape: ItemShape,
}

/// Adds the entries of an array of a sector.
fn push_array(items: &mut Vec<Item>, array: &ArrayLayout) -> Result<(), NoMemory>
    requires array { array.now.offset + array.now.count * 4 ≤ 512 }
    requires shown { IsTrue (is_shown (ItemShape.Field 4 array.now.form)) }
    requires inside { AllInside 512 items.old.items }
    ensures items { OnOk result (map item_of items.new.items ≡ map item_of items.old.items ++ array_items array.now) }
    ensures inside { OnOk result (AllInside 512 items.new.items) }
{
    let run = ItemRun {
        name: array.name,
        first: 0,
        count: array.count as u32,
        offset: array.offset,
        step: 4,
        shape: ItemShape::Field {
            width: 4,
            form: array.form,
        },
    };
    push_run(items, &run, 512)
}

/// Adds the items of a run, which lies in an object of so many bytes.
fn push_run(items: &mut Vec<Item>, run: &ItemRun, size: usize) -> Result<(), NoMemory>
    requires indexes { run.now.first + run.now.count < 2 ^ 32 }
    requires run { run.now.offset + run.now.count * run.now.step ≤ size }
    requires object { size ≤ 4096 }
    requires step { shape_len run.now.shape ≤ run.now.step }
    requires shown { IsTrue (is_shown run.now.shape) }
    requires inside { AllInside size items.old.items }
    ensures items { OnOk result (map item_of items.new.items ≡ map item_of items.old.items ++ run_items run.now) }
    ensures inside { OnOk result (AllInside size items.new.items) }
{
    for i in 0..run.count {
        items.push(Item {
            name: run.name,
            index: Some(run.first + i),
            offset: run.offset + i as usize * run.step,
            shape: run.shape,
        })?;
    }
    Ok(())
}

/// Adds fields, which lie in an object of so many bytes.
#[tactic(auto, using(crate::proofs::Fields::fields_inside))]
fn push_fields(items: &mut Vec<Item>, fields: &[FieldLayout], size: usize) -> Result<(), NoMemory>
    requires fields { IsTrue (list_all (λ (f : FieldLayout). is_inside size (field_item f)) fields.now) }
    requires inside { AllInside size items.old.items }
    ensures items { OnOk result (map item_of items.new.items ≡ map item_of items.old.items ++ map field_item fields.now) }
    ensures inside { OnOk result (AllInside size items.new.items) }
{
    for field in fields {
        items.push(Item {
            name: field.name,
            index: None,
            offset: field.offset,
            shape: ItemShape::Field {
                width: field.width,
                form: field.form,
            },
        })?;
    }
    Ok(())
}

/// What a word names in an object, under its name in the tables or under that of xfsprogs.
#[tactic(auto, unfolding(crate::specs::Items::item_named))]
pub fn named_item(
    alloc: Global,
    kind: ObjectType,
    object: &[u8],
    word: &[u8],
) -> Result<Option<Item>, NoMemory>
    requires { length object.now ≡ object_size kind }
    ensures value { IfOk result (λ found. option_map item_of found ≡ item_named kind object.now word.now) }
    ensures inside { IfOk result (λ found. IfSome found (λ item. IsTrue (is_inside (object_size kind) (item_of item)))) }
{
    let mut items = items(alloc, kind, object)?;
    push_aliases(&mut items, kind)?;
    find_item(alloc, items.as_slice(), word)
}

/// Adds what has another name in an object.
fn push_aliases(items: &mut Vec<Item>, kind: ObjectType) -> Result<(), NoMemory>
    requires { AllInside (object_size kind) items.old.items }
    ensures items { OnOk result (map item_of items.new.items ≡ map item_of items.old.items ++ aliases_of kind) }
    ensures inside { OnOk result (AllInside (object_size kind) items.new.items) }
{
    match kind {
        ObjectType::Inode => push_fields(items, &INODE_ALIASES, 512),
        _ => Ok(()),
    }
}

/// The first of the items that has this name.
fn find_item(alloc: Global, items: &[Item], name: &[u8]) -> Result<Option<Item>, NoMemory>
    ensures found { IfOk result (λ found. option_map item_of found ≡ find (λ i. bytes_eq i.name name.now) (map item_of items.now)) }
    ensures among { IfOk result (λ found. IfSome found (λ item. (size : ℕ) → AllInside size items.now → IsTrue (is_inside size (item_of item)))) }
{
    for item in items {
        if is_named(alloc, item, name)? {
            return Ok(Some(*item));
        }
    }
    Ok(None)
}

/// Whether an item has this name.
fn is_named(alloc: Global, item: &Item, name: &[u8]) -> Result<bool, NoMemory>
    ensures { IfOk result (λ named. named ≡ bytes_eq (item_of item.now).name name.now) }
{
    let mut text = Vec::new(alloc);
    push_name(&mut text, item)?;
    Ok(text.as_slice() == name)
}

/// Adds the name of an item to a text.
pub(crate) fn push_name(text: &mut Vec<u8>, item: &Item) -> Result<(), NoMemory>
    ensures { OnOk result (text.new.items ≡ text.old.items ++ (item_of item.now).name) }
{
    text.extend_from_slice(item.name.as_bytes())?;
    match item.index {
        None => Ok(()),
        Some(index) => push_index(text, index),
    }
}

/// Adds an index in brackets to a text.
fn push_index(text: &mut Vec<u8>, index: u32) -> Result<(), NoMemory>
    ensures { OnOk result (text.new.items ≡ text.old.items ++ (codes "[" ++ decimal index ++ codes "]")) }
{
    text.extend_from_slice(b"[")?;
    text.extend_from_slice(Buffer::new().format(index).as_bytes())?;
    text.extend_from_slice(b"]")?;
    Ok(())
}

/// The bytes of a number that can be set, where what is shown so is one.
pub fn number_width(shape: ItemShape) -> Option<usize>
    ensures value { result ≡ number_width shape }
    ensures width { IsTrue (is_shown shape) → IfSome result (λ width. IsTrue (is_width width)) }
    ensures long { IfSome result (λ width. width ≡ shape_len shape) }
{
    match shape {
        ItemShape::Field { width, form } => match form {
            Form::Decimal | Form::Hexadecimal => Some(width),
            _ => None,
        },
        ItemShape::Pointer { width } => Some(width),
        ItemShape::Numbers(_) => None,
    }
}
