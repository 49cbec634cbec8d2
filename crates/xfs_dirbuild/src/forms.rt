//! Which form a directory gets.

ghost use Rattle.std.specs.Prelude.{◌≡◌, ◌+◌, ◌*◌, ◌≤◌, ◌^◌, length, All};
ghost use Rattle.xfs_dirdata.specs.Written.{IsWritableEntry, short_length, data_length};
ghost use Rattle.xfs_dirbuild.specs.Forms.{fits_single, data_count, fits_leaf, form_of, leaf_blocks, nodes_above, tree_count, value_blocks, data_blocks_of, index_blocks_of, free_blocks_of};

use xfs_dirdata::{EntryRec, data_size, short_size};
use xfs_disk::BLOCK_SIZE;

/// The form of a directory (chapter "Directories").
#[derive(Clone, Copy)]
pub enum DirectoryForm {
    /// The entries stand in the inode.
    Short,
    /// The entries and their index stand in one block.
    Single,
    /// The index is one block.
    Leaf,
    /// The index is a tree, with free blocks beside it.
    Node,
}

/// The form of a directory with these entries, beside those of itself and its parent, whose data fork has so
/// many bytes: the first form that fits (chapter "Directories").
pub fn form_of(entries: &[EntryRec], fork: usize) -> DirectoryForm
    requires writable { All IsWritableEntry entries.now }
    requires few { length entries.now ≤ 2 ^ 24 }
    ensures { result ≡ form_of entries.now fork }
{
    if fits_single(entries) {
        if HEADER_OF_SHORT + short_length(entries) <= fork {
            return DirectoryForm::Short;
        }
        return DirectoryForm::Single;
    }
    if fits_leaf(entries) {
        DirectoryForm::Leaf
    } else {
        DirectoryForm::Node
    }
}

/// How many bytes a short form has in front of its entries.
const HEADER_OF_SHORT: usize = 6;

/// Whether the entries and their index fit one block.
#[tactic(auto, unfolding(crate::specs::Forms::fits_single))]
fn fits_single(entries: &[EntryRec]) -> bool
    requires writable { All IsWritableEntry entries.now }
    requires few { length entries.now ≤ 2 ^ 24 }
    ensures { result ≡ fits_single entries.now }
{
    96 + data_length(entries) + (8 * (entries.len() + 2) + 8) <= BLOCK_SIZE
}

/// Whether the index fits one block.
#[tactic(auto, unfolding(crate::specs::Forms::fits_leaf))]
fn fits_leaf(entries: &[EntryRec]) -> bool
    requires writable { All IsWritableEntry entries.now }
    requires few { length entries.now ≤ 2 ^ 24 }
    ensures { result ≡ fits_leaf entries.now }
{
    64 + 8 * (entries.len() + 2) + 2 * data_count(entries) + 4 <= BLOCK_SIZE
}

/// How many bytes the entries have in a short form.
pub fn short_length(entries: &[EntryRec]) -> usize
    requires writable { All IsWritableEntry entries.now }
    requires few { length entries.now ≤ 2 ^ 24 }
    ensures value { result ≡ short_length entries.now }
    ensures bound { result ≤ 263 * length entries.now }
{
    let mut total = 0;
    for entry in entries {
        total += short_size(entry.name.bytes().len());
    }
    total
}

/// How many bytes the entries have in data blocks.
fn data_length(entries: &[EntryRec]) -> usize
    requires writable { All IsWritableEntry entries.now }
    requires few { length entries.now ≤ 2 ^ 24 }
    ensures value { result ≡ data_length entries.now }
    ensures bound { result ≤ 274 * length entries.now }
{
    let mut total = 0;
    for entry in entries {
        total += data_size(entry.name.bytes().len());
    }
    total
}

/// How many data blocks the entries fill, behind those of the directory and its parent.
#[tactic(auto, unfolding(crate::specs::Forms::data_count))]
pub fn data_count(entries: &[EntryRec]) -> usize
    requires writable { All IsWritableEntry entries.now }
    requires few { length entries.now ≤ 2 ^ 24 }
    ensures value { result ≡ data_count entries.now }
    ensures some { 1 ≤ result }
    ensures bound { result ≤ length entries.now + 1 }
{
    let mut used = 96;
    let mut count = 1;
    for entry in entries {
        let size = data_size(entry.name.bytes().len());
        if BLOCK_SIZE < used + size {
            count += 1;
            used = 64;
        }
        used += size;
    }
    count
}

/// How many data blocks a form has for these entries.
pub fn data_blocks_of(form: DirectoryForm, entries: &[EntryRec]) -> usize
    requires writable { All IsWritableEntry entries.now }
    requires few { length entries.now ≤ 2 ^ 24 }
    ensures { result ≡ data_blocks_of form entries.now }
{
    match form {
        DirectoryForm::Short => 0,
        DirectoryForm::Single => 1,
        DirectoryForm::Leaf | DirectoryForm::Node => data_count(entries),
    }
}

/// How many index blocks a form has for these entries.
pub fn index_blocks_of(form: DirectoryForm, entries: &[EntryRec]) -> usize
    requires few { length entries.now ≤ 2 ^ 24 }
    ensures { result ≡ index_blocks_of form entries.now }
{
    match form {
        DirectoryForm::Short | DirectoryForm::Single => 0,
        DirectoryForm::Leaf => 1,
        DirectoryForm::Node => tree_count(entries.len() + 2),
    }
}

/// How many free blocks a form has for these entries.
pub fn free_blocks_of(form: DirectoryForm, entries: &[EntryRec]) -> usize
    requires writable { All IsWritableEntry entries.now }
    requires few { length entries.now ≤ 2 ^ 24 }
    ensures { result ≡ free_blocks_of form entries.now }
{
    match form {
        DirectoryForm::Short | DirectoryForm::Single | DirectoryForm::Leaf => 0,
        DirectoryForm::Node => value_blocks(data_count(entries)),
    }
}

/// How many leaves so many pairs need.
pub fn leaf_blocks(pairs: usize) -> usize
    requires { pairs ≤ 2 ^ 32 }
    ensures { result ≡ leaf_blocks pairs }
{
    (pairs + 503) / 504
}

/// How many nodes stand above so many blocks of a level.
pub fn nodes_above(blocks: usize) -> usize
    requires { blocks ≤ 2 ^ 32 }
    ensures { result ≡ nodes_above blocks }
{
    if blocks <= 1 { 0 } else { (blocks + 503) / 504 }
}

/// How many blocks the tree over so many pairs has.
#[tactic(auto, unfolding(crate::specs::Forms::tree_count))]
pub fn tree_count(pairs: usize) -> usize
    requires { pairs ≤ 2 ^ 32 }
    ensures { result ≡ tree_count pairs }
{
    let leaves = leaf_blocks(pairs);
    let nodes = nodes_above(leaves);
    nodes_above(nodes) + nodes + leaves
}

/// How many free blocks so many values need.
#[tactic(auto, unfolding(crate::specs::Forms::value_blocks))]
pub fn value_blocks(values: usize) -> usize
    requires { values ≤ 2 ^ 32 }
    ensures { result ≡ value_blocks values }
{
    (values + 2015) / 2016
}
