//! Directories, built.

ghost use Rattle.std.specs.Prelude.{◌≡◌, ℕ, List, [], ◌+◌, ◌<◌, ◌≤◌, ◌^◌, length, map, All, Some, IfOk, IsTrue};
ghost use Rattle.xfs_dirdata.specs.Short.{short_of};
ghost use Rattle.xfs_dirdata.specs.Bytes.{short_bytes};
ghost use Rattle.xfs_dirdata.specs.Written.{IsWritableEntry, in_directory};
ghost use Rattle.xfs_dirdata.specs.declared.records.EntryRec.{EntryRec};
ghost use Rattle.xfs_dirindex.specs.Data.{have_no_dots};
ghost use Rattle.xfs_dirbuild.specs.declared.forms.DirectoryForm.TheVariants.{Short, Single, Leaf};
ghost use Rattle.xfs_dirbuild.specs.Blocks.{dir_blocks};
ghost use Rattle.xfs_dirbuild.specs.Forms.{fits_single, fits_leaf, form_of, data_blocks_of, index_blocks_of, free_blocks_of};
ghost use Rattle.xfs_dirbuild.specs.Placed.{HaveMagics, IsBuilt};

use crate::forms::{
    DirectoryForm, data_blocks_of, form_of, free_blocks_of, index_blocks_of, short_length,
};
use crate::leaf::{build_leaf, build_node};
use crate::single::build_single;
use std::alloc::Global;
use xfs_collections::BlockBank;
use xfs_dirdata::{EntryRec, put_short};
use xfs_disk::NoMemory;

/// A directory as it was built: its short form, or its blocks without places and seals.
#[derive(Drop)]
pub struct DirImage {
    /// The bytes of the short form; none in the other forms.
    pub short: Vec<u8>,
    /// How many data blocks there are, from file block 0 on.
    pub data_blocks: u64,
    /// How many index blocks there are, from file block 0x800000 on.
    pub index_blocks: u64,
    /// How many free blocks there are, from file block 0x1000000 on.
    pub free_blocks: u64,
    /// The data blocks, behind them the index blocks, and behind these the free blocks.
    pub blocks: BlockBank,
}

/// Builds the directory `dir` with these entries and this parent, in the first form that fits; `fork` is how many
/// bytes its data fork may have. Names have at most 255 bytes and are neither "." nor ".."; inode numbers have at
/// most 4 bytes. Whatever places, owners and seals its blocks get, they are then whole, with exactly these entries
/// (chapter "Directories"). `NoMemory` where the blocks do not fit.
pub fn build(
    alloc: Global,
    entries: &[EntryRec],
    dir: u64,
    parent: u64,
    fork: usize,
) -> Result<DirImage, NoMemory>
    requires writable { All IsWritableEntry entries.now }
    requires names { IsTrue (have_no_dots entries.now) }
    requires few { length entries.now ≤ 2 ^ 24 }
    requires dir { dir < 2 ^ 32 }
    requires parent { parent < 2 ^ 32 }

    ensures short { IfOk result (λ image. form_of entries.now fork ≡ Short → (d : ℕ) →
        short_of d image.short.items ≡ Some (record { parent = parent; entries = map (in_directory d) entries.now })) }
    ensures short_bytes { IfOk result (λ image. form_of entries.now fork ≡ Short → image.short.items ≡ short_bytes parent entries.now) }
    ensures none { IfOk result (λ image. (form_of entries.now fork ≡ Short → ⊥) → image.short.items ≡ []) }

    ensures data { IfOk result (λ image. image.data_blocks ≡ data_blocks_of (form_of entries.now fork) entries.now) }
    ensures index { IfOk result (λ image. image.index_blocks ≡ index_blocks_of (form_of entries.now fork) entries.now) }
    ensures free { IfOk result (λ image. image.free_blocks ≡ free_blocks_of (form_of entries.now fork) entries.now) }
    ensures blocks { IfOk result (λ image. length image.blocks ≡ image.data_blocks + image.index_blocks + image.free_blocks) }

    ensures magics { IfOk result (λ image. HaveMagics image.data_blocks image.index_blocks image.free_blocks image.blocks) }
    ensures whole { IfOk result (λ image. IsBuilt (form_of entries.now fork) dir parent image.data_blocks image.index_blocks image.free_blocks entries.now image.blocks) }

    // Each byte of the blocks; those of their seals are zero.
    ensures bytes { IfOk result (λ image. image.blocks ≡ dir_blocks (form_of entries.now fork) dir parent entries.now) }
{
    let form = form_of(entries, fork);
    let short = build_short(alloc, form, entries, parent)?;
    let blocks = build_blocks(alloc, form, entries, dir, parent)?;
    Ok(DirImage {
        short,
        data_blocks: data_blocks_of(form, entries) as u64,
        index_blocks: index_blocks_of(form, entries) as u64,
        free_blocks: free_blocks_of(form, entries) as u64,
        blocks,
    })
}

/// The bytes of the short form; none of another form.
fn build_short(
    alloc: Global,
    form: DirectoryForm,
    entries: &[EntryRec],
    parent: u64,
) -> Result<Vec<u8>, NoMemory>
    requires writable { All IsWritableEntry entries.now }
    requires few { length entries.now ≤ 2 ^ 24 }
    requires parent { parent < 2 ^ 32 }
    requires fits { form ≡ Short → IsTrue (fits_single entries.now) }
    ensures short { IfOk result (λ short. form ≡ Short → (d : ℕ) →
        short_of d short.items ≡ Some (record { parent = parent; entries = map (in_directory d) entries.now })) }
    ensures bytes { IfOk result (λ short. form ≡ Short → short.items ≡ short_bytes parent entries.now) }
    ensures none { IfOk result (λ short. (form ≡ Short → ⊥) → short.items ≡ []) }
{
    match form {
        DirectoryForm::Short => write_short(alloc, entries, parent),
        _ => Ok(Vec::new(alloc)),
    }
}

/// The bytes of the short form.
#[tactic(auto, unfolding(crate::specs::Forms::fits_single))]
fn write_short(alloc: Global, entries: &[EntryRec], parent: u64) -> Result<Vec<u8>, NoMemory>
    requires writable { All IsWritableEntry entries.now }
    requires few { length entries.now ≤ 2 ^ 24 }
    requires parent { parent < 2 ^ 32 }
    requires fits { IsTrue (fits_single entries.now) }
    ensures read { IfOk result (λ short. (d : ℕ) → short_of d short.items ≡ Some (record { parent = parent; entries = map (in_directory d) entries.now })) }
    ensures bytes { IfOk result (λ short. short.items ≡ short_bytes parent entries.now) }
{
    let mut short = vec![in alloc; 0; 6 + short_length(entries)]?;
    put_short(parent, entries, short.as_mut_slice());
    Ok(short)
}

/// The blocks of a form.
fn build_blocks(
    alloc: Global,
    form: DirectoryForm,
    entries: &[EntryRec],
    dir: u64,
    parent: u64,
) -> Result<BlockBank, NoMemory>
    requires writable { All IsWritableEntry entries.now }
    requires names { IsTrue (have_no_dots entries.now) }
    requires few { length entries.now ≤ 2 ^ 24 }
    requires dir { dir < 2 ^ 32 }
    requires parent { parent < 2 ^ 32 }
    requires single { form ≡ Single → IsTrue (fits_single entries.now) }
    requires leaf { form ≡ Leaf → IsTrue (fits_leaf entries.now) }
    ensures count { IfOk result (λ blocks. length blocks ≡ data_blocks_of form entries.now + index_blocks_of form entries.now + free_blocks_of form entries.now) }
    ensures magics { IfOk result (λ blocks. HaveMagics (data_blocks_of form entries.now) (index_blocks_of form entries.now) (free_blocks_of form entries.now) blocks) }
    ensures whole { IfOk result (λ blocks. IsBuilt form dir parent (data_blocks_of form entries.now) (index_blocks_of form entries.now) (free_blocks_of form entries.now) entries.now blocks) }
    ensures bytes { IfOk result (λ blocks. blocks ≡ dir_blocks form dir parent entries.now) }
{
    match form {
        DirectoryForm::Short => no_blocks(alloc),
        DirectoryForm::Single => build_single(alloc, entries, dir, parent),
        DirectoryForm::Leaf => build_leaf(alloc, entries, dir, parent),
        DirectoryForm::Node => build_node(alloc, entries, dir, parent),
    }
}

/// The blocks of a short form: none.
#[tactic(auto, unfolding(crate::specs::Placed::built_entries))]
fn no_blocks(alloc: Global) -> Result<BlockBank, NoMemory>
    ensures none { IfOk result (λ blocks. blocks ≡ []) }
    ensures count { IfOk result (λ blocks. length blocks ≡ 0) }
    ensures magics { IfOk result (λ blocks. HaveMagics 0 0 0 blocks) }
    ensures whole { IfOk result (λ blocks. (dir parent : ℕ) (entries : List EntryRec) → IsBuilt Short dir parent 0 0 0 entries blocks) }
{
    BlockBank::make(alloc, 0)
}
