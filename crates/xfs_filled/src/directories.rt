//! The directories of a new volume, built.

ghost use Rattle.std.specs.Prelude.{◌≡◌, ◌≤◌, ◌<◌, ◌^◌, ◌+◌, length, map, true, Some, IfOk, OnOk, IsTrue};
ghost use Rattle.std.specs.List.{All, range_with_len};
ghost use Rattle.xfs_dirdata.specs.Written.{IsWritableEntry};
ghost use Rattle.xfs_dirindex.specs.Data.{have_no_dots};
ghost use Rattle.xfs_geom.specs.Volumes.{volume_of};
ghost use Rattle.xfs_filled.specs.Directories.{HasDirectoryImage, HaveDirectoryImages, IsSoundDirectory, IsSoundWhere, made_directory_at, made_directory};
ghost use Rattle.xfs_filled.specs.Entries.{directories_in, entries_at, parent_of_place};
ghost use Rattle.xfs_filled.specs.FileTrees.{AreProtoNodes, is_directory_kind, is_directory_node};
ghost use Rattle.xfs_filled.specs.Numbers.{number_of};
ghost use Rattle.xfs_filled.specs.Sites.{AreChunksPlaced};

use crate::entries::{EntryList, list_entries};
use crate::numbers::number_of;
use std::alloc::Global;
use xfs_collections::BlockBank;
use xfs_dirbuild::{DirImage, build};
use xfs_dirdata::EntryRec;
use xfs_disk::{NoMemory, Word};
use xfs_geom::Geometry;
use xfs_proto::{ProtoKind, ProtoNode};

/// The bytes of the fork of an inode without attributes.
pub const FORK_ROOM: usize = 336;

/// A directory as it was built.
#[derive(Drop)]
pub struct MadeDirectory {
    /// The bytes of the short form; none in the other forms.
    pub short: Word,
    /// How many data, index and free blocks there are.
    pub data_blocks: u64,
    pub index_blocks: u64,
    pub free_blocks: u64,
    /// The blocks, without places and seals.
    pub blocks: BlockBank,
    /// How many names the directory has.
    pub links: u32,
}

/// Builds all directories; nothing for a file that is none.
pub fn list_directories(
    alloc: Global,
    g: &Geometry,
    starts: &[u64],
    nodes: &[ProtoNode],
) -> Result<Vec<Option<MadeDirectory>>, NoMemory>
    requires placed { AreChunksPlaced g.now starts.now nodes.now }
    requires files { AreProtoNodes nodes.now }
    ensures value { IfOk result (λ all. all.items ≡ map (made_directory_at (volume_of g.now) starts.now nodes.now) (range_with_len 0 (length nodes.now))) }
    ensures sound { IfOk result (λ all. All IsSoundWhere all.items) }
    ensures images { OnOk result (HaveDirectoryImages (volume_of g.now) starts.now nodes.now) }
{
    let entries = list_entries(alloc, g, starts, nodes)?;
    let mut all = Vec::new(alloc);
    for k in 0..nodes.len() {
        all.push(directory_at(alloc, g, starts, nodes, &entries, k)?)?;
    }
    Ok(all)
}

/// Builds the file at a place, where it is a directory.
fn directory_at(
    alloc: Global,
    g: &Geometry,
    starts: &[u64],
    nodes: &[ProtoNode],
    entries: &[EntryList],
    k: usize,
) -> Result<Option<MadeDirectory>, NoMemory>
    requires placed { AreChunksPlaced g.now starts.now nodes.now }
    requires files { AreProtoNodes nodes.now }
    requires entries { entries.now ≡ map (entries_at (volume_of g.now) starts.now nodes.now) (range_with_len 0 (length nodes.now)) }
    requires inside { k < length nodes.now }
    ensures value { IfOk result (λ made. made ≡ made_directory_at (volume_of g.now) starts.now nodes.now k) }
    ensures sound { IfOk result IsSoundWhere }
    ensures image { OnOk result (is_directory_node nodes.now k ≡ true
        → HasDirectoryImage (entries_at (volume_of g.now) starts.now nodes.now k) (number_of (volume_of g.now) starts.now k) (parent_of_place (volume_of g.now) starts.now nodes.now k)) }
{
    let node = &nodes[k];
    if !is_directory_kind(&node.kind) {
        return Ok(None);
    }
    let dir = number_of(g, starts, k);
    let parent = number_of(g, starts, node.parent as usize);
    let made = make_directory(alloc, entries[k].as_slice(), dir, parent)?;
    Ok(Some(made))
}

/// Whether a file is a directory.
pub fn is_directory_kind(kind: &ProtoKind) -> bool
    ensures { result ≡ is_directory_kind kind.now }
{
    matches!(kind, ProtoKind::Directory)
}

/// Builds a directory with these entries.
fn make_directory(
    alloc: Global,
    entries: &[EntryRec],
    dir: u64,
    parent: u64,
) -> Result<MadeDirectory, NoMemory>
    requires writable { All IsWritableEntry entries.now }
    requires names { IsTrue (have_no_dots entries.now) }
    requires few { length entries.now ≤ 2 ^ 24 }
    requires dir { dir < 2 ^ 32 }
    requires parent { parent < 2 ^ 32 }
    ensures value { IfOk result (λ made. made ≡ made_directory entries.now dir parent) }
    ensures sound { IfOk result IsSoundDirectory }
    ensures image { OnOk result (HasDirectoryImage entries.now dir parent) }
{
    let image = build(alloc, entries, dir, parent, FORK_ROOM)?;
    let links = directory_links(entries);
    Ok(taken_apart(image, links))
}

/// What was built, with the number of names.
fn taken_apart(image: DirImage, links: u32) -> MadeDirectory
    ensures { result ≡ record {
      short = image.short.items;
      data_blocks = image.data_blocks;
      index_blocks = image.index_blocks;
      free_blocks = image.free_blocks;
      blocks = image.blocks;
      links = links;
    } }
{
    let DirImage {
        short,
        data_blocks,
        index_blocks,
        free_blocks,
        blocks,
    } = image;
    MadeDirectory {
        short: Word::from_vec(short),
        data_blocks,
        index_blocks,
        free_blocks,
        blocks,
        links,
    }
}

/// How many names a directory with these entries has.
fn directory_links(entries: &[EntryRec]) -> u32
    requires few { length entries.now ≤ 2 ^ 24 }
    ensures { result ≡ 2 + directories_in entries.now }
{
    let mut links = 2;
    for entry in entries {
        if entry.ftype == DIRECTORY {
            links += 1;
        }
    }
    links
}

/// The number by which an entry states a directory.
const DIRECTORY: u8 = 2;
