//! The generated files, and the bytes of each.

ghost use Rattle.std.specs.Prelude.{◌≡◌, ◌<◌, ◌^◌, ◌++◌, decimal, map, IfOk};
ghost use Rattle.std.specs.List.{range_with_len};
ghost use Rattle.xfs_generator.specs.Files.{all_count, bytes_of_file, content_of, directory_count, directory_node, file_node, generated_content, generated_contents, generated_node, generated_nodes, node_of, root_node, IsFew};

use crate::spots::{FILES_OF_DIRECTORY, Spot, spot_of};
use itoa::Buffer;
use std::alloc::Global;
use xfs_disk::{NoMemory, Word};
use xfs_filled::Content;
use xfs_proto::{ProtoKind, ProtoNode};
use xfs_volume::Records;

/// Files with their bytes.
#[derive(Drop)]
pub struct Generated {
    /// One for each file, depth first: the root, then each directory before its files.
    pub nodes: Records<ProtoNode>,
    /// Of each file its bytes; none of a directory.
    pub contents: Records<Content>,
}

/// The mode of a directory, and of a file.
const DIRECTORY_MODE: u16 = 0x41ed;

const FILE_MODE: u16 = 0x81a4;

/// How many directories so many files have.
pub fn directory_count(files: u32) -> u64
    ensures { result ≡ directory_count files }
{
    (files as u64 + FILES_OF_DIRECTORY - 1) / FILES_OF_DIRECTORY
}

/// So many files with the names `f0`, `f1` and so on, a hundred each in the directories `d0`, `d1` and so on of the root.
/// File i has i * 37 mod 5000 bytes, of which byte j is (i + j) mod 251. Modes are 0755 and 0644; all files are root's.
#[tactic(auto, unfolding(crate::specs::Files::generated_nodes, crate::specs::Files::generated_contents))]
pub fn generate(alloc: Global, files: u32) -> Result<Generated, NoMemory>
    ensures nodes { IfOk result (λ generated. generated.nodes ≡ generated_nodes files) }
    ensures contents { IfOk result (λ generated. generated.contents ≡ generated_contents files) }
{
    let count = all_count(files);
    let nodes = generate_nodes(alloc, count)?;
    let contents = generate_contents(alloc, count)?;
    Ok(Generated { nodes, contents })
}

/// How many files there are with the root and the directories.
fn all_count(files: u32) -> u64
    ensures { result ≡ all_count files }
{
    1 + files as u64 + directory_count(files)
}

/// The files at so many places, from the root on.
fn generate_nodes(alloc: Global, count: u64) -> Result<Records<ProtoNode>, NoMemory>
    requires few { count < 2 ^ 40 }
    ensures { IfOk result (λ nodes. nodes ≡ map generated_node (range_with_len 0 count)) }
{
    let mut nodes = Vec::new(alloc);
    for place in 0..count {
        let node = node_of(alloc, spot_of(place))?;
        nodes.push(node)?;
    }
    Ok(Records::from_vec(nodes))
}

/// The bytes of the files at so many places, from the root on.
fn generate_contents(alloc: Global, count: u64) -> Result<Records<Content>, NoMemory>
    requires few { count < 2 ^ 40 }
    ensures { IfOk result (λ contents. contents ≡ map generated_content (range_with_len 0 count)) }
{
    let mut contents = Vec::new(alloc);
    for place in 0..count {
        let content = content_of(alloc, spot_of(place))?;
        contents.push(content)?;
    }
    Ok(Records::from_vec(contents))
}

/// What stands there.
fn node_of(alloc: Global, spot: Spot) -> Result<ProtoNode, NoMemory>
    requires few { IsFew spot }
    ensures { IfOk result (λ node. node ≡ node_of spot) }
{
    match spot {
        Spot::Root => Ok(root_node(alloc)),
        Spot::Directory { number } => directory_node(alloc, number),
        Spot::File { directory, number } => file_node(alloc, directory, number),
    }
}

/// The root.
fn root_node(alloc: Global) -> ProtoNode
    ensures { result ≡ root_node }
{
    ProtoNode {
        parent: 0,
        name: Word::from_vec(Vec::new(alloc)),
        mode: DIRECTORY_MODE,
        uid: 0,
        gid: 0,
        kind: ProtoKind::Directory,
    }
}

/// The directory of this number.
fn directory_node(alloc: Global, number: u64) -> Result<ProtoNode, NoMemory>
    ensures { IfOk result (λ node. node ≡ directory_node number) }
{
    let name = numbered(alloc, b"d", number)?;
    Ok(ProtoNode {
        parent: 0,
        name,
        mode: DIRECTORY_MODE,
        uid: 0,
        gid: 0,
        kind: ProtoKind::Directory,
    })
}

/// The file of this number in the directory of that one.
fn file_node(alloc: Global, directory: u64, number: u64) -> Result<ProtoNode, NoMemory>
    requires few { directory < 2 ^ 40 }
    ensures { IfOk result (λ node. node ≡ file_node directory number) }
{
    let name = numbered(alloc, b"f", number)?;
    Ok(ProtoNode {
        parent: 1 + (FILES_OF_DIRECTORY + 1) * directory,
        name,
        mode: FILE_MODE,
        uid: 0,
        gid: 0,
        kind: ProtoKind::Regular {
            name: Word::from_vec(Vec::new(alloc)),
            line: 0,
        },
    })
}

/// A name of these bytes and a number.
fn numbered(alloc: Global, first: &[u8], number: u64) -> Result<Word, NoMemory>
    ensures { IfOk result (λ name. name ≡ first.now ++ decimal number) }
{
    let mut name = Vec::from_slice(alloc, first)?;
    name.extend_from_slice(Buffer::new().format(number).as_bytes())?;
    Ok(Word::from_vec(name))
}

/// The bytes of what stands there.
fn content_of(alloc: Global, spot: Spot) -> Result<Content, NoMemory>
    requires few { IsFew spot }
    ensures { IfOk result (λ content. content ≡ content_of spot) }
{
    match spot {
        Spot::File { number, .. } => bytes_of_file(alloc, number),
        _ => Content::make(alloc, Vec::new(alloc)),
    }
}

/// The bytes of the file of this number.
#[tactic(auto, unfolding(crate::specs::Files::bytes_of_file))]
fn bytes_of_file(alloc: Global, number: u64) -> Result<Content, NoMemory>
    requires few { number < 2 ^ 48 }
    ensures { IfOk result (λ bytes. bytes ≡ bytes_of_file number) }
{
    let mut bytes = Vec::new(alloc);
    for place in 0..number * 37 % 5000 {
        bytes.push(((number + place) % 251) as u8)?;
    }
    Content::make(alloc, bytes)
}
