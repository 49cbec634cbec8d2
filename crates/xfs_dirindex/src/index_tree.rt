//! The tree of index blocks of the node form.

ghost use Rattle.std.specs.Prelude.{◌≡◌, ◌+◌, ◌≤◌, ◌&&◌, ◌++◌, ◌==◌, [], ◌∷◌, true, false, nat_le, nat_lt, if◌then◌else◌, length, count_by, IfOk, IfErr, OnOk};
ghost use Rattle.xfs_word.specs.Field.{field_of};
ghost use Rattle.xfs_dirindex.specs.Faults.{OnUnsoundIndex};
ghost use Rattle.xfs_dirindex.specs.Mapped.{OffsetsAscend, mapped};
ghost use Rattle.xfs_dirindex.specs.Pairs.{is_stale};
ghost use Rattle.xfs_dirindex.specs.IndexTree.{pairs_of, magic_of_level, has_index_form, has_neighbours, has_greatest, next_link, are_members, pairs_below, pair_of_place, pairs_of_places, level_in, index_level, keeps_rules, index_tree_all_places, all_leaf_pairs, index_places, is_tree};

use crate::layouts::index_block::{
    BACK, COUNT, FORW, HEADER_SIZE, MAGIC, NODE_LEAF_MAGIC, NODE_MAGIC, STALE,
};
use crate::layouts::{FREE_START, INDEX_START};
use crate::lookup::bytes_mapped;
use crate::pairs::{PAIR_SIZE, Pair, count_stale, is_index, read_pairs};
use crate::same::same_pairs;
use crate::seen::{DirSeen, IndexFault};
use std::alloc::{AllocError, Global};
use xfs_disk::BLOCK_SIZE;
use xfs_word::{get16, get32};

/// The most pairs of an index block.
const MOST_PAIRS: usize = 504;

/// What a tree of index blocks states.
#[derive(Drop)]
struct StatedTree {
    /// Its blocks, as pairs that have no hash.
    places: Vec<Pair>,
    /// The pairs of its leaves, from the left.
    pairs: Vec<Pair>,
}

/// Whether the index blocks of a directory are a tree that has the pairs that are due.
#[tactic(auto, unfolding(crate::specs::IndexTree::is_tree, crate::specs::IndexTree::are_exactly, crate::specs::IndexTree::are_due))]
pub fn check_tree(alloc: Global, dir: &DirSeen, due: &[Pair]) -> Result<(), IndexFault>
    requires mapped { length dir.now.blocks ≡ length dir.now.offsets.items }
    requires ascending { OffsetsAscend 0 dir.now.offsets.items }
    ensures sound { OnOk result (is_tree (mapped dir.now.offsets.items dir.now.blocks) due.now ≡ true) }
    ensures unsound { IfErr result (λ fault. OnUnsoundIndex fault (is_tree (mapped dir.now.offsets.items dir.now.blocks) due.now ≡ false)) }
{
    let places = index_places(alloc, dir)?;
    let tree = match read_index_tree(alloc, dir, places.len()) {
        Ok(tree) => tree,
        Err(fault) => return Err(fault),
    };
    if tree.places.len() != places.len() {
        return Err(IndexFault::Unsound);
    }
    if !same_pairs(alloc, &tree.places, &places)? {
        return Err(IndexFault::Unsound);
    }
    if is_index(alloc, &tree.pairs, count_stale(&tree.pairs), due)? {
        Ok(())
    } else {
        Err(IndexFault::Unsound)
    }
}

/// The index blocks of a directory, as pairs that have no hash.
#[tactic(auto, unfolding(crate::specs::IndexTree::index_places))]
fn index_places(alloc: Global, dir: &DirSeen) -> Result<Vec<Pair>, AllocError>
    requires { length dir.now.blocks ≡ length dir.now.offsets.items }
    ensures { IfOk result (λ places. places.items ≡ index_places (mapped dir.now.offsets.items dir.now.blocks)) }
{
    let mut places = Vec::new(alloc);
    for i in 0..dir.offsets.len() {
        add_index_place(dir.offsets[i], &mut places)?;
    }
    Ok(places)
}

/// Adds a file block, if it is one of the index.
fn add_index_place(offset: u64, places: &mut Vec<Pair>) -> Result<(), AllocError>
    ensures { OnOk result (places.new.items ≡ places.old.items ++ (if nat_le 0x800000 offset && nat_lt offset 0x1000000 then pair_of_place offset ∷ [] else [])) }
{
    if is_index_place(offset) {
        places.push(pair_of_place(offset))?;
    }
    Ok(())
}

/// Whether a file block is one of the index.
fn is_index_place(offset: u64) -> bool
    ensures { result ≡ (nat_le 0x800000 offset && nat_lt offset 0x1000000) }
{
    INDEX_START <= offset && offset < FREE_START
}

/// A file block as a pair that has no hash.
fn pair_of_place(block: u64) -> Pair
    ensures { result ≡ pair_of_place block }
{
    Pair {
        hash: 0,
        address: block,
    }
}

/// Reads the tree, level by level. `Unsound` also where it has more than `most` blocks: a node may name
/// one child many times.
#[tactic(auto, unfolding(crate::specs::IndexTree::keeps_rules, crate::specs::IndexTree::index_tree_all_places, crate::specs::IndexTree::all_leaf_pairs))]
fn read_index_tree(alloc: Global, dir: &DirSeen, most: usize) -> Result<StatedTree, IndexFault>
    requires mapped { length dir.now.blocks ≡ length dir.now.offsets.items }
    requires ascending { OffsetsAscend 0 dir.now.offsets.items }
    ensures sound { OnOk result (keeps_rules (mapped dir.now.offsets.items dir.now.blocks) ≡ true) }
    ensures unsound { IfErr result (λ fault. OnUnsoundIndex fault ((keeps_rules (mapped dir.now.offsets.items dir.now.blocks) && nat_le (length (index_tree_all_places (mapped dir.now.offsets.items dir.now.blocks))) most) ≡ false)) }
    ensures places { IfOk result (λ tree. tree.places.items ≡ index_tree_all_places (mapped dir.now.offsets.items dir.now.blocks)) }
    ensures pairs { IfOk result (λ tree. tree.pairs.items ≡ all_leaf_pairs (mapped dir.now.offsets.items dir.now.blocks)) }
{
    let mut places = Vec::new(alloc);
    let mut links = Vec::from_slice(alloc, &[pair_of_place(INDEX_START)])?;
    let mut level = index_level(dir);
    let mut root = true;
    while level > 0 {
        links = match take_level(alloc, dir, root, level, &links, most, &mut places) {
            Ok(below) => below,
            Err(fault) => return Err(fault),
        };
        level -= 1;
        root = false;
    }
    let pairs = match take_level(alloc, dir, root, 0, &links, most, &mut places) {
        Ok(pairs) => pairs,
        Err(fault) => return Err(fault),
    };
    Ok(StatedTree { places, pairs })
}

/// The level of the root; leaves are of level 0.
fn index_level(dir: &DirSeen) -> u16
    requires mapped { length dir.now.blocks ≡ length dir.now.offsets.items }
    requires ascending { OffsetsAscend 0 dir.now.offsets.items }
    ensures { result ≡ index_level (mapped dir.now.offsets.items dir.now.blocks) }
{
    level_in(bytes_mapped(dir, INDEX_START))
}

/// The level that a block states as the root.
#[tactic(auto, unfolding(crate::specs::IndexTree::level_in))]
fn level_in(bytes: &[u8]) -> u16
    ensures { result ≡ level_in bytes.now }
{
    if bytes.len() != BLOCK_SIZE {
        return 0;
    }
    if get16(bytes, MAGIC.offset) != NODE_MAGIC {
        return 0;
    }
    get16(bytes, STALE.offset)
}

/// Takes up the blocks of a level, and gives their pairs.
fn take_level(
    alloc: Global,
    dir: &DirSeen,
    root: bool,
    level: u16,
    links: &[Pair],
    most: usize,
    places: &mut Vec<Pair>,
) -> Result<Vec<Pair>, IndexFault>
    requires mapped { length dir.now.blocks ≡ length dir.now.offsets.items }
    requires ascending { OffsetsAscend 0 dir.now.offsets.items }
    ensures few { OnOk result (length places.old.items + length links.now ≤ most) }
    ensures sound { OnOk result (are_members (mapped dir.now.offsets.items dir.now.blocks) root level 0 links.now ≡ true) }
    ensures unsound { IfErr result (λ fault. OnUnsoundIndex fault ((nat_le (length places.old.items + length links.now) most && are_members (mapped dir.now.offsets.items dir.now.blocks) root level 0 links.now) ≡ false)) }
    ensures places { OnOk result (places.new.items ≡ places.old.items ++ pairs_of_places links.now) }
    ensures pairs { IfOk result (λ below. below.items ≡ pairs_below (mapped dir.now.offsets.items dir.now.blocks) links.now) }
{
    if most < places.len() {
        return Err(IndexFault::Unsound);
    }
    if most - places.len() < links.len() {
        return Err(IndexFault::Unsound);
    }
    add_places(links, places)?;
    read_level(alloc, dir, root, level, links)
}

/// Adds the file blocks that pairs name.
fn add_places(links: &[Pair], places: &mut Vec<Pair>) -> Result<(), AllocError>
    ensures { OnOk result (places.new.items ≡ places.old.items ++ pairs_of_places links.now) }
{
    for link in links {
        places.push(pair_of_place(link.address))?;
    }
    Ok(())
}

/// The pairs of the blocks of a level.
fn read_level(
    alloc: Global,
    dir: &DirSeen,
    root: bool,
    level: u16,
    links: &[Pair],
) -> Result<Vec<Pair>, IndexFault>
    requires mapped { length dir.now.blocks ≡ length dir.now.offsets.items }
    requires ascending { OffsetsAscend 0 dir.now.offsets.items }
    ensures sound { OnOk result (are_members (mapped dir.now.offsets.items dir.now.blocks) root level 0 links.now ≡ true) }
    ensures unsound { IfErr result (λ fault. OnUnsoundIndex fault (are_members (mapped dir.now.offsets.items dir.now.blocks) root level 0 links.now ≡ false)) }
    ensures pairs { IfOk result (λ below. below.items ≡ pairs_below (mapped dir.now.offsets.items dir.now.blocks) links.now) }
{
    let mut below = Vec::new(alloc);
    let mut before = 0;
    for i in 0..links.len() {
        let link = links[i];
        let next = next_link(&links[i + 1..]);
        let block = bytes_mapped(dir, link.address);
        match take_member(
            alloc, root, level, before, link.hash, next, block, &mut below,
        ) {
            Ok(()) => {}
            Err(fault) => return Err(fault),
        }
        before = link.address;
    }
    Ok(below)
}

/// The file block that the first pair names; 0 where there is none.
fn next_link(links: &[Pair]) -> u64
    ensures { result ≡ next_link links.now }
{
    if links.is_empty() {
        return 0;
    }
    links[0].address
}

/// Takes up the pairs of a block, if it keeps the rules of its level.
fn take_member(
    alloc: Global,
    root: bool,
    level: u16,
    before: u64,
    hash: u32,
    next: u64,
    bytes: &[u8],
    below: &mut Vec<Pair>,
) -> Result<(), IndexFault>
    ensures sound { OnOk result ((has_index_form level bytes.now && has_neighbours before next bytes.now && has_greatest root hash bytes.now) ≡ true) }
    ensures unsound { IfErr result (λ fault. OnUnsoundIndex fault ((has_index_form level bytes.now && has_neighbours before next bytes.now && has_greatest root hash bytes.now) ≡ false)) }
    ensures pairs { OnOk result (below.new.items ≡ below.old.items ++ pairs_of bytes.now) }
{
    let pairs = match read_form(alloc, level, bytes) {
        Ok(pairs) => pairs,
        Err(fault) => return Err(fault),
    };
    if !has_neighbours(before, next, bytes) {
        return Err(IndexFault::Unsound);
    }
    if !has_greatest(root, hash, bytes) {
        return Err(IndexFault::Unsound);
    }
    below.extend_from_slice(&pairs)?;
    Ok(())
}

/// The pairs of a block that has the form of its level.
#[tactic(auto, unfolding(crate::specs::IndexTree::has_index_form, crate::specs::IndexTree::pairs_of))]
fn read_form(alloc: Global, level: u16, bytes: &[u8]) -> Result<Vec<Pair>, IndexFault>
    ensures sound { OnOk result (has_index_form level bytes.now ≡ true) }
    ensures unsound { IfErr result (λ fault. OnUnsoundIndex fault (has_index_form level bytes.now ≡ false)) }
    ensures size { OnOk result (length bytes.now ≡ 4096) }
    ensures some { OnOk result (1 ≤ field_of bytes.now 56 2) }
    ensures few { OnOk result (field_of bytes.now 56 2 ≤ 504) }
    ensures pairs { IfOk result (λ pairs. pairs.items ≡ pairs_of bytes.now) }
{
    if bytes.len() != BLOCK_SIZE {
        return Err(IndexFault::Unsound);
    }
    if get16(bytes, MAGIC.offset) != magic_of_level(level) {
        return Err(IndexFault::Unsound);
    }
    let count = get16(bytes, COUNT.offset) as usize;
    if count < 1 {
        return Err(IndexFault::Unsound);
    }
    if count > MOST_PAIRS {
        return Err(IndexFault::Unsound);
    }
    let pairs = read_pairs(alloc, bytes, HEADER_SIZE, count)?;
    if get16(bytes, STALE.offset) as usize != stated_of(level, &pairs) {
        return Err(IndexFault::Unsound);
    }
    Ok(pairs)
}

/// The magic number of the blocks of a level.
fn magic_of_level(level: u16) -> u16
    ensures { result ≡ magic_of_level level }
{
    if level == 0 {
        NODE_LEAF_MAGIC
    } else {
        NODE_MAGIC
    }
}

/// What a block of a level states behind the number of its pairs: how many of them are stale, or its level.
fn stated_of(level: u16, pairs: &[Pair]) -> usize
    ensures { result ≡ (if level == 0 then count_by is_stale pairs.now else level) }
{
    if level == 0 {
        count_stale(pairs)
    } else {
        level as usize
    }
}

/// Whether a block names its neighbours.
#[tactic(auto, unfolding(crate::specs::IndexTree::has_neighbours))]
fn has_neighbours(before: u64, next: u64, bytes: &[u8]) -> bool
    requires { length bytes.now ≡ 4096 }
    ensures { result ≡ has_neighbours before next bytes.now }
{
    if get32(bytes, BACK.offset) as u64 != before {
        return false;
    }
    get32(bytes, FORW.offset) as u64 == next
}

/// Whether the hash that its parent gives is that of the last of its pairs.
fn has_greatest(root: bool, hash: u32, bytes: &[u8]) -> bool
    requires size { length bytes.now ≡ 4096 }
    requires some { 1 ≤ field_of bytes.now 56 2 }
    requires few { field_of bytes.now 56 2 ≤ 504 }
    ensures { result ≡ has_greatest root hash bytes.now }
{
    if root {
        return true;
    }
    let count = get16(bytes, COUNT.offset) as usize;
    get32(bytes, HEADER_SIZE - PAIR_SIZE + PAIR_SIZE * count) == hash
}
