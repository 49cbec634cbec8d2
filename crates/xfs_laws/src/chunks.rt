//! Chunks of inodes: which of their slots are in use (chapter "AG Inode Management").

ghost use Rattle.std.specs.Prelude.{◌≡◌, ◌+◌, ◌*◌, ◌^◌, ◌<◌, ◌≤◌, [], ◌∷◌, filter, length, map, IsTrue};
ghost use Rattle.xfs_geom.specs.Sums.{has_free};
ghost use Rattle.xfs_geom.specs.Volumes.{volume_of};
ghost use Rattle.xfs_kinds.specs.InodeTrees.{is_holemask, is_missing, missing_bits};
ghost use Rattle.xfs_volume.specs.Laws.{first_broken, law_at};
ghost use Rattle.xfs_laws.specs.Counting.{AllHaveChunks, AreChunks, FilesOrdered, HasChunks, bit_of, chunk_laws, chunk_number, chunks_at, due_chunk, group_chunks, inode_number, is_unused};

use crate::broken::broken;
use crate::files::is_used;
use xfs_geom::{Geometry, InoRec};
use xfs_kinds::missing_bits;
use xfs_volume::{FileRec, GroupRec, Law};

/// The inodes of a chunk, missing ones among them.
const SLOTS: u32 = 64;

/// Stands for a record that is not there.
const NOTHING: u128 = u128::MAX;

/// The number of an inode of a group, by its number inside the group.
fn inode_number(g: &Geometry, ag: u32, agino: u64) -> u64
    requires group { ag < g.now.agcount }
    requires inside { agino < 2 ^ 33 }
    ensures { result ≡ inode_number (volume_of g.now) ag agino }
{
    ag as u64 * (1 << g.agblklog) * 8 + agino
}

/// Whether an inode of a chunk is there and not in use. `near` is a place among the files at which it may stand.
fn is_unused(
    g: &Geometry,
    files: &[FileRec],
    near: &mut usize,
    ag: u32,
    chunk: &InoRec,
    inode: u32,
) -> bool
    requires group { ag < g.now.agcount }
    requires files { FilesOrdered files.now }
    requires inode { inode < 64 }
    ensures { result ≡ is_unused (volume_of g.now) files.now ag chunk.now inode }
{
    let is_missing = chunk.holemask >> (inode / 4) & 1 == 1;
    !(is_missing
        || is_used(
            files,
            near,
            inode_number(g, ag, chunk.startino as u64 + inode as u64),
        ))
}

/// The chunk with the numbers that it should have.
fn due_chunk(g: &Geometry, files: &[FileRec], near: &mut usize, ag: u32, chunk: &InoRec) -> InoRec
    requires group { ag < g.now.agcount }
    requires files { FilesOrdered files.now }
    ensures value { result ≡ due_chunk (volume_of g.now) files.now ag chunk.now }
    ensures mask { result.holemask ≡ chunk.now.holemask }
{
    let mut freecount = 0;
    let mut free = 0;
    for inode in 0..SLOTS {
        let bit = bit_of(is_unused(g, files, near, ag, chunk, inode));
        freecount += bit as u8;
        free += bit << inode;
    }
    InoRec {
        count: if chunk.holemask == 0 { 64 } else { 32 },
        freecount,
        free,
        ..*chunk
    }
}

/// 1 where a test passes, else 0.
fn bit_of(passes: bool) -> u64
    ensures value { result ≡ bit_of passes }
    ensures most { result ≤ 1 }
{
    if passes { 1 } else { 0 }
}

/// A chunk as the number that its 16 bytes make, with the bits of missing inodes set.
#[tactic(auto, unfolding(crate::specs::Counting::chunk_number))]
fn chunk_number(chunk: &InoRec) -> u128
    requires { IsTrue (is_holemask chunk.now.holemask) }
    ensures value { result ≡ chunk_number chunk.now }
    ensures less { result < 2 ^ 128 }
{
    let bits = chunk.free | missing_bits(chunk.holemask);
    let upper = (chunk.startino as u128) * (1 << 96) + (chunk.holemask as u128) * (1 << 80);
    upper + (chunk.count as u128) * (1 << 72) + (chunk.freecount as u128) * (1 << 64) + bits as u128
}

/// The first chunk of a group whose numbers are not those that it should have.
fn check_chunks(
    g: &Geometry,
    files: &[FileRec],
    near: &mut usize,
    ag: u32,
    chunks: &[InoRec],
) -> Option<Law>
    requires group { ag < g.now.agcount }
    requires files { FilesOrdered files.now }
    requires chunks { AreChunks chunks.now }
    ensures { result ≡ first_broken (chunks_at (2 * ag) chunks.now (map (due_chunk (volume_of g.now) files.now ag) chunks.now) ∷ []) }
{
    for chunk in chunks {
        let held = chunk_number(chunk);
        let due = chunk_number(&due_chunk(g, files, near, ag, chunk));
        if held != due {
            return broken(4, 2 * ag as u64, held, due);
        }
    }
    None
}

/// The first chunk of the tree of those with a free inode that is not one of the group's.
fn check_free_chunks(ag: u32, held: &[InoRec], chunks: &[InoRec]) -> Option<Law>
    requires held { AreChunks held.now }
    requires chunks { AreChunks chunks.now }
    ensures { result ≡ first_broken (chunks_at (2 * ag + 1) held.now (filter has_free chunks.now) ∷ []) }
{
    let place = 2 * ag as u64 + 1;
    let mut at = 0;
    for chunk in chunks {
        if has_free(chunk) {
            let due_number = chunk_number(chunk);
            if at == held.len() {
                return broken(4, place, NOTHING, due_number);
            }
            let held_number = chunk_number(&held[at]);
            if held_number != due_number {
                return broken(4, place, held_number, due_number);
            }
            at += 1;
        }
    }
    if at == held.len() {
        return None;
    }
    broken(4, place, chunk_number(&held[at]), NOTHING)
}

/// Whether a chunk states that it has a free inode.
fn has_free(chunk: &InoRec) -> bool
    ensures { result ≡ has_free chunk.now }
{
    0 < chunk.freecount
}

/// The first chunk of the groups that is not as it should be: in the tree of all chunks, or in the tree of those with
/// a free inode.
pub fn check_inodes(g: &Geometry, files: &[FileRec], groups: &[GroupRec]) -> Option<Law>
    requires groups { length groups.now ≤ g.now.agcount }
    requires files { FilesOrdered files.now }
    requires chunks { AllHaveChunks groups.now }
    ensures { result ≡ first_broken (chunk_laws (volume_of g.now) files.now groups.now) }
{
    let mut ag = 0;
    let mut near = 0;
    for group in groups {
        if let Some(law) = check_group(g, files, &mut near, ag, group) {
            return Some(law);
        }
        ag += 1;
    }
    None
}

/// The first chunk of a group that is not as it should be. `near` is a place among the files at which its first may stand.
fn check_group(
    g: &Geometry,
    files: &[FileRec],
    near: &mut usize,
    ag: u32,
    group: &GroupRec,
) -> Option<Law>
    requires group { ag < g.now.agcount }
    requires files { FilesOrdered files.now }
    requires chunks { HasChunks group.now }
    ensures { result ≡ first_broken (group_chunks (volume_of g.now) files.now ag group.now) }
{
    let chunks = group.ino.as_slice();
    match check_chunks(g, files, near, ag, chunks) {
        Some(law) => Some(law),
        None => check_free_chunks(ag, group.fino.as_slice(), chunks),
    }
}
