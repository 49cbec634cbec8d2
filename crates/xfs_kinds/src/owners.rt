//! Records and keys of the reverse-mapping tree (chapter "Reverse-Mapping B+tree").

ghost use Rattle.std.specs.Prelude.{◌≡◌, length};
ghost use Rattle.std.specs.Option.{option_copied};
ghost use Rattle.xfs_geom.specs.Volumes.{volume_of};
ghost use Rattle.xfs_kinds.specs.OwnerTrees.{follows_end, high_key, is_owned_run, is_owner, key_bytes, key_of_bytes, key_order, last_word, low_key, owner_bytes, owner_of_bytes};

use crate::groups::{ends_by, lies_in_group};
use crate::layouts::{owner, owner_key};
use crate::offset_words::{is_file_data, key_word, offset_in_fork};
use std::cmp::Ordering;
use xfs_geom::{Geometry, RmapRec};
use xfs_word::{get32, get64, put32, put64};

/// The sum of an offset in a fork and a count of blocks is at most this number.
const LAST_END: u64 = 1 << 54;

/// A key of the reverse-mapping tree: a block with its owner.
#[derive(Clone, Copy, Debug, PartialEq, Eq)]
pub struct RmapKey {
    /// The AG block.
    pub start: u32,
    /// The number of the inode that owns the block, or one of the owners below 0 in two's complement.
    pub owner: u64,
    /// The offset word: the offset in the owner's fork, in blocks, below three flags. The flag of
    /// unwritten blocks is 0.
    pub offset_word: u64,
}

/// The run in its 24 bytes.
pub fn read_owner(bytes: &[u8]) -> RmapRec
    requires { length bytes.now ≡ 24 }
    ensures { result ≡ owner_of_bytes bytes.now }
{
    RmapRec {
        start: get32(bytes, owner::START.offset),
        count: get32(bytes, owner::COUNT.offset),
        owner: get64(bytes, owner::OWNER.offset),
        offset_word: get64(bytes, owner::OFFSET.offset),
    }
}

/// Writes a run into its 24 bytes.
pub fn put_owner(run: &RmapRec, bytes: &mut [u8])
    requires { length bytes.old ≡ 24 }
    ensures { bytes.new ≡ owner_bytes run.now }
{
    put32(bytes, owner::START.offset, run.start);
    put32(bytes, owner::COUNT.offset, run.count);
    put64(bytes, owner::OWNER.offset, run.owner);
    put64(bytes, owner::OFFSET.offset, run.offset_word);
}

/// The key in its 20 bytes.
pub fn read_key(bytes: &[u8]) -> RmapKey
    requires { length bytes.now ≡ 20 }
    ensures { result ≡ key_of_bytes bytes.now }
{
    RmapKey {
        start: get32(bytes, owner_key::START.offset),
        owner: get64(bytes, owner_key::OWNER.offset),
        offset_word: key_word(get64(bytes, owner_key::OFFSET.offset)),
    }
}

/// Writes a key into its 20 bytes.
pub fn put_key(key: &RmapKey, bytes: &mut [u8])
    requires { length bytes.old ≡ 20 }
    ensures { bytes.new ≡ key_bytes key.now }
{
    put32(bytes, owner_key::START.offset, key.start);
    put64(bytes, owner_key::OWNER.offset, key.owner);
    put64(bytes, owner_key::OFFSET.offset, key.offset_word);
}

/// The key of a run's first block.
pub fn low_key(run: &RmapRec) -> RmapKey
    ensures { result ≡ low_key run.now }
{
    RmapKey {
        start: run.start,
        owner: run.owner,
        offset_word: key_word(run.offset_word),
    }
}

/// The key of a run's last block.
pub fn high_key(run: &RmapRec) -> RmapKey
    ensures { result ≡ high_key run.now }
{
    RmapKey {
        start: run.start.saturating_add(run.count.saturating_sub(1)),
        owner: run.owner,
        offset_word: key_word(last_word(run)),
    }
}

/// The offset word of a run's last block.
fn last_word(run: &RmapRec) -> u64
    ensures { result ≡ last_word run.now }
{
    if is_file_data(run.owner, run.offset_word) {
        run.offset_word
            .saturating_add(run.count.saturating_sub(1) as u64)
    } else {
        run.offset_word
    }
}

/// The order of the blocks, then of the owners, then of the offset words.
pub fn key_order(a: &RmapKey, b: &RmapKey) -> Ordering
    ensures { result ≡ key_order a.now b.now }
{
    let blocks = a.start.cmp(&b.start);
    blocks
        .then(a.owner.cmp(&b.owner))
        .then(a.offset_word.cmp(&b.offset_word))
}

/// Whether these are some blocks inside the group with an owner, at offsets that a fork can have.
pub fn is_owned_run(g: &Geometry, ag: u32, run: &RmapRec) -> bool
    ensures { result ≡ is_owned_run (volume_of g.now) ag run.now }
{
    1 <= run.count
        && is_owner(run.owner)
        && ends_by(offset_in_fork(run.offset_word), run.count as u64, LAST_END)
        && lies_in_group(g, ag as u64, run.start as u64, run.count as u64)
}

/// Whether a number is an owner's: no owner is all ones.
fn is_owner(owner: u64) -> bool
    ensures { result ≡ is_owner owner }
{
    owner != u64::MAX
}

/// Whether a run begins at or behind the end of the one before it.
pub fn follows_end(before: Option<&RmapRec>, run: &RmapRec) -> bool
    ensures { result ≡ follows_end (option_copied before.entry) run.now }
{
    match before {
        Some(before) => ends_by(before.start as u64, before.count as u64, run.start as u64),
        None => true,
    }
}
