//! What the bytes of a block are: whole objects, or slots of inodes.

ghost use Rattle.std.specs.Prelude.{◌≡◌, ◌+◌, ◌*◌, ◌<◌, ◌≤◌, ◌==◌, ◌&&◌, ◌||◌, not, List, ℕ, length, IfOk};
ghost use Rattle.std.specs.List.{All, list_any, range_with_len};
ghost use Rattle.std.specs.Option.{ForSome};
ghost use Rattle.xfs_disk.specs.Faults.{HasCause};
ghost use Rattle.xfs_geom.specs.Conversions.{inode_of};
ghost use Rattle.xfs_geom.specs.Volumes.{volume_of};
ghost use Rattle.xfs_image.specs.Candidates.{is_used_slot, has_whole_seal, owner_due, whole_seal};
ghost use Rattle.xfs_image.specs.xfs_inode.Slots.{slot_seal};
ghost use Rattle.xfs_disk.specs.Reads.{OnlyReads};
ghost use Rattle.xfs_disk.specs.Blocks.{bytes_of_block};
ghost use Rattle.xfs_word.specs.Field.{field_of};
ghost use Rattle.xfs_word.specs.Seal.{begins_as_slot, is_sealed, layout_of};
ghost use Rattle.xfs_groups.specs.Private.Looking.{IsSeen, has_used};

use crate::heads::read_block;
use std::sync::ledger::Ledger;
use xfs_collections::Steps;
use xfs_disk::{BLOCK_SIZE, Disk, Failed};
use xfs_geom::Geometry;
use xfs_word::{Seal, SealKind, get16, get32, part, sealed};

/// The bytes of a slot of an inode.
const SLOT_SIZE: usize = 512;

/// The magic number at the start of a slot: `IN`.
const SLOT_MAGIC: u32 = 0x494e;

/// The offset of the mode in a slot: 0 where the slot holds no file.
const MODE: usize = 2;

/// The kinds of the blocks of the trees of a group that name inodes: of chunks, and of owners.
const NAMING_KINDS: [SealKind; 2] = [
    SealKind::ShortTree { magic: 0x4941_4233 },
    SealKind::ShortTree { magic: 0x524d_4233 },
];

/// The kinds of objects that fill a block: blocks of the five trees of a group, of extent trees, of directories, of indexes of
/// names, of symbolic links.
const WHOLE_KINDS: [SealKind; 13] = [
    SealKind::ShortTree { magic: 0x4142_3342 },
    SealKind::ShortTree { magic: 0x4142_3343 },
    SealKind::ShortTree { magic: 0x4941_4233 },
    SealKind::ShortTree { magic: 0x4649_4233 },
    SealKind::ShortTree { magic: 0x524d_4233 },
    SealKind::LongTree,
    SealKind::DirData,
    SealKind::DirFree,
    SealKind::Index { magic: 0x3df1 },
    SealKind::Index { magic: 0x3dff },
    SealKind::Index { magic: 0x3ebe },
    SealKind::Index { magic: 0x3bee },
    SealKind::Symlink,
];

/// What the bytes of a block are.
#[derive(Clone, Copy)]
pub(crate) struct BlockSeen {
    /// One of its slots is sealed and holds a file.
    pub used: bool,
    /// It is sealed as a block of the tree of chunks or of that of owners of its group.
    pub naming: bool,
    /// It is sealed as one object.
    pub whole: bool,
}

/// Reads a block, and says what its bytes are.
pub(crate) fn look<D: Disk, L: Ledger>(
    g: &Geometry,
    disk: &mut D,
    place: u64,
    steps: &mut Steps<L>,
) -> Result<BlockSeen, Failed>
    requires place { place < g.now.dblocks }
    requires inside { g.now.dblocks ≤ D.size disk.old }
    ensures seen { IfOk result (λ seen. ForSome (D.holds disk.old) (λ image. IsSeen (volume_of g.now) image place seen)) }
    ensures cause { HasCause (D.faults disk.old) (D.faults disk.new) result }
    ensures disk { OnlyReads D.size D.holds D.write_faults D.writes D.tells_stops D.moment D.may_leave D.left_since disk.old disk.new }
    ensures reads { D.reads disk.new + steps.old ≤ D.reads disk.old + steps.new }
    ensures ticks { steps.new ≡ steps.old + 1 }
{
    let mut block = [0; BLOCK_SIZE];
    match read_block(disk, place, &mut block, steps) {
        Ok(()) => Ok(seen(g, place, &block)),
        Err(Failed) => Err(Failed),
    }
}

/// Whether a block is sealed as one object. Of one that begins as a slot does, as those of clusters do, no more is read.
pub(crate) fn look_whole<D: Disk, L: Ledger>(
    g: &Geometry,
    disk: &mut D,
    place: u64,
    steps: &mut Steps<L>,
) -> Result<bool, Failed>
    requires place { place < g.now.dblocks }
    requires inside { g.now.dblocks ≤ D.size disk.old }
    ensures whole { IfOk result (λ whole. ForSome (D.holds disk.old) (λ image. whole ≡ has_whole_seal (volume_of g.now) image place)) }
    ensures cause { HasCause (D.faults disk.old) (D.faults disk.new) result }
    ensures disk { OnlyReads D.size D.holds D.write_faults D.writes D.tells_stops D.moment D.may_leave D.left_since disk.old disk.new }
    ensures reads { D.reads disk.new + steps.old ≤ D.reads disk.old + steps.new }
{
    match begins_as_slot(disk, place, steps) {
        Ok(true) => Ok(false),
        Ok(false) => look_at_all(g, disk, place, steps),
        Err(Failed) => Err(Failed),
    }
}

/// Whether the magic number of a slot of an inode stands at the start of these bytes of a block.
pub fn is_slot_block(bytes: &[u8]) -> bool
    requires { 4 ≤ length bytes.now }
    ensures { result ≡ begins_as_slot bytes.now }
{
    get32(bytes, 0) >> 16 == SLOT_MAGIC
}

/// Whether the magic number of a slot of an inode stands at the start of a block: no object that fills a block begins so.
fn begins_as_slot<D: Disk, L: Ledger>(
    disk: &mut D,
    place: u64,
    steps: &mut Steps<L>,
) -> Result<bool, Failed>
    requires inside { place < D.size disk.old }
    ensures begins { IfOk result (λ begins. ForSome (D.holds disk.old) (λ image. begins ≡ begins_as_slot (bytes_of_block image place))) }
    ensures cause { HasCause (D.faults disk.old) (D.faults disk.new) result }
    ensures disk { OnlyReads D.size D.holds D.write_faults D.writes D.tells_stops D.moment D.may_leave D.left_since disk.old disk.new }
    ensures reads { D.reads disk.new + steps.old ≤ D.reads disk.old + steps.new }
{
    let mut front = [0; 4];
    steps.tick();
    match disk.read_front(place, &mut front) {
        Ok(()) => Ok(is_slot_block(&front)),
        Err(Failed) => Err(Failed),
    }
}

/// Reads a block, and says whether it is sealed as one object.
fn look_at_all<D: Disk, L: Ledger>(
    g: &Geometry,
    disk: &mut D,
    place: u64,
    steps: &mut Steps<L>,
) -> Result<bool, Failed>
    requires place { place < g.now.dblocks }
    requires inside { g.now.dblocks ≤ D.size disk.old }
    ensures whole { IfOk result (λ whole. ForSome (D.holds disk.old) (λ image. whole ≡ has_whole_seal (volume_of g.now) image place)) }
    ensures cause { HasCause (D.faults disk.old) (D.faults disk.new) result }
    ensures disk { OnlyReads D.size D.holds D.write_faults D.writes D.tells_stops D.moment D.may_leave D.left_since disk.old disk.new }
    ensures reads { D.reads disk.new + steps.old ≤ D.reads disk.old + steps.new }
{
    let mut block = [0; BLOCK_SIZE];
    match read_block(disk, place, &mut block, steps) {
        Ok(()) => Ok(has_whole_seal(g, place, &block)),
        Err(Failed) => Err(Failed),
    }
}

/// What the bytes of a block are.
fn seen(g: &Geometry, place: u64, block: &[u8]) -> BlockSeen
    requires place { place < g.now.dblocks }
    requires block { length block.now ≡ 4096 }
    ensures { (image : List (List ℕ)) → bytes_of_block image place ≡ block.now → IsSeen (volume_of g.now) image place result }
{
    BlockSeen {
        used: has_used_slot(g, place, block),
        naming: is_any(g, place, &NAMING_KINDS, block),
        whole: has_whole_seal(g, place, block),
    }
}

/// Whether a block is sealed as one object.
#[tactic(auto, unfolding(xfs_image::specs::Candidates::has_whole_seal))]
fn has_whole_seal(g: &Geometry, place: u64, block: &[u8]) -> bool
    requires place { place < g.now.dblocks }
    requires block { length block.now ≡ 4096 }
    ensures { (image : List (List ℕ)) → bytes_of_block image place ≡ block.now → result ≡ has_whole_seal (volume_of g.now) image place }
{
    is_any(g, place, &WHOLE_KINDS, block)
}

/// Whether a block is sealed as an object of one of some kinds.
fn is_any(g: &Geometry, place: u64, kinds: &[SealKind], block: &[u8]) -> bool
    requires place { place < g.now.dblocks }
    requires kinds { All (λ kind. (layout_of kind).size ≡ 4096) kinds.now }
    requires block { length block.now ≡ 4096 }
    ensures { result ≡ list_any (λ kind. is_sealed (whole_seal (volume_of g.now) place kind) block.now) kinds.now }
{
    for kind in kinds {
        if sealed(&whole_seal(g, place, *kind), block) {
            return true;
        }
    }
    false
}

/// How a block is sealed that is one object.
fn whole_seal(g: &Geometry, place: u64, kind: SealKind) -> Seal
    requires { place < g.now.dblocks }
    ensures { result ≡ whole_seal (volume_of g.now) place kind }
{
    Seal {
        kind,
        place: 8 * place,
        owner: owner_due(g, place, kind),
        uuid: g.uuid,
    }
}

/// The owner that an object of a kind has: its group for a block of a group's tree, any inode for the others.
fn owner_due(g: &Geometry, place: u64, kind: SealKind) -> Option<u64>
    requires { place < g.now.dblocks }
    ensures { result ≡ owner_due (volume_of g.now) place kind }
{
    match kind {
        SealKind::ShortTree { .. } => Some(place / g.agblocks as u64),
        _ => None,
    }
}

/// Whether one of the eight slots of a block is sealed and holds a file.
fn has_used_slot(g: &Geometry, place: u64, block: &[u8]) -> bool
    requires place { place < g.now.dblocks }
    requires block { length block.now ≡ 4096 }
    ensures { (image : List (List ℕ)) → bytes_of_block image place ≡ block.now → result ≡ has_used (volume_of g.now) image place }
{
    is_any_used(g, place, 8, block)
}

/// Whether one of the first slots of a block is sealed and holds a file.
fn is_any_used(g: &Geometry, place: u64, count: u8, block: &[u8]) -> bool
    requires place { place < g.now.dblocks }
    requires count { count ≤ 8 }
    requires block { length block.now ≡ 4096 }
    ensures { (image : List (List ℕ)) → bytes_of_block image place ≡ block.now
        → result ≡ list_any (λ slot. is_used_slot (volume_of g.now) image (inode_of (volume_of g.now) place slot)) (range_with_len 0 count) }
{
    for slot in 0..count {
        if is_used(g, place, slot, block) {
            return true;
        }
    }
    false
}

/// Whether a slot of a block is sealed and holds a file.
fn is_used(g: &Geometry, place: u64, slot: u8, block: &[u8]) -> bool
    requires place { place < g.now.dblocks }
    requires slot { slot < 8 }
    requires block { length block.now ≡ 4096 }
    ensures { (image : List (List ℕ)) → bytes_of_block image place ≡ block.now → result ≡ is_used_slot (volume_of g.now) image (inode_of (volume_of g.now) place slot) }
{
    let ino = g.inode_of_slot(place, slot);
    is_used_as(g, ino, part(block, SLOT_SIZE * slot as usize, SLOT_SIZE))
}

/// Whether a slot is sealed for an inode and holds a file.
fn is_used_as(g: &Geometry, ino: u64, slot: &[u8]) -> bool
    requires { length slot.now ≡ 512 }
    ensures { result ≡ (is_sealed (slot_seal (volume_of g.now) ino) slot.now && not (field_of slot.now 2 2 == 0)) }
{
    let seal = Seal {
        kind: SealKind::Slot,
        place: ino,
        owner: None,
        uuid: g.uuid,
    };
    sealed(&seal, slot) && get16(slot, MODE) != 0
}
