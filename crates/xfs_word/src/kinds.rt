//! The kinds of sealed objects, and where each has the fields that seal it.

ghost use Rattle.std.specs.Prelude.{◌≡◌, ℕ, length};
ghost use Rattle.xfs_word.specs.Seal.{layout_of, has_magic, IsInside, IsApart};

use crate::fields::{get8, get16, get32};

/// A kind of sealed object.
#[derive(Clone, Copy, Debug, PartialEq, Eq)]
pub enum SealKind {
    /// The superblock, the first sector of an allocation group.
    Super,
    /// The free space header of an allocation group.
    Agf,
    /// The inode header of an allocation group.
    Agi,
    /// The free list of an allocation group.
    Agfl,
    /// A tree block that belongs to an allocation group, with the magic number of its tree.
    ShortTree { magic: u32 },
    /// A block of an inode's extent tree.
    LongTree,
    /// An inode.
    Slot,
    /// A directory's data block, or its only block.
    DirData,
    /// A directory's block of free indexes.
    DirFree,
    /// A block of a hashed index of names, with the magic number of its form.
    Index { magic: u16 },
    /// A block of a symbolic link's target.
    Symlink,
}

/// What a sealed object states of itself.
#[derive(Clone, Copy)]
pub struct Seal {
    /// What the object is.
    pub kind: SealKind,
    /// Its own address: the allocation group's number for the group headers, the inode number for a
    /// slot, and for a whole block the first of its sectors of 512 bytes. A superblock states none.
    pub place: u64,
    /// The allocation group or inode that it belongs to; with none demanded, any is right.
    pub owner: Option<u64>,
    /// The identifier of the file system.
    pub uuid: [u8; 16],
}

/// Where a number stands: its offset and its width, both in bytes.
#[derive(Clone, Copy)]
pub struct FieldPlace {
    pub offset: usize,
    pub width: usize,
}

/// Where an object has the fields that seal it; sizes and offsets are in bytes.
#[derive(Clone, Copy)]
pub struct SealLayout {
    /// The size of the object.
    pub size: usize,
    /// The offset of the checksum, of 4 bytes.
    pub checksum: usize,
    /// The offset of the identifier, of 16 bytes; a superblock's is its own.
    pub identifier: Option<usize>,
    /// The place of its own address.
    pub address: Option<FieldPlace>,
    /// The place of its owner.
    pub owner: Option<FieldPlace>,
    /// The offset of the log sequence number, of 8 bytes.
    pub lsn: usize,
}

/// The magic number of an inode, `IN`.
const SLOT_MAGIC: u32 = 0x494e;

impl SealKind {
    /// Where an object of this kind has the fields that seal it.
    pub fn layout(&self) -> SealLayout
        ensures table { result ≡ layout_of self.now }
        ensures inside { IsInside result }
        ensures apart { IsApart result }
    {
        self.table()
    }

    /// The layout of each kind.
    fn table(&self) -> SealLayout
        ensures { result ≡ layout_of self.now }
    {
        match self {
            SealKind::Super => {
                SealLayout {
                    size: 512,
                    checksum: 224,
                    identifier: None,
                    address: None,
                    owner: None,
                    lsn: 240,
                }
            }
            SealKind::Agf => headed(512, 216, 64, at(8, 4), None, 208),
            SealKind::Agi => headed(512, 312, 296, at(8, 4), None, 320),
            SealKind::Agfl => headed(512, 32, 8, at(4, 4), None, 24),
            SealKind::ShortTree { .. } => headed(4096, 52, 32, at(16, 8), Some(at(48, 4)), 24),
            SealKind::LongTree => headed(4096, 64, 40, at(24, 8), Some(at(56, 8)), 32),
            SealKind::Slot => headed(512, 100, 160, at(152, 8), None, 112),
            SealKind::DirData => headed(4096, 4, 24, at(8, 8), Some(at(40, 8)), 16),
            SealKind::DirFree => headed(4096, 4, 24, at(8, 8), Some(at(40, 8)), 16),
            SealKind::Index { .. } => headed(4096, 12, 32, at(16, 8), Some(at(48, 8)), 24),
            SealKind::Symlink => headed(4096, 12, 16, at(40, 8), Some(at(32, 8)), 48),
        }
    }

    /// Whether `bytes` have this kind's magic number, and its version where it has one.
    #[tactic(auto, unfolding(crate::specs::Seal::has_magic))]
    pub fn is_magic_right(&self, bytes: &[u8]) -> bool
        requires { length bytes.now ≡ (layout_of self.now).size }
        ensures { result ≡ has_magic self.now bytes.now }
    {
        match self {
            SealKind::Super => get32(bytes, 0) == 0x5846_5342 && get16(bytes, 100) % 16 == 5,
            SealKind::Agf => get32(bytes, 0) == 0x5841_4746,
            SealKind::Agi => get32(bytes, 0) == 0x5841_4749,
            SealKind::Agfl => get32(bytes, 0) == 0x5841_464c,
            SealKind::ShortTree { magic } => get32(bytes, 0) == *magic,
            SealKind::LongTree => get32(bytes, 0) == 0x424d_4133,
            SealKind::Slot => get16(bytes, 0) as u32 == SLOT_MAGIC && get8(bytes, 4) == 3,
            SealKind::DirData => get32(bytes, 0) == 0x5844_4433 || get32(bytes, 0) == 0x5844_4233,
            SealKind::DirFree => get32(bytes, 0) == 0x5844_4633,
            SealKind::Index { magic } => {
                get16(bytes, 8) == *magic && get32(bytes, 0) >> 16 != SLOT_MAGIC
            }
            SealKind::Symlink => get32(bytes, 0) == 0x5853_4c4d,
        }
    }
}

/// The number of `width` bytes at `offset`.
fn at(offset: usize, width: usize) -> FieldPlace
    ensures { result ≡ record { offset = offset; width = width } }
{
    FieldPlace { offset, width }
}

/// The layout of an object that states an identifier and its own address.
fn headed(
    size: usize,
    checksum: usize,
    identifier: usize,
    address: FieldPlace,
    owner: Option<FieldPlace>,
    lsn: usize,
) -> SealLayout
    ensures { result ≡ record { size = size; checksum = checksum; identifier = Some identifier; address = Some address; owner = owner; lsn = lsn } }
{
    SealLayout {
        size,
        checksum,
        identifier: Some(identifier),
        address: Some(address),
        owner,
        lsn,
    }
}
