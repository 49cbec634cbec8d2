//! The marks by which it is known that a disk holds something: a volume, another file system, or a partition table.

ghost use Rattle.std.specs.Prelude.{◌≡◌, ℕ, ◌≤◌, ◌<◌, ◌||◌, length, map, take, IfOk, OnOk, OnErr};
ghost use Rattle.std.specs.List.{All, list_any};
ghost use Rattle.std.specs.Option.{ForSome};
ghost use Rattle.xfs_disk.specs.Counts.{raised_times};
ghost use Rattle.xfs_disk.specs.Faults.{HasCause};
ghost use Rattle.xfs_disk.specs.Reads.{OnlyReads};
ghost use Rattle.xfs_disk.specs.Blocks.{bytes_of_block};
ghost use Rattle.xfs_mkfs.specs.Marks.{bears, is_marked, mark_of, has_mark, stands_at};

use xfs_disk::{BLOCK_SIZE, Disk, Failed};

/// Bytes that show what a disk holds, and the byte of the disk at which they begin.
#[derive(Clone, Copy)]
struct Mark {
    at: u64,
    bytes: &'static [u8],
}

/// All marks, by the bytes at which they begin.
const MARKS: [Mark; 14] = [
    // XFS
    Mark {
        at: 0,
        bytes: b"XFSB",
    },
    // squashfs
    Mark {
        at: 0,
        bytes: b"hsqs",
    },
    // LUKS
    Mark {
        at: 0,
        bytes: b"LUKS\xba\xbe",
    },
    // NTFS
    Mark {
        at: 3,
        bytes: b"NTFS",
    },
    // a partition table of the first kind, or a boot sector
    Mark {
        at: 510,
        bytes: b"\x55\xaa",
    },
    // a partition table by GUIDs
    Mark {
        at: 512,
        bytes: b"EFI PART",
    },
    // LVM
    Mark {
        at: 512,
        bytes: b"LABELONE",
    },
    // F2FS
    Mark {
        at: 1024,
        bytes: b"\x10\x20\xf5\xf2",
    },
    // ext2, ext3 and ext4
    Mark {
        at: 1080,
        bytes: b"\x53\xef",
    },
    // swap space
    Mark {
        at: 4086,
        bytes: b"SWAPSPACE2",
    },
    Mark {
        at: 4086,
        bytes: b"SWAP-SPACE",
    },
    // Linux software RAID
    Mark {
        at: 4096,
        bytes: b"\xfc\x4e\x2b\xa9",
    },
    // ISO 9660
    Mark {
        at: 32769,
        bytes: b"CD001",
    },
    // btrfs
    Mark {
        at: 65600,
        bytes: b"_BHRfS_M",
    },
];

/// The blocks in which they begin, and end.
const MARK_BLOCKS: [u64; 4] = [0, 1, 8, 16];

impl Mark {
    /// Whether the mark is due in the block of this number, which has these bytes, and stands there.
    fn stands_at(&self, at: u64, block: &[u8]) -> bool
        requires { length block.now ≡ 4096 }
        ensures { result ≡ stands_at at block.now (mark_of self.now) }
    {
        self.at / 4096 == at && self.has_mark(block)
    }

    /// Whether the mark stands in the block in which it is due.
    fn has_mark(&self, block: &[u8]) -> bool
        requires { length block.now ≡ 4096 }
        ensures { result ≡ has_mark block.now (mark_of self.now) }
    {
        let rest = block.split_at((self.at % 4096) as usize).1;
        head(rest, self.bytes.len()) == self.bytes
    }
}

/// The first of some bytes, so many at most.
fn head(bytes: &[u8], most: usize) -> &[u8]
    ensures { result.now ≡ take most bytes.now }
{
    &bytes[..bytes.len().min(most)]
}

/// Whether a mark stands on a disk that has the blocks in which they are due. Each of these is read once, in ascending order.
pub fn is_marked<D: Disk>(disk: &mut D) -> Result<bool, Failed>
    requires some { 16 < D.size disk.old }
    ensures value { IfOk result (λ there. ForSome (D.holds disk.old) (λ image. there ≡ is_marked image)) }
    ensures disk { OnlyReads D.size D.holds D.write_faults D.writes D.tells_stops D.moment D.may_leave D.left_since disk.old disk.new }
    ensures counted { OnOk result (D.reads disk.new ≡ raised_times 4 (D.reads disk.old)) }
    ensures failed { OnErr result ((k : ℕ) × (k ≤ 3) × (D.reads disk.new ≡ raised_times k (D.reads disk.old))) }
    ensures cause { HasCause (D.faults disk.old) (D.faults disk.new) result }
{
    look_at(disk, &MARK_BLOCKS)
}

/// Whether a mark stands in some blocks, of which each is read once.
fn look_at<D: Disk>(disk: &mut D, blocks: &[u64]) -> Result<bool, Failed>
    requires inside { All (λ block. block < D.size disk.old) blocks.now }
    ensures value { IfOk result (λ there. ForSome (D.holds disk.old) (λ image. there ≡ list_any (λ (block : ℕ). bears block (bytes_of_block image block)) blocks.now)) }
    ensures disk { OnlyReads D.size D.holds D.write_faults D.writes D.tells_stops D.moment D.may_leave D.left_since disk.old disk.new }
    ensures counted { OnOk result (D.reads disk.new ≡ raised_times (length blocks.now) (D.reads disk.old)) }
    ensures failed { OnErr result ((k : ℕ) × (k < length blocks.now) × (D.reads disk.new ≡ raised_times k (D.reads disk.old))) }
    ensures cause { HasCause (D.faults disk.old) (D.faults disk.new) result }
{
    let mut there = false;
    let mut bytes = [0; BLOCK_SIZE];
    for block in blocks {
        match disk.read(*block, &mut bytes) {
            Ok(()) => there = either(there, bears(*block, &bytes)),
            Err(Failed) => return Err(Failed),
        }
    }
    Ok(there)
}

/// Whether one of two things is so.
fn either(one: bool, other: bool) -> bool
    ensures { result ≡ (one || other) }
{
    one || other
}

/// Whether a mark that is due in the block of this number, which has these bytes, stands there.
#[tactic(auto, unfolding(crate::specs::Marks::bears, crate::specs::Marks::marks))]
fn bears(at: u64, block: &[u8]) -> bool
    requires { length block.now ≡ 4096 }
    ensures { result ≡ bears at block.now }
{
    bears_one(&MARKS, at, block)
}

/// Whether one of some marks stands in the block of this number, and is due there.
fn bears_one(marks: &[Mark], at: u64, block: &[u8]) -> bool
    requires { length block.now ≡ 4096 }
    ensures { result ≡ list_any (stands_at at block.now) (map mark_of marks.now) }
{
    for mark in marks {
        if mark.stands_at(at, block) {
            return true;
        }
    }
    false
}
