//! Why no evidence is gathered.

ghost use Rattle.std.specs.Prelude.{◌≡◌};
ghost use Rattle.xfs_scan.specs.Answers.{scan_fault_of};

use xfs_slots::PartFault;

/// Why no evidence is gathered.
#[derive(Clone, Copy)]
pub enum ScanFault {
    /// A read failed.
    ReadFault,
    /// There is more than the tools take: `what` is 1 for inodes, 2 for extents, 3 for entries; `count` is how many there
    /// are.
    TooLarge { what: u8, count: u64 },
    /// An inode has a feature that is not supported: 1 an attribute's value outside its leaf, 2 attributes in more than one
    /// block, 3 a real-time file, 4 blocks shared by files, 5 times of 64 bits, 6 counts of 64 bits. It is the least.
    UnsupportedFile { ino: u64, what: u8 },
    /// There is not enough memory.
    NoMemory,
}

/// The fault of a part, as the answer of the whole.
pub(crate) fn answer(fault: PartFault) -> ScanFault
    ensures { result ≡ scan_fault_of fault }
{
    match fault {
        PartFault::ReadFault => ScanFault::ReadFault,
        PartFault::NoMemory => ScanFault::NoMemory,
    }
}
