//! What slots read as by themselves (chapter "On-disk Inode").

ghost use Rattle.std.specs.Prelude.{◌≡◌, length};
ghost use Rattle.xfs_word.specs.Field.{field_of};
ghost use Rattle.xfs_rounds.specs.Facts.{reading_of};

use xfs_inode::SlotRead;
use xfs_inode::layouts::inode::LSN;
use xfs_word::get64;

/// What a slot reads as by itself, without any other block.
#[derive(Clone, Copy, Debug)]
pub enum SlotReading {
    /// It holds no file.
    Free,
    /// It holds an inode, with a feature that is not supported or without.
    InUse,
    /// It is not sealed as the slot of its inode.
    Unsound,
}

/// What is kept of a slot in place of its bytes.
#[derive(Clone, Copy, Debug)]
pub struct SlotFact {
    pub reading: SlotReading,
    /// The log sequence number that stands in it.
    pub lsn: u64,
}

/// What is kept of a slot of 512 bytes that reads so by itself.
pub(crate) fn fact_of(slot: &[u8], read: &SlotRead) -> SlotFact
    requires { length slot.now ≡ 512 }
    ensures { result ≡ record { reading = reading_of read.now; lsn = field_of slot.now 112 8 } }
{
    SlotFact {
        reading: reading_of(read),
        lsn: get64(slot, LSN.offset),
    }
}

/// What of a slot's reading is kept.
fn reading_of(read: &SlotRead) -> SlotReading
    ensures { result ≡ reading_of read.now }
{
    match read {
        SlotRead::Free => SlotReading::Free,
        SlotRead::InUse(_) => SlotReading::InUse,
        SlotRead::Unsupported { .. } => SlotReading::InUse,
        SlotRead::Unsound => SlotReading::Unsound,
    }
}
