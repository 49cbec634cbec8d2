//! A blank log: an unmount record at its start, and nothing else.

ghost use Rattle.std.specs.Prelude.{◌≡◌, ℕ, ◌+◌, ◌-◌, ◌*◌, ◌^◌, ◌<◌, ◌≤◌, length};
ghost use Rattle.xfs_word.specs.Field.{field_of, part_of, KeepsBeside, KeepsParts, IsZero};
ghost use Rattle.xfs_log.specs.Log.{seen_of};
ghost use Rattle.xfs_log.specs.BlankLog.{IsBlankHeader, IsBlankData, IsBlankRest, IsBlank, blank_seen};

use crate::layout::{
    CRC, CYCLE, CYCLE_DATA, FMT, FS_UUID, LEN, LSN, MAGICNO, NUM_LOGOPS, PREV_BLOCK, SIZE,
    TAIL_LSN, VERSION,
};
use crate::sectors::{HEADER_SPAN, MAGIC, SECTOR_SIZE, VERSION_2};
use xfs_heads::clear;
use xfs_word::{put_part, put32, put64};

/// The transaction of the operation that writes an unmount record. In the data the cycle stands in its
/// place, and it stands in the header.
const TRANSACTION: u32 = 0xb0c0_d0d0;

/// The bytes of an unmount record.
const UNMOUNT_LEN: u32 = 8;

/// The operation's client, which is the log, its flag of an unmount record, and two bytes of nothing.
const OPERATION: u32 = 0xaa20_0000;

/// The magic number of an unmount record, and two bytes of nothing.
const UNMOUNT_MAGIC: u32 = 0x6e55_0000;

/// Log items whose numbers are little-endian.
const LITTLE_ENDIAN: u32 = 1;

/// Writes the sector of a blank log of this cycle at an index of the log.
pub fn blank_log_sector(cycle: u32, index: u64, uuid: &[u8; 16], sector: &mut [u8])
    requires some { 1 ≤ cycle }
    requires few { cycle < 2 ^ 31 }
    requires sector { length sector.old ≡ 512 }
    ensures blank { IsBlank cycle index uuid.now sector.new }
    ensures seen { seen_of sector.new ≡ blank_seen cycle index }
{
    match index {
        0 => put_header(cycle, uuid, sector),
        1 => put_data(cycle, sector),
        _ => put_rest(cycle, sector),
    }
}

/// Writes the sector with the header of the record.
fn put_header(cycle: u32, uuid: &[u8; 16], sector: &mut [u8])
    requires { length sector.old ≡ 512 }
    ensures { IsBlankHeader cycle uuid.now sector.new }
{
    clear(sector);
    put_front(cycle, sector);
    put_back(uuid, sector);
}

/// Writes the fields of the header up to the first replaced number.
fn put_front(cycle: u32, sector: &mut [u8])
    requires { length sector.old ≡ 512 }
    ensures magicno { field_of sector.new 0 4 ≡ 0xfeed_babe }
    ensures cycle { field_of sector.new 4 4 ≡ cycle }
    ensures version { field_of sector.new 8 4 ≡ 2 }
    ensures len { field_of sector.new 12 4 ≡ 512 }
    ensures lsn { field_of sector.new 16 8 ≡ cycle * 2 ^ 32 }
    ensures tail_lsn { field_of sector.new 24 8 ≡ cycle * 2 ^ 32 }
    ensures crc { field_of sector.new 32 4 ≡ 0 }
    ensures prev_block { field_of sector.new 36 4 ≡ 2 ^ 32 - 1 }
    ensures num_logops { field_of sector.new 40 4 ≡ 1 }
    ensures cycle_data { field_of sector.new 44 4 ≡ 0xb0c0_d0d0 }
    ensures keeps_parts { KeepsParts sector.old sector.new 0 48 }
{
    let lsn = (cycle as u64) << 32;
    put32(sector, MAGICNO.offset, MAGIC);
    put32(sector, CYCLE.offset, cycle);
    put32(sector, VERSION.offset, VERSION_2);
    put32(sector, LEN.offset, SECTOR_SIZE as u32);
    put64(sector, LSN.offset, lsn);
    put64(sector, TAIL_LSN.offset, lsn);
    put32(sector, CRC.offset, 0);
    put32(sector, PREV_BLOCK.offset, u32::MAX);
    put32(sector, NUM_LOGOPS.offset, 1);
    put32(sector, CYCLE_DATA.offset, TRANSACTION);
}

/// Writes the fields of the header behind the replaced numbers.
fn put_back(uuid: &[u8; 16], sector: &mut [u8])
    requires { length sector.old ≡ 512 }
    ensures fmt { field_of sector.new 300 4 ≡ 1 }
    ensures fs_uuid { part_of sector.new 304 16 ≡ uuid.now }
    ensures size { field_of sector.new 320 4 ≡ 32768 }
    ensures keeps { KeepsBeside sector.old sector.new 300 24 }
    ensures keeps_parts { KeepsParts sector.old sector.new 300 24 }
{
    put32(sector, FMT.offset, LITTLE_ENDIAN);
    put_part(sector, FS_UUID.offset, uuid);
    put32(sector, SIZE.offset, HEADER_SPAN);
}

/// Writes the record's data, an unmount record.
fn put_data(cycle: u32, sector: &mut [u8])
    requires { length sector.old ≡ 512 }
    ensures { IsBlankData cycle sector.new }
{
    clear(sector);
    put32(sector, 0, cycle);
    put32(sector, 4, UNMOUNT_LEN);
    put32(sector, 8, OPERATION);
    put32(sector, 12, UNMOUNT_MAGIC);
}

/// Writes a sector behind the record.
fn put_rest(cycle: u32, sector: &mut [u8])
    requires some { 1 ≤ cycle }
    requires sector { length sector.old ≡ 512 }
    ensures { IsBlankRest cycle sector.new }
{
    clear(sector);
    put32(sector, 0, cycle - 1);
}
