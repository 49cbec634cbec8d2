//! What of the sectors of a log says whether it is clean.

ghost use Rattle.std.specs.Prelude.{◌≡◌, ◌^◌, ◌<◌, length};
ghost use Rattle.xfs_log.specs.Log.{seen_of, header_seen, data_seen, sectors_of_header, record_sectors, has_unmount_flag};

use crate::layout::{CYCLE, FIRST_FLAGS, LEN, MAGICNO, NUM_LOGOPS, SIZE, VERSION};
use xfs_word::{get8, get32};

/// The magic number of a record's header.
pub const MAGIC: u32 = 0xfeed_babe;

/// The bit of a header's version that allows more than one header sector.
pub const VERSION_2: u32 = 2;

/// The bytes of a record's buffer for which one header sector holds the replaced numbers.
pub const HEADER_SPAN: u32 = 32768;

/// The bytes of a sector.
pub const SECTOR_SIZE: usize = 512;

/// The flag of an operation that writes an unmount record.
const UNMOUNT: u8 = 0x20;

/// What of a sector of the log says whether the log is clean. A list of these is made, of hundreds of thousands for a large log that is in
/// use, so they are small: of a header's numbers what is asked for, and of any other sector's none.
#[derive(Clone, Copy, Debug, PartialEq, Eq)]
pub struct SectorSeen {
    /// How often the log had gone around when the sector was written.
    pub cycle: u32,
    /// The header sectors of the record, or 0.
    pub header_sectors: u32,
    /// The bytes of the record's data, or 0.
    pub len: u32,
    /// Whether the sector begins a record.
    pub header: bool,
    /// Whether the record has one operation.
    pub single: bool,
    /// The flags that the sector has as the first data sector of a record.
    pub flag: u8,
}

/// What is seen of a sector of zeros.
pub const ZERO_SECTOR: SectorSeen = SectorSeen {
    cycle: 0,
    header_sectors: 0,
    len: 0,
    header: false,
    single: false,
    flag: 0,
};

/// What of a sector says whether the log is clean.
#[tactic(auto, unfolding(crate::specs::Log::seen_of))]
pub fn see_sector(sector: &[u8]) -> SectorSeen
    requires { length sector.now ≡ 512 }
    ensures { result ≡ seen_of sector.now }
{
    if get32(sector, MAGICNO.offset) == MAGIC {
        see_header(sector)
    } else {
        see_data(sector)
    }
}

/// What a sector says that begins a record.
fn see_header(sector: &[u8]) -> SectorSeen
    requires { length sector.now ≡ 512 }
    ensures { result ≡ header_seen sector.now }
{
    SectorSeen {
        cycle: get32(sector, CYCLE.offset),
        header: true,
        header_sectors: sectors_of_header(
            get32(sector, VERSION.offset),
            get32(sector, SIZE.offset),
        ),
        len: get32(sector, LEN.offset),
        single: get32(sector, NUM_LOGOPS.offset) == 1,
        flag: get8(sector, FIRST_FLAGS.offset),
    }
}

/// What any other sector says.
fn see_data(sector: &[u8]) -> SectorSeen
    requires { length sector.now ≡ 512 }
    ensures { result ≡ data_seen sector.now }
{
    SectorSeen {
        cycle: get32(sector, 0),
        header: false,
        header_sectors: 0,
        len: 0,
        single: false,
        flag: get8(sector, FIRST_FLAGS.offset),
    }
}

/// The header sectors of a record of this version, written from a buffer of so many bytes.
#[tactic(auto, unfolding(crate::specs::Log::sectors_of_header))]
fn sectors_of_header(version: u32, size: u32) -> u32
    ensures { result ≡ sectors_of_header version size }
{
    if version & VERSION_2 != 0 && size > HEADER_SPAN {
        size.div_ceil(HEADER_SPAN)
    } else {
        1
    }
}

impl SectorSeen {
    /// The sectors of the record that the sector begins.
    #[tactic(auto, unfolding(crate::specs::Log::data_sectors))]
    pub(crate) fn record_sectors(&self) -> usize
        ensures value { result ≡ record_sectors self.now }
        ensures few { result < 2 ^ 33 }
    {
        self.header_sectors as usize + (self.len as usize).div_ceil(SECTOR_SIZE)
    }

    /// Whether the sector, as the first data sector of a record, begins with an unmount record.
    #[tactic(auto, unfolding(crate::specs::Log::has_unmount_flag))]
    pub(crate) fn has_unmount_flag(&self) -> bool
        ensures { result ≡ has_unmount_flag self.now }
    {
        self.flag & UNMOUNT != 0
    }
}
