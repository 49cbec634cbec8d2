//! What a superblock states of its volume, and the tests of its shape.

ghost use Rattle.std.specs.Prelude.{◌≡◌, ℕ, ◌+◌, ◌*◌, ◌/◌, ◌%◌, ◌^◌, ◌<◌, ◌≤◌, ◌==◌, ◌||◌, length, Option, IfNone, IsTrue};
ghost use Rattle.xfs_geom.specs.Groups.{blocks_of_group, group_of_address, ag_block_of_address, block_of_address};
ghost use Rattle.xfs_geom.specs.Shape.{HasGroups, HasAddresses, HasRoot, is_off_log};
ghost use Rattle.xfs_geom.specs.Stated.{is_system_inode};

use crate::geometry::Geometry;
use crate::superblock::{
    AGBLKLOG, AGBLOCKS, AGCOUNT, DBLOCKS, INPROGRESS, LOGBLOCKS, LOGSECTLOG, LOGSECTSIZE, LOGSTART,
    RBMINO, ROOTINO, RSUMINO,
};
use xfs_word::{get8, get16, get32, get64};

/// The least and the most blocks of a log. Kernels take no log of more than 2038 MiB.
const LEAST_LOG: u32 = 512;

const MOST_LOG: u32 = 521_728;

/// The numbers that a superblock states of its volume, before any of them is judged.
#[derive(Clone, Copy)]
pub struct Stated {
    /// The blocks of the volume.
    pub dblocks: u64,
    /// The address of the log's first block.
    pub logstart: u64,
    pub rootino: u64,
    pub rbmino: u64,
    pub rsumino: u64,
    /// The blocks of an allocation group.
    pub agblocks: u32,
    pub agcount: u32,
    /// The blocks of the log.
    pub logblocks: u32,
    /// The bits of an AG block in an address.
    pub agblklog: u8,
    pub inprogress: u8,
    pub logsectlog: u8,
    pub logsectsize: u16,
}

impl Stated {
    ghost use Rattle.xfs_geom.specs.Stated.{stated, stated_log, is_filled, has_addresses, has_log_sectors, has_log, has_root, parts_fault, first_place_fault};
    ghost use Rattle.xfs_geom.specs.Parts.{HasLogAt, HasParts};
    ghost use Rattle.xfs_geom.specs.Volumes.{volume_of};

    /// The numbers that the superblock in this sector states.
    pub fn read(sector: &[u8]) -> Stated
        requires { length sector.now ≡ 512 }
        ensures { result ≡ stated sector.now }
    {
        Stated {
            dblocks: get64(sector, DBLOCKS.offset),
            logstart: get64(sector, LOGSTART.offset),
            rootino: get64(sector, ROOTINO.offset),
            rbmino: get64(sector, RBMINO.offset),
            rsumino: get64(sector, RSUMINO.offset),
            agblocks: get32(sector, AGBLOCKS.offset),
            agcount: get32(sector, AGCOUNT.offset),
            logblocks: get32(sector, LOGBLOCKS.offset),
            agblklog: get8(sector, AGBLKLOG.offset),
            inprogress: get8(sector, INPROGRESS.offset),
            logsectlog: get8(sector, LOGSECTLOG.offset),
            logsectsize: get16(sector, LOGSECTSIZE.offset),
        }
    }

    /// The first of shape words 8 to 13 that fails: those of the volume's parts.
    #[tactic(auto, unfolding(crate::specs::Stated::parts_fault))]
    pub fn parts_fault(&self) -> Option<u8>
        ensures first { result ≡ parts_fault self.now }
        ensures kept { IfNone result (HasParts self.now) }
    {
        if self.agcount < 2 || self.agcount > 512 {
            return Some(8);
        }
        if self.agblocks < 1024 {
            return Some(9);
        }
        if !self.is_filled() {
            return Some(10);
        }
        if !self.has_addresses() {
            return Some(11);
        }
        if !self.has_log_sectors() {
            return Some(12);
        }
        if !self.has_log() {
            return Some(13);
        }
        None
    }

    /// The first of shape words 14 to 18 that fails, in a superblock that stands at the block `place`
    /// of an image of so many blocks.
    #[tactic(auto, unfolding(crate::specs::Stated::first_place_fault))]
    pub fn place_fault(&self, place: u64, blocks: u64) -> Option<u8>
        requires { HasParts self.now }
        ensures first { result ≡ first_place_fault self.now place blocks }
        ensures inside { IfNone result (self.now.dblocks ≤ blocks) }
        ensures kept { IfNone result (HasRoot self.now.dblocks self.now.agblocks self.now.agcount self.now.agblklog (stated_log self.now) self.now.logblocks self.now.rootino) }
    {
        if place % self.agblocks as u64 != 0 || place >= self.dblocks {
            return Some(14);
        }
        if self.dblocks > blocks {
            return Some(15);
        }
        if !self.has_root() {
            return Some(16);
        }
        if !is_system_inode(place, self.rootino + 1, self.rbmino) {
            return Some(17);
        }
        if !is_system_inode(place, self.rootino + 2, self.rsumino) {
            return Some(18);
        }
        None
    }

    /// The geometry of these numbers.
    pub fn geometry(&self, uuid: [u8; 16]) -> Geometry
        requires parts { HasParts self.now }
        requires root { HasRoot self.now.dblocks self.now.agblocks self.now.agcount self.now.agblklog (stated_log self.now) self.now.logblocks self.now.rootino }
        ensures { volume_of result ≡ record {
          dblocks = self.now.dblocks;
          agblocks = self.now.agblocks;
          agcount = self.now.agcount;
          agblklog = self.now.agblklog;
          log = stated_log self.now;
          logblocks = self.now.logblocks;
          rootino = self.now.rootino;
          logsectlog = self.now.logsectlog;
          uuid = uuid;
        } }
    {
        Geometry {
            dblocks: self.dblocks,
            agblocks: self.agblocks,
            agcount: self.agcount,
            agblklog: self.agblklog,
            log: self.log(),
            logblocks: self.logblocks,
            rootino: self.rootino,
            logsectlog: self.logsectlog,
            uuid,
        }
    }

    /// The number of the log's first block.
    pub fn log(&self) -> u64
        requires { HasParts self.now }
        ensures value { result ≡ stated_log self.now }
        ensures low { result < 2 ^ 63 }
    {
        self.block_of_address(self.logstart)
    }

    /// The groups fill the volume, and the last of them has at least 64 blocks.
    fn is_filled(&self) -> bool
        requires few { self.now.agcount ≤ 512 }
        requires some { 2 ≤ self.now.agcount }
        requires large { 1024 ≤ self.now.agblocks }
        ensures value { result ≡ is_filled self.now }
        ensures kept { IsTrue result → HasGroups self.now.dblocks self.now.agblocks self.now.agcount }
    {
        let agblocks = self.agblocks as u64;
        let agcount = self.agcount as u64;
        if self.dblocks > 1 << 26 || self.dblocks > agcount * agblocks {
            return false;
        }
        (agcount - 1) * agblocks + 64 <= self.dblocks
    }

    /// An address has just the bits that hold an AG block.
    fn has_addresses(&self) -> bool
        ensures value { result ≡ has_addresses self.now }
        ensures kept { IsTrue result → HasAddresses self.now.agblocks self.now.agblklog }
    {
        if self.agblklog > 26 {
            return false;
        }
        let size = 1u64 << self.agblklog;
        self.agblocks as u64 <= size && size < 2 * self.agblocks as u64
    }

    /// The log's sectors are stated as none or as 512 bytes.
    fn has_log_sectors(&self) -> bool
        ensures value { result ≡ has_log_sectors self.now }
        ensures kept { IsTrue result → IsTrue (self.now.logsectlog == 0 || self.now.logsectlog == 9) }
    {
        self.logsectlog == 0 && self.logsectsize == 0
            || self.logsectlog == 9 && self.logsectsize == 512
    }

    /// The log has 512 to 521,728 blocks inside one group, from AG block 1 or later on.
    fn has_log(&self) -> bool
        requires { self.now.agblklog ≤ 26 }
        ensures value { result ≡ has_log self.now }
        ensures kept { IsTrue result → HasLogAt self.now }
    {
        if self.logblocks < LEAST_LOG || self.logblocks > MOST_LOG {
            return false;
        }
        let group = self.group_of(self.logstart);
        let block = self.ag_block_of(self.logstart);
        if group >= self.agcount as u64 || block < 1 {
            return false;
        }
        block + self.logblocks as u64 <= self.blocks_of_group(group)
    }

    /// The first inodes lie in a chunk of the volume, in a cluster that is clear of the log.
    fn has_root(&self) -> bool
        requires { HasParts self.now }
        ensures value { result ≡ has_root self.now }
        ensures low { IsTrue result → self.now.rootino < 2 ^ 38 }
        ensures kept { IsTrue result → HasRoot self.now.dblocks self.now.agblocks self.now.agcount self.now.agblklog (stated_log self.now) self.now.logblocks self.now.rootino }
    {
        if self.rootino % 32 > 29 {
            return false;
        }
        let group = self.group_of(self.rootino / 8);
        let block = self.ag_block_of(self.rootino / 8);
        if group >= self.agcount as u64 || block < 8 {
            return false;
        }
        if block / 8 * 8 + 8 > self.blocks_of_group(group) {
            return false;
        }
        self.is_clear_of_log(self.block_of_address(self.rootino / 32 * 4))
    }

    /// A cluster of four blocks, by its first one, lies before the log or behind it.
    fn is_clear_of_log(&self, cluster: u64) -> bool
        requires parts { HasParts self.now }
        requires low { cluster < 2 ^ 63 }
        ensures { result ≡ is_off_log cluster (stated_log self.now) self.now.logblocks }
    {
        let log = self.log();
        cluster + 4 <= log || log + self.logblocks as u64 <= cluster
    }

    /// The number of AG blocks that an address can tell apart.
    fn size_of_addresses(&self) -> u64
        requires { self.now.agblklog ≤ 26 }
        ensures value { result ≡ 2 ^ self.now.agblklog }
        ensures some { 0 < result }
        ensures short { result ≤ 2 ^ 26 }
    {
        1 << self.agblklog
    }

    /// The group of an address.
    fn group_of(&self, address: u64) -> u64
        requires { self.now.agblklog ≤ 26 }
        ensures { result ≡ group_of_address self.now.agblklog address }
    {
        address / self.size_of_addresses()
    }

    /// The AG block of an address.
    fn ag_block_of(&self, address: u64) -> u64
        requires { self.now.agblklog ≤ 26 }
        ensures value { result ≡ ag_block_of_address self.now.agblklog address }
        ensures short { result < 2 ^ 26 }
    {
        address % self.size_of_addresses()
    }

    /// The blocks of a group.
    fn blocks_of_group(&self, group: u64) -> u64
        requires { group < self.now.agcount }
        ensures { result ≡ blocks_of_group self.now.dblocks self.now.agblocks self.now.agcount group }
    {
        if group + 1 == self.agcount as u64 {
            self.dblocks.saturating_sub(group * self.agblocks as u64)
        } else {
            self.agblocks as u64
        }
    }

    /// The number of the block at an address.
    fn block_of_address(&self, address: u64) -> u64
        requires addresses { self.now.agblklog ≤ 26 }
        requires group { group_of_address self.now.agblklog address < 512 }
        ensures value { result ≡ block_of_address self.now.agblocks self.now.agblklog address }
        ensures low { result < 2 ^ 63 }
    {
        self.group_of(address) * self.agblocks as u64 + self.ag_block_of(address)
    }
}

/// A system inode stands behind the root, or in a backup may be left out as all ones.
fn is_system_inode(place: u64, due: u64, ino: u64) -> bool
    ensures { result ≡ is_system_inode place due ino }
{
    ino == due || place > 0 && ino == u64::MAX
}
