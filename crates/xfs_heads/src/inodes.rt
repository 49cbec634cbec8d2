//! The header of a group's inodes (AGI).

ghost use Rattle.std.specs.Prelude.{◌≡◌, ℕ, ◌<◌, ◌≤◌, length, Some, IfSome, IsTrue};
ghost use Rattle.xfs_word.specs.Crc.{little_field_of};
ghost use Rattle.xfs_word.specs.Field.{field_of, part_of, KeepsBeside, KeepsParts, IsZero};
ghost use Rattle.xfs_word.specs.Seal.{is_lsn, is_ready, is_sealed};
ghost use Rattle.xfs_word.specs.declared.kinds.SealKind.TheVariants as Kind;
ghost use Rattle.xfs_geom.specs.Volumes.{volume_of};
ghost use Rattle.xfs_heads.specs.Heads.{head_seal, numbers};
ghost use Rattle.xfs_heads.specs.Inodes.{stated_agi, is_agi_shaped, agi_of};

use crate::heads::{clear, head_seal, is_level, is_root_block, seal_head};
use crate::layouts::agi::{
    COUNT, CRC, DIRINO, FREE_LEVEL, FREE_ROOT, FREECOUNT, LENGTH, LEVEL, LSN, MAGICNUM, NEWINO,
    ROOT, SEQNO, UNLINKED, UUID, VERSIONNUM,
};
use xfs_geom::Geometry;
use xfs_word::{SealKind, get32, get64, part, put_part, put32, put64, sealed, stored_checksum};

/// The header of a group's inodes: one value for each field of its layout. Blocks are AG blocks, and inode
/// numbers those of the group.
#[derive(Clone, Copy, Debug, PartialEq, Eq)]
pub struct Agi {
    pub magicnum: u32,
    pub versionnum: u32,
    /// The number of the group.
    pub seqno: u32,
    /// The blocks of the group.
    pub length: u32,
    /// The slots of all inode records.
    pub count: u32,
    /// The root of the tree of inode records.
    pub root: u32,
    pub level: u32,
    /// The slots that are not in use.
    pub freecount: u32,
    pub newino: u32,
    pub dirino: u32,
    /// The heads of the chains of unlinked inodes.
    pub unlinked: [u32; 64],
    pub uuid: [u8; 16],
    /// The checksum, as it is stored.
    pub crc: u32,
    pub lsn: u64,
    /// The root of the tree of inode records with a free slot.
    pub free_root: u32,
    pub free_level: u32,
}

impl Agi {
    /// Whether a group's header of inodes has its shape. Its seal is not looked at.
    pub fn is_shaped(&self, g: &Geometry, ag: u32) -> bool
        requires { ag < g.now.agcount }
        ensures { result ≡ is_agi_shaped (volume_of g.now) ag self.now }
    {
        self.versionnum == 1
            && self.length == g.group_length(ag)
            && is_level(self.level)
            && is_level(self.free_level)
            && is_root_block(self.root, self.length)
            && is_root_block(self.free_root, self.length)
    }
}

/// The header of a group's inodes, where it is sealed and has its shape.
#[tactic(auto, unfolding(crate::specs::Inodes::agi_of))]
pub fn read_agi(g: &Geometry, ag: u32, sector: &[u8]) -> Option<Agi>
    requires group { ag < g.now.agcount }
    requires sector { length sector.now ≡ 512 }
    ensures value { result ≡ agi_of (volume_of g.now) ag sector.now }
    ensures shaped { IfSome result (λ agi. IsTrue (is_agi_shaped (volume_of g.now) ag agi)) }
{
    if !sealed(&head_seal(SealKind::Agi, g, ag), sector) {
        return None;
    }
    let agi = stated(sector);
    if agi.is_shaped(g, ag) {
        Some(agi)
    } else {
        None
    }
}

/// The values that a sector states, before any of them is judged.
fn stated(sector: &[u8]) -> Agi
    requires { length sector.now ≡ 512 }
    ensures { result ≡ stated_agi sector.now }
{
    let mut unlinked = [0; 64];
    UNLINKED.read_all(sector, &mut unlinked);
    let mut uuid = [0; 16];
    uuid.copy_from_slice(part(sector, UUID.offset, UUID.width));
    Agi {
        magicnum: get32(sector, MAGICNUM.offset),
        versionnum: get32(sector, VERSIONNUM.offset),
        seqno: get32(sector, SEQNO.offset),
        length: get32(sector, LENGTH.offset),
        count: get32(sector, COUNT.offset),
        root: get32(sector, ROOT.offset),
        level: get32(sector, LEVEL.offset),
        freecount: get32(sector, FREECOUNT.offset),
        newino: get32(sector, NEWINO.offset),
        dirino: get32(sector, DIRINO.offset),
        unlinked,
        uuid,
        crc: stored_checksum(sector, CRC.offset),
        lsn: get64(sector, LSN.offset),
        free_root: get32(sector, FREE_ROOT.offset),
        free_level: get32(sector, FREE_LEVEL.offset),
    }
}

/// Writes a group's header of inodes, sealed. All bytes beside its fields are zero, and the checksum is the
/// sector's.
pub fn put_agi(g: &Geometry, ag: u32, agi: &Agi, sector: &mut [u8])
    requires group { ag < g.now.agcount }
    requires sector { length sector.old ≡ 512 }
    requires magic { agi.now.magicnum ≡ 0x5841_4749 }
    requires seqno { agi.now.seqno ≡ ag }
    requires uuid { agi.now.uuid ≡ g.now.uuid }
    requires lsn { IsTrue (is_lsn agi.now.lsn) }
    requires shape { IsTrue (is_agi_shaped (volume_of g.now) ag agi.now) }
    ensures read { agi_of (volume_of g.now) ag sector.new ≡ Some (record agi.now { crc = little_field_of sector.new 312 4 }) }
    ensures zero_behind_crc { IsZero sector.new 316 4 }
    ensures zero_behind_levels { IsZero sector.new 336 176 }
{
    put_values(agi, sector);
    seal_agi(g, ag, sector);
}

/// Seals a header in which all but the checksum is right.
fn seal_agi(g: &Geometry, ag: u32, sector: &mut [u8])
    requires sector { length sector.old ≡ 512 }
    requires ready { IsTrue (is_ready (head_seal Kind.Agi (volume_of g.now) ag) sector.old) }
    ensures sealed { IsTrue (is_sealed (head_seal Kind.Agi (volume_of g.now) ag) sector.new) }
    ensures stated { stated_agi sector.new ≡ record (stated_agi sector.old) { crc = little_field_of sector.new 312 4 } }
    ensures keeps_parts { KeepsParts sector.old sector.new 312 4 }
{
    seal_head(SealKind::Agi, g, ag, sector);
}

/// Writes all values but the checksum, and zeros beside them.
fn put_values(agi: &Agi, sector: &mut [u8])
    requires { length sector.old ≡ 512 }
    ensures stated { stated_agi sector.new ≡ record agi.now { crc = little_field_of sector.new 312 4 } }
    ensures zero_behind_crc { IsZero sector.new 316 4 }
    ensures zero_behind_levels { IsZero sector.new 336 176 }
{
    clear(sector);
    put_trees(agi, sector);
    put_part(sector, UUID.offset, &agi.uuid);
    put64(sector, LSN.offset, agi.lsn);
    put32(sector, FREE_ROOT.offset, agi.free_root);
    put32(sector, FREE_LEVEL.offset, agi.free_level);
    put_unlinked(&agi.unlinked, sector);
}

/// Writes what the header says of its group, of the tree of inode records, and of its slots.
fn put_trees(agi: &Agi, sector: &mut [u8])
    requires { length sector.old ≡ 512 }
    ensures magicnum { field_of sector.new 0 4 ≡ agi.now.magicnum }
    ensures versionnum { field_of sector.new 4 4 ≡ agi.now.versionnum }
    ensures seqno { field_of sector.new 8 4 ≡ agi.now.seqno }
    ensures blocks { field_of sector.new 12 4 ≡ agi.now.length }
    ensures count { field_of sector.new 16 4 ≡ agi.now.count }
    ensures root { field_of sector.new 20 4 ≡ agi.now.root }
    ensures level { field_of sector.new 24 4 ≡ agi.now.level }
    ensures freecount { field_of sector.new 28 4 ≡ agi.now.freecount }
    ensures newino { field_of sector.new 32 4 ≡ agi.now.newino }
    ensures dirino { field_of sector.new 36 4 ≡ agi.now.dirino }
    ensures keeps { KeepsBeside sector.old sector.new 0 40 }
    ensures keeps_parts { KeepsParts sector.old sector.new 0 40 }
{
    put32(sector, MAGICNUM.offset, agi.magicnum);
    put32(sector, VERSIONNUM.offset, agi.versionnum);
    put32(sector, SEQNO.offset, agi.seqno);
    put32(sector, LENGTH.offset, agi.length);
    put32(sector, COUNT.offset, agi.count);
    put32(sector, ROOT.offset, agi.root);
    put32(sector, LEVEL.offset, agi.level);
    put32(sector, FREECOUNT.offset, agi.freecount);
    put32(sector, NEWINO.offset, agi.newino);
    put32(sector, DIRINO.offset, agi.dirino);
}

/// Writes the heads of the chains of unlinked inodes.
fn put_unlinked(unlinked: &[u32; 64], sector: &mut [u8])
    requires { length sector.old ≡ 512 }
    ensures put { numbers sector.new 40 64 ≡ unlinked.now }
    ensures keeps { KeepsBeside sector.old sector.new 40 256 }
    ensures keeps_parts { KeepsParts sector.old sector.new 40 256 }
{
    UNLINKED.write_all(sector, unlinked);
}
