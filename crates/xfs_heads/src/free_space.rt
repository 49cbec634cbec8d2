//! The header of a group's free space (AGF).

ghost use Rattle.std.specs.Prelude.{◌≡◌, ℕ, ◌<◌, ◌≤◌, length, Some, IfSome, IsTrue};
ghost use Rattle.xfs_word.specs.Crc.{little_field_of};
ghost use Rattle.xfs_word.specs.Field.{field_of, part_of, KeepsBeside, KeepsParts, IsZero};
ghost use Rattle.xfs_word.specs.Seal.{is_lsn, is_ready, is_sealed};
ghost use Rattle.xfs_word.specs.declared.kinds.SealKind.TheVariants as Kind;
ghost use Rattle.xfs_geom.specs.Volumes.{volume_of};
ghost use Rattle.xfs_heads.specs.Heads.{head_seal};
ghost use Rattle.xfs_heads.specs.FreeSpace.{stated_agf, is_agf_shaped, agf_of};

use crate::heads::{clear, head_seal, is_level, is_root_block, seal_head};
use crate::layouts::agf::{
    BNOLEVEL, BNOROOT, BTREEBLKS, CNTLEVEL, CNTROOT, CRC, FLCOUNT, FLFIRST, FLLAST, FREEBLKS,
    LENGTH, LONGEST, LSN, MAGICNUM, RMAPBLOCKS, RMAPLEVEL, RMAPROOT, SEQNO, UUID, VERSIONNUM,
};
use xfs_geom::Geometry;
use xfs_word::{SealKind, get32, get64, part, put_part, put32, put64, sealed, stored_checksum};

/// The header of a group's free space: one value for each field of its layout. Blocks are AG blocks.
#[derive(Clone, Copy, Debug, PartialEq, Eq)]
pub struct Agf {
    pub magicnum: u32,
    pub versionnum: u32,
    /// The number of the group.
    pub seqno: u32,
    /// The blocks of the group.
    pub length: u32,
    /// The root of the tree of free runs by their starts.
    pub bnoroot: u32,
    /// The root of the tree of free runs by their lengths.
    pub cntroot: u32,
    /// The root of the tree of owners.
    pub rmaproot: u32,
    pub bnolevel: u32,
    pub cntlevel: u32,
    pub rmaplevel: u32,
    /// The index of the free list's first active entry.
    pub flfirst: u32,
    /// The index of its last active entry.
    pub fllast: u32,
    /// How many entries of it are active.
    pub flcount: u32,
    /// The free blocks that the trees name.
    pub freeblks: u32,
    /// The blocks of the longest free run.
    pub longest: u32,
    /// The blocks of the three trees, but their roots.
    pub btreeblks: u32,
    pub uuid: [u8; 16],
    /// The blocks of the tree of owners.
    pub rmapblocks: u32,
    pub lsn: u64,
    /// The checksum, as it is stored.
    pub crc: u32,
}

impl Agf {
    ghost use Rattle.xfs_heads.specs.FreeSpace.{has_free_list};

    /// Whether a group's header of free space has its shape. Its seal is not looked at.
    pub fn is_shaped(&self, g: &Geometry, ag: u32) -> bool
        requires { ag < g.now.agcount }
        ensures { result ≡ is_agf_shaped (volume_of g.now) ag self.now }
    {
        self.versionnum == 1
            && self.length == g.group_length(ag)
            && is_level(self.bnolevel)
            && is_level(self.cntlevel)
            && is_level(self.rmaplevel)
            && is_root_block(self.bnoroot, self.length)
            && is_root_block(self.cntroot, self.length)
            && is_root_block(self.rmaproot, self.length)
            && self.has_free_list()
    }

    /// Whether the bounds of the free list's active entries agree.
    pub fn has_free_list(&self) -> bool
        ensures { result ≡ has_free_list self.now }
    {
        self.flfirst < 119
            && self.fllast < 119
            && self.flcount <= 119
            && (self.flcount == 0 || (self.fllast + 119 - self.flfirst) % 119 + 1 == self.flcount)
    }
}

/// The header of a group's free space, where it is sealed and has its shape.
#[tactic(auto, unfolding(crate::specs::FreeSpace::agf_of))]
pub fn read_agf(g: &Geometry, ag: u32, sector: &[u8]) -> Option<Agf>
    requires group { ag < g.now.agcount }
    requires sector { length sector.now ≡ 512 }
    ensures value { result ≡ agf_of (volume_of g.now) ag sector.now }
    ensures shaped { IfSome result (λ agf. IsTrue (is_agf_shaped (volume_of g.now) ag agf)) }
{
    if !sealed(&head_seal(SealKind::Agf, g, ag), sector) {
        return None;
    }
    let agf = stated(sector);
    if agf.is_shaped(g, ag) {
        Some(agf)
    } else {
        None
    }
}

/// The values that a sector states, before any of them is judged.
fn stated(sector: &[u8]) -> Agf
    requires { length sector.now ≡ 512 }
    ensures { result ≡ stated_agf sector.now }
{
    let mut uuid = [0; 16];
    uuid.copy_from_slice(part(sector, UUID.offset, UUID.width));
    Agf {
        magicnum: get32(sector, MAGICNUM.offset),
        versionnum: get32(sector, VERSIONNUM.offset),
        seqno: get32(sector, SEQNO.offset),
        length: get32(sector, LENGTH.offset),
        bnoroot: get32(sector, BNOROOT.offset),
        cntroot: get32(sector, CNTROOT.offset),
        rmaproot: get32(sector, RMAPROOT.offset),
        bnolevel: get32(sector, BNOLEVEL.offset),
        cntlevel: get32(sector, CNTLEVEL.offset),
        rmaplevel: get32(sector, RMAPLEVEL.offset),
        flfirst: get32(sector, FLFIRST.offset),
        fllast: get32(sector, FLLAST.offset),
        flcount: get32(sector, FLCOUNT.offset),
        freeblks: get32(sector, FREEBLKS.offset),
        longest: get32(sector, LONGEST.offset),
        btreeblks: get32(sector, BTREEBLKS.offset),
        uuid,
        rmapblocks: get32(sector, RMAPBLOCKS.offset),
        lsn: get64(sector, LSN.offset),
        crc: stored_checksum(sector, CRC.offset),
    }
}

/// Writes a group's header of free space, sealed. All bytes beside its fields are zero, and the checksum
/// is the sector's.
pub fn put_agf(g: &Geometry, ag: u32, agf: &Agf, sector: &mut [u8])
    requires group { ag < g.now.agcount }
    requires sector { length sector.old ≡ 512 }
    requires magic { agf.now.magicnum ≡ 0x5841_4746 }
    requires seqno { agf.now.seqno ≡ ag }
    requires uuid { agf.now.uuid ≡ g.now.uuid }
    requires lsn { IsTrue (is_lsn agf.now.lsn) }
    requires shape { IsTrue (is_agf_shaped (volume_of g.now) ag agf.now) }
    ensures read { agf_of (volume_of g.now) ag sector.new ≡ Some (record agf.now { crc = little_field_of sector.new 216 4 }) }
    ensures zero_before_lsn { IsZero sector.new 84 124 }
    ensures zero_behind_crc { IsZero sector.new 220 292 }
{
    put_values(agf, sector);
    seal_agf(g, ag, sector);
}

/// Seals a header in which all but the checksum is right.
fn seal_agf(g: &Geometry, ag: u32, sector: &mut [u8])
    requires sector { length sector.old ≡ 512 }
    requires ready { IsTrue (is_ready (head_seal Kind.Agf (volume_of g.now) ag) sector.old) }
    ensures sealed { IsTrue (is_sealed (head_seal Kind.Agf (volume_of g.now) ag) sector.new) }
    ensures stated { stated_agf sector.new ≡ record (stated_agf sector.old) { crc = little_field_of sector.new 216 4 } }
    ensures keeps_parts { KeepsParts sector.old sector.new 216 4 }
{
    seal_head(SealKind::Agf, g, ag, sector);
}

/// Writes all values but the checksum, and zeros beside them.
fn put_values(agf: &Agf, sector: &mut [u8])
    requires { length sector.old ≡ 512 }
    ensures stated { stated_agf sector.new ≡ record agf.now { crc = little_field_of sector.new 216 4 } }
    ensures zero_before_lsn { IsZero sector.new 84 124 }
    ensures zero_behind_crc { IsZero sector.new 220 292 }
{
    clear(sector);
    put_trees(agf, sector);
    put_counts(agf, sector);
    put_part(sector, UUID.offset, &agf.uuid);
    put32(sector, RMAPBLOCKS.offset, agf.rmapblocks);
    put64(sector, LSN.offset, agf.lsn);
}

/// Writes what the header says of its group and of the trees' roots.
fn put_trees(agf: &Agf, sector: &mut [u8])
    requires { length sector.old ≡ 512 }
    ensures magicnum { field_of sector.new 0 4 ≡ agf.now.magicnum }
    ensures versionnum { field_of sector.new 4 4 ≡ agf.now.versionnum }
    ensures seqno { field_of sector.new 8 4 ≡ agf.now.seqno }
    ensures blocks { field_of sector.new 12 4 ≡ agf.now.length }
    ensures bnoroot { field_of sector.new 16 4 ≡ agf.now.bnoroot }
    ensures cntroot { field_of sector.new 20 4 ≡ agf.now.cntroot }
    ensures rmaproot { field_of sector.new 24 4 ≡ agf.now.rmaproot }
    ensures bnolevel { field_of sector.new 28 4 ≡ agf.now.bnolevel }
    ensures cntlevel { field_of sector.new 32 4 ≡ agf.now.cntlevel }
    ensures rmaplevel { field_of sector.new 36 4 ≡ agf.now.rmaplevel }
    ensures keeps { KeepsBeside sector.old sector.new 0 40 }
    ensures keeps_parts { KeepsParts sector.old sector.new 0 40 }
{
    put32(sector, MAGICNUM.offset, agf.magicnum);
    put32(sector, VERSIONNUM.offset, agf.versionnum);
    put32(sector, SEQNO.offset, agf.seqno);
    put32(sector, LENGTH.offset, agf.length);
    put32(sector, BNOROOT.offset, agf.bnoroot);
    put32(sector, CNTROOT.offset, agf.cntroot);
    put32(sector, RMAPROOT.offset, agf.rmaproot);
    put32(sector, BNOLEVEL.offset, agf.bnolevel);
    put32(sector, CNTLEVEL.offset, agf.cntlevel);
    put32(sector, RMAPLEVEL.offset, agf.rmaplevel);
}

/// Writes the bounds of the free list, and what the header counts.
fn put_counts(agf: &Agf, sector: &mut [u8])
    requires { length sector.old ≡ 512 }
    ensures flfirst { field_of sector.new 40 4 ≡ agf.now.flfirst }
    ensures fllast { field_of sector.new 44 4 ≡ agf.now.fllast }
    ensures flcount { field_of sector.new 48 4 ≡ agf.now.flcount }
    ensures freeblks { field_of sector.new 52 4 ≡ agf.now.freeblks }
    ensures longest { field_of sector.new 56 4 ≡ agf.now.longest }
    ensures btreeblks { field_of sector.new 60 4 ≡ agf.now.btreeblks }
    ensures keeps { KeepsBeside sector.old sector.new 40 24 }
    ensures keeps_parts { KeepsParts sector.old sector.new 40 24 }
{
    put32(sector, FLFIRST.offset, agf.flfirst);
    put32(sector, FLLAST.offset, agf.fllast);
    put32(sector, FLCOUNT.offset, agf.flcount);
    put32(sector, FREEBLKS.offset, agf.freeblks);
    put32(sector, LONGEST.offset, agf.longest);
    put32(sector, BTREEBLKS.offset, agf.btreeblks);
}
