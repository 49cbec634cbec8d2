//! The list of the blocks that a group keeps ready for its trees (AGFL).

ghost use Rattle.std.specs.Prelude.{◌≡◌, ℕ, ◌-◌, ◌<◌, ◌≤◌, length, take, drop, Some, IfSome, IsTrue};
ghost use Rattle.std.specs.List.{list_all};
ghost use Rattle.xfs_word.specs.Field.{field_of, part_of, KeepsBeside, KeepsParts};
ghost use Rattle.xfs_word.specs.Seal.{is_ready, is_sealed};
ghost use Rattle.xfs_word.specs.declared.kinds.SealKind.TheVariants as Kind;
ghost use Rattle.xfs_geom.specs.Volumes.{volume_of};
ghost use Rattle.xfs_heads.specs.Heads.{head_seal, is_listable, numbers};
ghost use Rattle.xfs_heads.specs.FreeList.{agfl_of, stated_agfl, has_blocks, unused};
ghost use Rattle.xfs_heads.specs.FreeSpace.{has_free_list};
ghost use Rattle.xfs_heads.specs.declared.free_space.Agf.{Agf};

use crate::free_space::Agf;
use crate::heads::{head_seal, is_listable, seal_head};
use crate::layouts::agfl::{BNO, LSN, MAGICNUM, SEQNO, UUID};
use xfs_geom::Geometry;
use xfs_word::{SealKind, get32, put_part, put32, put64, sealed};

/// The magic number of a free list, `XAFL`.
const MAGIC: u32 = 0x5841_464c;

/// What an entry holds that names no block.
const UNUSED: u32 = u32::MAX;

/// The free list of a group: its entries, each an AG block, and how many of them are active. The active
/// entries are the first, and all others are all ones.
#[derive(Clone, Copy, Debug, PartialEq, Eq)]
pub struct Agfl {
    pub entries: [u32; 119],
    pub count: u32,
}

impl Agfl {
    /// The free list with these active entries.
    pub fn new(ag_blocks: &[u32]) -> Agfl
        requires { length ag_blocks.now ≤ 119 }
        ensures count { result.count ≡ length ag_blocks.now }
        ensures active { take result.count result.entries ≡ ag_blocks.now }
        ensures unused { drop result.count result.entries ≡ unused (119 - result.count) }
    {
        let mut entries = [UNUSED; 119];
        for (index, ag_block) in ag_blocks.iter().enumerate() {
            entries[index] = *ag_block;
        }
        Agfl {
            entries,
            count: ag_blocks.len() as u32,
        }
    }

    /// The active entries.
    pub fn active(&self) -> &[u32]
        requires { self.now.count ≤ 119 }
        ensures { result.now ≡ take self.now.count self.now.entries }
    {
        &self.entries[..self.count as usize]
    }

    /// Whether each active entry is a block of the group that has no fixed use.
    pub fn has_blocks(&self, g: &Geometry, ag: u32) -> bool
        requires group { ag < g.now.agcount }
        requires count { self.now.count ≤ 119 }
        ensures { result ≡ has_blocks (volume_of g.now) ag self.now }
    {
        are_listable(g, ag, self.active())
    }
}

/// The free list of a group, by the bounds that its header of free space states, where these agree, the
/// list is sealed, and each of its active entries is a block of the group that has no fixed use.
#[tactic(auto, unfolding(crate::specs::FreeList::agfl_of))]
pub fn read_agfl(g: &Geometry, ag: u32, agf: &Agf, sector: &[u8]) -> Option<Agfl>
    requires group { ag < g.now.agcount }
    requires sector { length sector.now ≡ 512 }
    ensures value { result ≡ agfl_of (volume_of g.now) ag agf.now sector.now }
    ensures count { IfSome result (λ agfl. agfl.count ≤ 119) }
    ensures blocks { IfSome result (λ agfl. IsTrue (has_blocks (volume_of g.now) ag agfl)) }
{
    if !agf.has_free_list() {
        return None;
    }
    if !sealed(&head_seal(SealKind::Agfl, g, ag), sector) {
        return None;
    }
    let agfl = stated(agf, sector);
    if agfl.has_blocks(g, ag) {
        Some(agfl)
    } else {
        None
    }
}

/// The active entries, before any of them is judged.
fn stated(agf: &Agf, sector: &[u8]) -> Agfl
    requires bounds { IsTrue (has_free_list agf.now) }
    requires sector { length sector.now ≡ 512 }
    ensures { result ≡ stated_agfl agf.now sector.now }
{
    let mut entries = [UNUSED; 119];
    for index in 0..agf.flcount as usize {
        let entry = (agf.flfirst as usize + index) % BNO.count;
        entries[index] = get32(sector, BNO.offset + 4 * entry);
    }
    Agfl {
        entries,
        count: agf.flcount,
    }
}

/// Whether each of these is a block of the group that has no fixed use.
fn are_listable(g: &Geometry, ag: u32, ag_blocks: &[u32]) -> bool
    requires { ag < g.now.agcount }
    ensures { result ≡ list_all (is_listable (volume_of g.now) ag) ag_blocks.now }
{
    for ag_block in ag_blocks {
        if !is_listable(g, ag, *ag_block) {
            return false;
        }
    }
    true
}

/// Writes a group's free list, sealed, with its active entries from the first on. A header of free space
/// whose list begins at entry 0 and has as many active entries reads it back.
pub fn put_agfl(g: &Geometry, ag: u32, agfl: &Agfl, sector: &mut [u8])
    requires group { ag < g.now.agcount }
    requires sector { length sector.old ≡ 512 }
    requires count { agfl.now.count ≤ 119 }
    requires blocks { IsTrue (has_blocks (volume_of g.now) ag agfl.now) }
    requires unused { drop agfl.now.count agfl.now.entries ≡ unused (119 - agfl.now.count) }
    ensures read { (agf : Agf) → agf.flfirst ≡ 0 → agf.flcount ≡ agfl.now.count → IsTrue (has_free_list agf)
        → agfl_of (volume_of g.now) ag agf sector.new ≡ Some agfl.now }
    ensures sealed { IsTrue (is_sealed (head_seal Kind.Agfl (volume_of g.now) ag) sector.new) }
    ensures entries { numbers sector.new 36 119 ≡ agfl.now.entries }
    ensures lsn { field_of sector.new 24 8 ≡ 0 }
{
    put_head(g, ag, sector);
    put_entries(&agfl.entries, sector);
    seal_agfl(g, ag, sector);
}

/// Writes what identifies the list.
fn put_head(g: &Geometry, ag: u32, sector: &mut [u8])
    requires { length sector.old ≡ 512 }
    ensures magicnum { field_of sector.new 0 4 ≡ 0x5841_464c }
    ensures seqno { field_of sector.new 4 4 ≡ ag }
    ensures uuid { part_of sector.new 8 16 ≡ g.now.uuid }
    ensures lsn { field_of sector.new 24 8 ≡ 0 }
{
    put32(sector, MAGICNUM.offset, MAGIC);
    put32(sector, SEQNO.offset, ag);
    put_part(sector, UUID.offset, &g.uuid);
    put64(sector, LSN.offset, 0);
}

/// Writes the entries.
fn put_entries(entries: &[u32; 119], sector: &mut [u8])
    requires { length sector.old ≡ 512 }
    ensures put { numbers sector.new 36 119 ≡ entries.now }
    ensures keeps { KeepsBeside sector.old sector.new 36 476 }
    ensures keeps_parts { KeepsParts sector.old sector.new 36 476 }
{
    BNO.write_all(sector, entries);
}

/// Seals a list in which all but the checksum is right.
fn seal_agfl(g: &Geometry, ag: u32, sector: &mut [u8])
    requires sector { length sector.old ≡ 512 }
    requires ready { IsTrue (is_ready (head_seal Kind.Agfl (volume_of g.now) ag) sector.old) }
    ensures sealed { IsTrue (is_sealed (head_seal Kind.Agfl (volume_of g.now) ag) sector.new) }
    ensures entries { numbers sector.new 36 119 ≡ numbers sector.old 36 119 }
    ensures keeps { KeepsBeside sector.old sector.new 32 4 }
{
    seal_head(SealKind::Agfl, g, ag, sector);
}
