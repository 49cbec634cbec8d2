//! What the headers of an allocation group have in common.

ghost use Rattle.std.specs.Prelude.{◌≡◌, ℕ, ◌+◌, ◌<◌, ◌≤◌, length, IsTrue};
ghost use Rattle.xfs_word.specs.Field.{KeepsBeside, KeepsParts, IsZero};
ghost use Rattle.xfs_word.specs.Seal.{layout_of, is_ready, is_sealed};
ghost use Rattle.xfs_geom.specs.Volumes.{volume_of};
ghost use Rattle.xfs_heads.specs.Heads.{head_seal, is_level, is_root_block, is_listable};

use xfs_geom::Geometry;
use xfs_word::{Seal, SealKind, seal};

/// The seal of a header of this kind in an allocation group.
pub fn head_seal(kind: SealKind, g: &Geometry, ag: u32) -> Seal
    ensures { result ≡ head_seal kind (volume_of g.now) ag }
{
    Seal {
        kind,
        place: ag as u64,
        owner: None,
        uuid: g.uuid,
    }
}

/// Seals a header in which all but the checksum is right.
pub fn seal_head(kind: SealKind, g: &Geometry, ag: u32, sector: &mut [u8])
    requires sector { length sector.old ≡ (layout_of kind).size }
    requires ready { IsTrue (is_ready (head_seal kind (volume_of g.now) ag) sector.old) }
    ensures sealed { IsTrue (is_sealed (head_seal kind (volume_of g.now) ag) sector.new) }
    ensures keeps { KeepsBeside sector.old sector.new (layout_of kind).checksum 4 }
    ensures keeps_parts { KeepsParts sector.old sector.new (layout_of kind).checksum 4 }
{
    seal(&head_seal(kind, g, ag), sector);
}

/// Whether a tree has a number of levels that is allowed.
pub fn is_level(level: u32) -> bool
    ensures { result ≡ is_level level }
{
    1 <= level && level <= 9
}

/// Whether an AG block can be a tree's root in a group of `length` blocks.
pub fn is_root_block(root: u32, length: u32) -> bool
    ensures { result ≡ is_root_block root length }
{
    1 <= root && root < length
}

/// Whether an AG block lies in the group and has no fixed use.
pub fn is_listable(g: &Geometry, ag: u32, ag_block: u32) -> bool
    requires { ag < g.now.agcount }
    ensures { result ≡ is_listable (volume_of g.now) ag ag_block }
{
    ag_block < g.group_length(ag) && !g.is_fixed(g.start_of_group(ag) + ag_block as u64)
}

/// Makes each byte of a sector zero.
pub fn clear(sector: &mut [u8])
    requires { length sector.old ≡ 512 }
    ensures { (at width : ℕ) → at + width ≤ 512 → IsZero sector.new at width }
{
    sector.fill(0);
}
