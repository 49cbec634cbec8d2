//! Backup superblocks that agree with the volume's geometry.

ghost use Rattle.std.specs.Prelude.{◌≡◌, ℕ, ◌+◌, ◌^◌, ◌<◌, ◌&&◌, length, is_none};
ghost use Rattle.xfs_word.specs.Seal.{is_sealed};
ghost use Rattle.xfs_geom.specs.Features.{refused_feature};
ghost use Rattle.xfs_geom.specs.Fixed.{fixed_fault};
ghost use Rattle.xfs_geom.specs.Superblocks.{agrees_on_inode, is_agreeing, states_volume, super_seal};
ghost use Rattle.xfs_geom.specs.Private.Words.{states_groups, states_log, states_inodes};
ghost use Rattle.xfs_geom.specs.Parts.{HasParts};
ghost use Rattle.xfs_geom.specs.Stated.{stated};
ghost use Rattle.xfs_geom.specs.Volumes.{volume_of};

use crate::features::refused_feature;
use crate::fixed::fixed_fault;
use crate::geometry::Geometry;
use crate::reading::super_seal;
use crate::stated::Stated;
use crate::superblock::UUID;
use xfs_word::{part, sealed};

/// Whether the superblock in a sector agrees with the geometry of its volume. The sector stands at the
/// start of an allocation group above 0, in an image of at least `dblocks` blocks.
pub fn agrees(g: &Geometry, sector: &[u8]) -> bool
    requires { length sector.now ≡ 512 }
    ensures { result ≡ is_agreeing (volume_of g.now) sector.now }
{
    if !is_sound(sector) {
        return false;
    }
    let stated = Stated::read(sector);
    if stated.parts_fault().is_some() {
        return false;
    }
    states_volume(g, &stated, sector)
}

/// Whether a superblock is sealed, and has the features and the fixed words of every volume.
fn is_sound(sector: &[u8]) -> bool
    requires { length sector.now ≡ 512 }
    ensures { result ≡ (is_sealed super_seal sector.now && is_none (refused_feature sector.now) && is_none (fixed_fault sector.now)) }
{
    sealed(&super_seal(), sector)
        && refused_feature(sector).is_none()
        && fixed_fault(sector).is_none()
}

/// Whether a superblock has the volume's values of what makes its geometry.
fn states_volume(g: &Geometry, held: &Stated, sector: &[u8]) -> bool
    requires sector { length sector.now ≡ 512 }
    requires stated { held.now ≡ stated sector.now }
    requires parts { HasParts held.now }
    ensures { result ≡ states_volume (volume_of g.now) sector.now }
{
    states_groups(g, held)
        && states_log(g, held)
        && part(sector, UUID.offset, UUID.width) == g.uuid.as_slice()
        && states_inodes(g.rootino, held)
}

/// Whether a superblock has the volume's groups and addresses.
fn states_groups(g: &Geometry, held: &Stated) -> bool
    ensures { result ≡ states_groups (volume_of g.now) held.now }
{
    held.dblocks == g.dblocks
        && held.agblocks == g.agblocks
        && held.agcount == g.agcount
        && held.agblklog == g.agblklog
}

/// Whether a superblock has the volume's log.
fn states_log(g: &Geometry, held: &Stated) -> bool
    requires { HasParts held.now }
    ensures { result ≡ states_log (volume_of g.now) held.now }
{
    held.log() == g.log && held.logblocks == g.logblocks && held.logsectlog == g.logsectlog
}

/// Whether a superblock has the volume's inodes.
fn states_inodes(rootino: u64, held: &Stated) -> bool
    requires { rootino + 2 < 2 ^ 64 }
    ensures { result ≡ states_inodes rootino held.now }
{
    agrees_on_inode(rootino, held.rootino)
        && agrees_on_inode(rootino + 1, held.rbmino)
        && agrees_on_inode(rootino + 2, held.rsumino)
}

/// Whether an inode number of a backup is the one that is due, or all ones.
fn agrees_on_inode(due: u64, ino: u64) -> bool
    ensures { result ≡ agrees_on_inode due ino }
{
    ino == due || ino == u64::MAX
}
