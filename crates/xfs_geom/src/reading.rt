//! Superblocks that are accepted, and the faults of those that are not.

ghost use Rattle.std.specs.Prelude.{◌≡◌, ℕ, ◌≤◌, ◌==◌, ◌&&◌, not, length, Option, Some, None, IfOk, IfErr};
ghost use Rattle.xfs_geom.specs.Superblocks.{super_seal, super_fault};
ghost use Rattle.xfs_geom.specs.Volumes.{volume_of, stated_volume};

use crate::features::{Departure, refused_feature};
use crate::fixed::fixed_fault;
use crate::geometry::Geometry;
use crate::stated::Stated;
use crate::superblock::UUID;
use xfs_word::{Seal, SealKind, part, sealed};

/// Why a superblock is not accepted.
#[derive(Clone, Copy)]
pub enum SuperFault {
    /// Its magic number, version, checksum or log sequence number is not right.
    NotSealed,
    /// A feature word is refused.
    Unsupported { word: u8, bits: u64 },
    /// A word of its shape is not right.
    Shape { word: u8 },
}

/// The seal of a superblock, which stands under an identifier of its own.
pub(crate) fn super_seal() -> Seal
    ensures { result ≡ super_seal }
{
    Seal {
        kind: SealKind::Super,
        place: 0,
        owner: None,
        uuid: [0; 16],
    }
}

/// The geometry that a superblock states, where it is accepted at the block `place` of an image of
/// `blocks` blocks: the primary at place 0, a backup at another. The tests are made in this order: the
/// seal, whether the primary was left while it was made, the feature words, the words of its shape.
pub fn read_super(sector: &[u8], place: u64, blocks: u64) -> Result<Geometry, SuperFault>
    requires { length sector.now ≡ 512 }
    ensures accepted { IfOk result (λ g. super_fault sector.now place blocks ≡ None) }
    ensures stated { IfOk result (λ g. volume_of g ≡ stated_volume sector.now) }
    ensures inside { IfOk result (λ g. g.dblocks ≤ blocks) }
    ensures refused { IfErr result (λ fault. super_fault sector.now place blocks ≡ Some fault) }
{
    if !sealed(&super_seal(), sector) {
        return Err(SuperFault::NotSealed);
    }
    let stated = Stated::read(sector);
    if was_left(place, stated.inprogress) {
        return Err(SuperFault::Shape { word: 19 });
    }
    if let Some(Departure { word, bits }) = refused_feature(sector) {
        return Err(SuperFault::Unsupported { word, bits });
    }
    if let Some(word) = fixed_fault(sector) {
        return Err(SuperFault::Shape { word });
    }
    if let Some(word) = stated.parts_fault() {
        return Err(SuperFault::Shape { word });
    }
    if let Some(word) = stated.place_fault(place, blocks) {
        return Err(SuperFault::Shape { word });
    }
    let mut uuid = [0; 16];
    uuid.copy_from_slice(part(sector, UUID.offset, UUID.width));
    Ok(stated.geometry(uuid))
}

/// Whether this is a primary superblock that was left while it was made.
fn was_left(place: u64, inprogress: u8) -> bool
    ensures { result ≡ (place == 0 && not (inprogress == 0)) }
{
    place == 0 && inprogress != 0
}
