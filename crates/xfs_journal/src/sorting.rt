//! The places of log sequence numbers in order.

ghost use Rattle.std.specs.Prelude.{◌≡◌, IfOk};
ghost use Rattle.std.specs.List.{All};
ghost use Rattle.xfs_image.specs.Lsns.{lsn_places_in_order};
ghost use Rattle.xfs_journal.specs.Placed.{IsInBlock, listed};

use crate::places::LsnPosition;
use xfs_disk::NoMemory;
use xfs_image::places_are_ordered;

/// The places by block, and those of one block by byte.
pub fn sort_places(places: Vec<LsnPosition>) -> Result<Vec<LsnPosition>, NoMemory>
    requires inside { All IsInBlock places.items }
    ensures listed { IfOk result (λ sorted. listed sorted.items ≡ lsn_places_in_order (listed places.items)) }
    ensures inside { IfOk result (λ sorted. All IsInBlock sorted.items) }
{
    let mut sorted = places;
    sorted.sort()?;
    places_are_ordered();
    Ok(sorted)
}
