//! The stamp of a call: the time, and random numbers.

ghost use Rattle.std.specs.Prelude.{◌≡◌, ℕ, ◌<◌, ◌^◌, ◌/◌, ◌%◌, ◌-◌, min, IfOk};
ghost use Rattle.std.specs.Duration.{as_nanos};
ghost use Rattle.xfs_system.specs.Stamps.{IsDrawn, IsStampOf};

use crate::host::Host;
use std::io;
use std::time::Duration;
use uuid::Builder;
use xfs_disk::Stamp;

/// The last second that a stamp can state.
const LAST_SECOND: u64 = 0x7fff_ffff;

/// A stamp of now, with a random generation and a random identifier.
pub fn make_stamp<H: Host>(host: &H) -> io::Result<Stamp>
    ensures { IfOk result (IsDrawn (H.tells_time host.now) (H.draws host.now)) }
{
    let mut random = [0; 16];
    host.draw(&mut random)?;
    let mut generation = [0; 4];
    host.draw(&mut generation)?;
    Ok(stamp_of(host.time(), generation, random))
}

/// The stamp of this time, held below 2^31 seconds, and of these random bytes.
fn stamp_of(since: Duration, generation: [u8; 4], random: [u8; 16]) -> Stamp
    ensures { IsStampOf (as_nanos since) generation random result }
{
    Stamp {
        seconds: since.as_secs().min(LAST_SECOND) as u32,
        nanos: since.subsec_nanos(),
        generation: u32::from_le_bytes(generation),
        uuid: Builder::from_random_bytes(random).into_uuid().into_bytes(),
    }
}
