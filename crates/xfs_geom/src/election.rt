//! Which superblock of an image says what its volume is.

ghost use Rattle.std.specs.Prelude.{◌≡◌, ℕ, ◌+◌, ◌<◌, ◌≤◌, ◌⊎◌, List, length, None, IfOk, IfErr, OnOk};
ghost use Rattle.std.specs.Option.{ForSome, ok_or};
ghost use Rattle.xfs_disk.specs.Reads.{OnlyReads};
ghost use Rattle.xfs_geom.specs.Superblocks.{super_fault};
ghost use Rattle.xfs_geom.specs.Volumes.{volume_of, stated_volume};
ghost use Rattle.xfs_geom.specs.Election.{elected, winner, votes_below};
ghost use Rattle.xfs_geom.specs.Electing.{IsElection, HasElectCause};
ghost use Rattle.xfs_geom.specs.Writing.{IsAcceptedSector};
ghost use Rattle.xfs_geom.specs.Polls.{HasPolled};

use crate::geometry::Geometry;
use crate::polls::Poll;
use crate::reading::{SuperFault, read_super};
use crate::superblock::SECTOR_SIZE;
use std::alloc::Global;
use xfs_disk::{Disk, Failed, NoMemory};

/// The superblock that says what a volume is.
#[derive(Clone, Copy)]
pub struct Elected {
    /// The geometry that the superblock states.
    pub geometry: Geometry,
    /// The number of the block at which the superblock stands.
    pub from: u64,
    /// The bytes of the superblock.
    pub sector: [u8; SECTOR_SIZE],
}

/// Why no superblock is elected.
#[derive(Clone, Copy, Debug, PartialEq, Eq)]
pub enum ElectFault {
    /// No superblock is accepted.
    NoGeometry,
    /// The primary superblock has a feature word that is refused.
    Unsupported { word: u8, bits: u64 },
    /// A read failed.
    ReadFault,
    /// There is not enough memory.
    NoMemory,
}

/// Elects the superblock that says what the disk's volume is: the primary where it is accepted, or else
/// the first of the backups for the volume with the most of them. Where a feature of the primary is
/// refused, no backup is asked. Each block is read once at most.
pub fn elect<D: Disk>(alloc: Global, disk: &mut D) -> Result<Elected, ElectFault>
    ensures due { ForSome (D.holds disk.old) (λ image. IsElection (elected image) result) }
    ensures accepted { IfOk result (λ e. super_fault e.sector e.from (D.size disk.old) ≡ None) }
    ensures base { IfOk result (λ e. IsAcceptedSector e.sector) }
    ensures states { IfOk result (λ e. volume_of e.geometry ≡ stated_volume e.sector) }
    ensures inside { IfOk result (λ e. e.geometry.dblocks ≤ D.size disk.old) }
    ensures cause { HasElectCause (D.faults disk.old) (D.faults disk.new) result }
    ensures disk { OnlyReads D.size D.holds D.write_faults D.writes D.tells_stops D.moment D.may_leave D.left_since disk.old disk.new }
    ensures reads { D.reads disk.new ≤ D.reads disk.old + D.size disk.old }
{
    let size = match disk.blocks() {
        Ok(size) => size,
        Err(Failed) => return Err(ElectFault::ReadFault),
    };
    if size == 0 {
        return Err(ElectFault::NoGeometry);
    }
    let mut sector = [0; SECTOR_SIZE];
    match disk.read_front(0, &mut sector) {
        Ok(()) => {}
        Err(Failed) => return Err(ElectFault::ReadFault),
    }
    match read_super(&sector, 0, size) {
        Ok(geometry) => Ok(Elected::new(geometry, 0, &sector)),
        Err(SuperFault::Unsupported { word, bits }) => Err(ElectFault::Unsupported { word, bits }),
        Err(_) => elect_backup(alloc, disk, size),
    }
}

/// Elects a backup of the disk, which has so many blocks.
fn elect_backup<D: Disk>(alloc: Global, disk: &mut D, size: u64) -> Result<Elected, ElectFault>
    requires some { 0 < size }
    requires size { size ≡ D.size disk.old }
    ensures due { ForSome (D.holds disk.old) (λ image. IsElection (ok_or (winner (votes_below image size)) ElectFault.NoGeometry) result) }
    ensures accepted { IfOk result (λ e. super_fault e.sector e.from size ≡ None) }
    ensures states { IfOk result (λ e. volume_of e.geometry ≡ stated_volume e.sector) }
    ensures inside { IfOk result (λ e. e.geometry.dblocks ≤ size) }
    ensures cause { HasElectCause (D.faults disk.old) (D.faults disk.new) result }
    ensures disk { OnlyReads D.size D.holds D.write_faults D.writes D.tells_stops D.moment D.may_leave D.left_since disk.old disk.new }
    ensures reads { D.reads disk.new + 1 ≤ D.reads disk.old + size }
{
    let mut poll = Poll::new(alloc);
    let mut sector = [0; SECTOR_SIZE];
    for place in 1..size {
        match ask_block(disk, &mut poll, place, size, &mut sector) {
            Ok(()) => {}
            Err(fault) => return Err(fault),
        }
    }
    match poll.leader() {
        Some(elected) => Ok(elected),
        None => Err(ElectFault::NoGeometry),
    }
}

/// Reads the first sector of a block of the disk, which has so many, and counts its vote, where it has one. Its bytes are then in the slice.
fn ask_block<D: Disk>(
    disk: &mut D,
    poll: &mut Poll,
    place: u64,
    size: u64,
    sector: &mut [u8],
) -> Result<(), ElectFault>
    requires whole { length sector.old ≡ 512 }
    requires above { 0 < place }
    requires inside { place < size }
    requires size { size ≡ D.size disk.old }
    requires polled { HasPolled (D.holds disk.old) size place poll.old }
    ensures polled { OnOk result (HasPolled (D.holds disk.old) size (place + 1) poll.new) }
    ensures fault { IfErr result (λ fault. (fault ≡ ElectFault.ReadFault) ⊎ (fault ≡ ElectFault.NoMemory)) }
    ensures cause { HasElectCause (D.faults disk.old) (D.faults disk.new) result }
    ensures disk { OnlyReads D.size D.holds D.write_faults D.writes D.tells_stops D.moment D.may_leave D.left_since disk.old disk.new }
    ensures reads { D.reads disk.new ≤ D.reads disk.old + 1 }
{
    match disk.read_front(place, sector) {
        Ok(()) => {}
        Err(Failed) => return Err(ElectFault::ReadFault),
    }
    match poll.ask(sector, place, size) {
        Ok(()) => Ok(()),
        Err(NoMemory) => Err(ElectFault::NoMemory),
    }
}

impl Elected {
    /// The superblock in a sector, which stands at this block and states this geometry.
    pub(crate) fn new(geometry: Geometry, from: u64, sector: &[u8]) -> Elected
        requires { length sector.now ≡ 512 }
        ensures geometry { result.geometry ≡ geometry }
        ensures from { result.from ≡ from }
        ensures sector { result.sector ≡ sector.now }
    {
        let mut bytes = [0; SECTOR_SIZE];
        bytes.copy_from_slice(sector);
        Elected {
            geometry,
            from,
            sector: bytes,
        }
    }
}
