//! Backup superblocks: which of them are to be written anew.

ghost use Rattle.std.specs.Prelude.{◌≡◌, ℕ, ◌++◌, ◌-◌, ◌<◌, ◌≤◌, [], ◌∷◌, if◌then◌else◌, length, map, All, OnOk, IfOk, slice_index_or, slice_set};
ghost use Rattle.std.specs.Option.{ForSome};
ghost use Rattle.xfs_disk.specs.Faults.{HasCause};
ghost use Rattle.xfs_disk.specs.Reads.{OnlyReads};
ghost use Rattle.xfs_geom.specs.Superblocks.{is_agreeing};
ghost use Rattle.xfs_geom.specs.Volumes.{volume_of, stated_volume};
ghost use Rattle.xfs_geom.specs.Election.{super_of};
ghost use Rattle.xfs_disk.specs.Blocks.{bytes_of_block};
ghost use Rattle.xfs_writing.specs.Writing.{rows_from, writes_of_rows};
ghost use Rattle.xfs_writing.specs.declared.rows.Row.{Row};
ghost use Rattle.xfs_backups.specs.Backups.{first_disagreeing, start_of, steps_from, with_super};
ghost use Rattle.xfs_backups.specs.Causes.{HasMendCause};
ghost use Rattle.xfs_backups.specs.Private.Rows.{disagreeing_places};

use crate::faults::MendFault;
use std::alloc::Global;
use xfs_collections::{BlockBank, BlockList};
use xfs_disk::{BLOCK_SIZE, Disk, Failed, NoMemory};
use xfs_geom::superblock::SECTOR_SIZE;
use xfs_geom::{Geometry, agrees};
use xfs_writing::Row;

/// What is to be written so that every backup agrees with the primary superblock: blocks, and a row for each in ascending order.
#[derive(Drop)]
pub struct BackupPlan {
    pub bank: BlockList,
    pub rows: Vec<Row>,
}

/// The writes that make every backup agree with the primary superblock.
pub fn plan_backups<D: Disk>(
    alloc: Global,
    disk: &mut D,
    geometry: &Geometry,
    primary: &[u8],
) -> Result<BackupPlan, MendFault>
    requires sector { length primary.now ≡ 512 }
    requires stated { volume_of geometry.now ≡ stated_volume primary.now }
    requires inside { geometry.now.dblocks ≤ D.size disk.old }
    ensures plan { IfOk result (λ plan. ForSome (D.holds disk.old) (λ image.
        writes_of_rows plan.bank plan.rows.items ≡ steps_from primary.now image 1 (geometry.now.agcount - 1))) }
    ensures places { IfOk result (λ plan. All (λ (r : Row). r.at < D.size disk.old) plan.rows.items) }
    ensures inside { IfOk result (λ plan. All (λ (r : Row). r.index < length plan.bank) plan.rows.items) }
    ensures cause { HasMendCause (D.faults disk.old) (D.faults disk.new) result }
    ensures disk { OnlyReads D.size D.holds D.write_faults D.writes D.tells_stops D.moment D.may_leave D.left_since disk.old disk.new }
{
    let places = match list_places(alloc, disk, geometry, primary) {
        Ok(places) => places,
        Err(fault) => return Err(fault),
    };
    let mut bank = match BlockBank::make(alloc, places.len()) {
        Ok(bank) => bank,
        Err(NoMemory) => return Err(MendFault::NoMemory),
    };
    match bank.fill(disk, places.as_slice()) {
        Ok(()) => {}
        Err(Failed) => return Err(MendFault::ReadFault),
    }
    put_primary(&mut bank, primary);
    match join(alloc, &bank, places.as_slice()) {
        Ok(plan) => Ok(plan),
        Err(NoMemory) => Err(MendFault::NoMemory),
    }
}

/// The plan that puts the blocks of a bank at these places.
fn join(alloc: Global, bank: &BlockBank, places: &[u64]) -> Result<BackupPlan, NoMemory>
    ensures bank { IfOk result (λ plan. plan.bank ≡ bank.now) }
    ensures rows { IfOk result (λ plan. plan.rows.items ≡ rows_from 0 places.now) }
{
    let mut blocks = BlockList::make(alloc);
    blocks.push_bank(bank)?;
    let rows = rows_of(alloc, places)?;
    Ok(BackupPlan { bank: blocks, rows })
}

/// The blocks at which groups begin whose backup does not agree with the primary superblock, in ascending order.
fn list_places<D: Disk>(
    alloc: Global,
    disk: &mut D,
    geometry: &Geometry,
    primary: &[u8],
) -> Result<Vec<u64>, MendFault>
    requires sector { length primary.now ≡ 512 }
    requires stated { volume_of geometry.now ≡ stated_volume primary.now }
    requires inside { geometry.now.dblocks ≤ D.size disk.old }
    ensures places { IfOk result (λ places. ForSome (D.holds disk.old) (λ image.
        places.items ≡ disagreeing_places primary.now image 1 (geometry.now.agcount - 1))) }
    ensures inside { IfOk result (λ places. All (λ (place : ℕ). place < D.size disk.old) places.items) }
    ensures cause { HasMendCause (D.faults disk.old) (D.faults disk.new) result }
    ensures disk { OnlyReads D.size D.holds D.write_faults D.writes D.tells_stops D.moment D.may_leave D.left_since disk.old disk.new }
{
    let mut places = Vec::new(alloc);
    for group in 1..geometry.agcount {
        let agreeing = match is_agreeing(disk, geometry, primary, group) {
            Ok(agreeing) => agreeing,
            Err(Failed) => return Err(MendFault::ReadFault),
        };
        match push_unless(&mut places, agreeing, geometry.start_of_group(group)) {
            Ok(()) => {}
            Err(NoMemory) => return Err(MendFault::NoMemory),
        }
    }
    Ok(places)
}

/// Puts a place behind the others, unless its backup agrees.
fn push_unless(places: &mut Vec<u64>, agreeing: bool, place: u64) -> Result<(), NoMemory>
    ensures { OnOk result (places.new.items ≡ places.old.items ++ (if agreeing then [] else place ∷ [])) }
{
    if !agreeing {
        places.push(place)?;
    }
    Ok(())
}

/// Puts the primary superblock in the place of the first sector of each block.
fn put_primary(bank: &mut BlockBank, primary: &[u8])
    requires sector { length primary.now ≡ 512 }
    ensures { bank.new ≡ map (with_super primary.now) bank.old }
{
    for i in 0..bank.len() {
        put_backup(bank, i, primary);
    }
}

/// Puts the primary superblock in the place of the first sector of block `i`.
fn put_backup(bank: &mut BlockBank, i: usize, primary: &[u8])
    requires inside { i < length bank.old }
    requires sector { length primary.now ≡ 512 }
    ensures { bank.new ≡ slice_set bank.old i (with_super primary.now (slice_index_or bank.old i [])) }
{
    let block = bank.view_mut(i);
    let (first, _) = block.split_at_mut(SECTOR_SIZE);
    first.copy_from_slice(primary);
}

/// A row for each of these blocks, whose bytes stand in a bank one behind the other.
fn rows_of(alloc: Global, places: &[u64]) -> Result<Vec<Row>, NoMemory>
    ensures { IfOk result (λ rows. rows.items ≡ rows_from 0 places.now) }
{
    let mut rows = Vec::new(alloc);
    for place in places {
        let index = rows.len();
        rows.push(Row { at: *place, index })?;
    }
    Ok(rows)
}

/// The first allocation group whose backup does not agree with the primary superblock.
pub fn find_disagreeing<D: Disk>(
    disk: &mut D,
    geometry: &Geometry,
    primary: &[u8],
) -> Result<Option<u32>, Failed>
    requires sector { length primary.now ≡ 512 }
    requires stated { volume_of geometry.now ≡ stated_volume primary.now }
    requires inside { geometry.now.dblocks ≤ D.size disk.old }
    ensures first { IfOk result (λ first. ForSome (D.holds disk.old) (λ image.
        first ≡ first_disagreeing primary.now image 1 (geometry.now.agcount - 1))) }
    ensures cause { HasCause (D.faults disk.old) (D.faults disk.new) result }
    ensures disk { OnlyReads D.size D.holds D.write_faults D.writes D.tells_stops D.moment D.may_leave D.left_since disk.old disk.new }
{
    for group in 1..geometry.agcount {
        let agreeing = match is_agreeing(disk, geometry, primary, group) {
            Ok(agreeing) => agreeing,
            Err(Failed) => return Err(Failed),
        };
        if !agreeing {
            return Ok(Some(group));
        }
    }
    Ok(None)
}

/// Whether the backup of a group agrees with the primary superblock.
#[tactic(auto, unfolding(crate::specs::Backups::start_of))]
fn is_agreeing<D: Disk>(
    disk: &mut D,
    geometry: &Geometry,
    primary: &[u8],
    group: u32,
) -> Result<bool, Failed>
    requires sector { length primary.now ≡ 512 }
    requires stated { volume_of geometry.now ≡ stated_volume primary.now }
    requires inside { geometry.now.dblocks ≤ D.size disk.old }
    requires group { group < geometry.now.agcount }
    ensures agreeing { IfOk result (λ agreeing. ForSome (D.holds disk.old) (λ image.
        agreeing ≡ is_agreeing (stated_volume primary.now) (super_of (bytes_of_block image (start_of primary.now group))))) }
    ensures cause { HasCause (D.faults disk.old) (D.faults disk.new) result }
    ensures disk { OnlyReads D.size D.holds D.write_faults D.writes D.tells_stops D.moment D.may_leave D.left_since disk.old disk.new }
{
    let mut block = [0; BLOCK_SIZE];
    match disk.read(geometry.start_of_group(group), &mut block) {
        Ok(()) => Ok(agrees(geometry, first_sector(&block))),
        Err(Failed) => Err(Failed),
    }
}

/// The first sector of a block, where a superblock stands.
fn first_sector(block: &[u8]) -> &[u8]
    requires { length block.now ≡ 4096 }
    ensures value { result.now ≡ super_of block.now }
    ensures size { length result.now ≡ 512 }
{
    block.split_at(SECTOR_SIZE).0
}
