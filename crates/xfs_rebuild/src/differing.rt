//! Planned blocks that differ from those on the disk.

ghost use Rattle.std.specs.Prelude.{◌≡◌, ◌++◌, ◌<◌, ◌≤◌, [], ◌∷◌, if◌then◌else◌, length, IfErr, IfOk, OnOk};
ghost use Rattle.std.specs.List.{All};
ghost use Rattle.std.specs.Option.{ForSome};
ghost use Rattle.xfs_disk.specs.Faults.{HasCause};
ghost use Rattle.xfs_disk.specs.Reads.{OnlyReads};
ghost use Rattle.xfs_render.specs.Drafts.{AreInBank};
ghost use Rattle.xfs_writing.specs.declared.rows.Row.{Row};
ghost use Rattle.xfs_rebuild.specs.Differing.{differs, left_to_write};
ghost use Rattle.xfs_rebuild.specs.Refusals.{HasRebuildCause, IsReadRefused};

use crate::faults::RebuildFault;
use std::alloc::Global;
use xfs_collections::BlockList;
use xfs_disk::{BLOCK_SIZE, Disk, Failed, NoMemory};
use xfs_writing::Row;

/// The rows whose blocks the disk does not hold already, in their order. Each block is read once.
pub(crate) fn left_to_write<D: Disk>(
    alloc: Global,
    disk: &mut D,
    bank: &BlockList,
    rows: &[Row],
) -> Result<Vec<Row>, RebuildFault>
    requires inside { All (λ (r : Row). r.at < D.size disk.old) rows.now }
    requires banked { AreInBank rows.now bank.now }
    ensures left { IfOk result (λ left. ForSome (D.holds disk.old) (λ image. left.items ≡ left_to_write bank.now image rows.now)) }
    ensures places { IfOk result (λ left. All (λ (r : Row). r.at < D.size disk.old) left.items) }
    ensures kept { IfOk result (λ left. AreInBank left.items bank.now) }
    ensures refused { IfErr result IsReadRefused }
    ensures cause { HasRebuildCause (D.faults disk.old) (D.faults disk.new) result }
    ensures disk { OnlyReads D.size D.holds D.write_faults D.writes D.tells_stops D.moment D.may_leave D.left_since disk.old disk.new }
{
    let mut left = Vec::new(alloc);
    for row in rows {
        let other = match differs(disk, bank, row) {
            Ok(other) => other,
            Err(Failed) => return Err(RebuildFault::ReadFault),
        };
        match push_if(&mut left, other, row) {
            Ok(()) => {}
            Err(NoMemory) => return Err(RebuildFault::NoMemory),
        }
    }
    Ok(left)
}

/// Puts a row behind the others, where it is left to write.
fn push_if(left: &mut Vec<Row>, other: bool, row: &Row) -> Result<(), NoMemory>
    ensures { OnOk result (left.new.items ≡ left.old.items ++ (if other then row.now ∷ [] else [])) }
{
    if other {
        left.push(*row)?;
    }
    Ok(())
}

/// Whether the disk has other bytes at the row's block.
fn differs<D: Disk>(disk: &mut D, bank: &BlockList, row: &Row) -> Result<bool, Failed>
    requires inside { row.now.at < D.size disk.old }
    requires banked { row.now.index < length bank.now }
    ensures differs { IfOk result (λ other. ForSome (D.holds disk.old) (λ image. other ≡ differs bank.now image row.now)) }
    ensures cause { HasCause (D.faults disk.old) (D.faults disk.new) result }
    ensures disk { OnlyReads D.size D.holds D.write_faults D.writes D.tells_stops D.moment D.may_leave D.left_since disk.old disk.new }
{
    let mut block = [0; BLOCK_SIZE];
    match disk.read(row.at, &mut block) {
        Ok(()) => Ok(&block[..] != bank.view(row.index)),
        Err(Failed) => Err(Failed),
    }
}
