//! The phase that writes planned blocks.

ghost use Rattle.std.specs.Prelude.{◌≡◌, ◌<◌, ◌≤◌, ◌+◌, ◌^◌, ◌⊎◌, ◌++◌, ℕ, length, Some, IfErr, OnOk};
ghost use Rattle.std.specs.List.{All};
ghost use Rattle.std.specs.Option.{ForSome};
ghost use Rattle.xfs_disk.specs.Blocks.{Image};
ghost use Rattle.xfs_disk.specs.Faults.{HasCause};
ghost use Rattle.xfs_writing.specs.Counting.{CountsWrites};
ghost use Rattle.xfs_writing.specs.Stopped.{IsMixed, IsStopped, LeavesJust};
ghost use Rattle.xfs_writing.specs.Writing.{IsPartly, written, writes_of_rows};
ghost use Rattle.xfs_writing.specs.declared.rows.Row.{Row};

use crate::rows::Row;
use xfs_collections::BlockList;
use xfs_disk::{Disk, Failed};

/// Writes blocks of a bank: a sync, those of the first rows in order, a sync, those of the last rows in order, and a sync. After
/// an `Err` so many blocks were written.
pub fn write_parts<D: Disk>(
    disk: &mut D,
    bank: &BlockList,
    first: &[Row],
    last: &[Row],
) -> Result<(), u64>
    requires first_places { All (λ (r : Row). r.at < D.size disk.old) first.now }
    requires last_places { All (λ (r : Row). r.at < D.size disk.old) last.now }
    requires first_inside { All (λ (r : Row). r.index < length bank.now) first.now }
    requires last_inside { All (λ (r : Row). r.index < length bank.now) last.now }
    requires fit { length first.now + length last.now < 2 ^ 64 }
    ensures done { OnOk result (ForSome (D.holds disk.old) (λ image.
        D.holds disk.new ≡ Some (written (writes_of_rows bank.now (first.now ++ last.now)) image))) }
    ensures partly { IfErr result (λ n. ForSome (D.holds disk.old) (λ image.
        IsPartly (writes_of_rows bank.now (first.now ++ last.now)) image n (D.holds disk.new))) }
    ensures most { IfErr result (λ n. n ≤ length first.now + length last.now) }
    // all were written, or just as many as are told
    ensures counted { CountsWrites (length first.now + length last.now) (D.writes disk.old) (D.writes disk.new) result }
    ensures size { D.size disk.new ≡ D.size disk.old }
    ensures faults { D.faults disk.new ≡ D.faults disk.old }
    ensures reads { D.reads disk.new ≡ D.reads disk.old }
    ensures cause { HasCause (D.write_faults disk.old) (D.write_faults disk.new) result }
    // once all is written, a stop leaves just what the disk holds
    ensures kept { OnOk result (D.tells_stops disk.old → ForSome (D.holds disk.new) (LeavesJust (D.may_leave disk.new))) }
    // a stop leaves what it might have left before, or some blocks as planned: those of the last part only once all of the first are
    ensures stops { D.tells_stops disk.old → ForSome (D.holds disk.old) (λ image.
        (t : ℕ) (stopped : Image) → t ≤ D.moment disk.old → D.left_since disk.new t stopped
        → D.left_since disk.old t stopped ⊎ IsStopped (writes_of_rows bank.now first.now) (writes_of_rows bank.now last.now) image stopped) }
    ensures later { D.tells_stops disk.old → D.moment disk.old ≤ D.moment disk.new }
    ensures tells { D.tells_stops disk.old → D.tells_stops disk.new }
{
    match write_part(disk, bank, first) {
        Ok(()) => {}
        Err(written) => return Err(written),
    }
    match write_part(disk, bank, last) {
        Ok(()) => {}
        Err(written) => return Err(first.len() as u64 + written),
    }
    match disk.sync() {
        Ok(()) => Ok(()),
        Err(Failed) => Err(first.len() as u64 + last.len() as u64),
    }
}

/// A sync, and then the blocks of rows, in order. After an `Err` so many were written.
fn write_part<D: Disk>(disk: &mut D, bank: &BlockList, rows: &[Row]) -> Result<(), u64>
    requires places { All (λ (r : Row). r.at < D.size disk.old) rows.now }
    requires inside { All (λ (r : Row). r.index < length bank.now) rows.now }
    ensures done { OnOk result (ForSome (D.holds disk.old) (λ image. D.holds disk.new ≡ Some (written (writes_of_rows bank.now rows.now) image))) }
    ensures partly { IfErr result (λ n. ForSome (D.holds disk.old) (λ image. IsPartly (writes_of_rows bank.now rows.now) image n (D.holds disk.new))) }
    ensures most { IfErr result (λ n. n ≤ length rows.now) }
    ensures counted { CountsWrites (length rows.now) (D.writes disk.old) (D.writes disk.new) result }
    ensures size { D.size disk.new ≡ D.size disk.old }
    ensures faults { D.faults disk.new ≡ D.faults disk.old }
    ensures reads { D.reads disk.new ≡ D.reads disk.old }
    ensures cause { HasCause (D.write_faults disk.old) (D.write_faults disk.new) result }
    ensures stops { D.tells_stops disk.old → ForSome (D.holds disk.old) (λ image.
        (t : ℕ) (stopped : Image) → t ≤ D.moment disk.old → D.left_since disk.new t stopped
        → D.left_since disk.old t stopped ⊎ IsMixed (writes_of_rows bank.now rows.now) image stopped) }
    ensures later { D.tells_stops disk.old → D.moment disk.old ≤ D.moment disk.new }
    ensures tells { D.tells_stops disk.old → D.tells_stops disk.new }
{
    match disk.sync() {
        Ok(()) => write_each(disk, bank, rows),
        Err(Failed) => Err(0),
    }
}

/// Writes the blocks of rows, in order. After an `Err` so many were written.
fn write_each<D: Disk>(disk: &mut D, bank: &BlockList, rows: &[Row]) -> Result<(), u64>
    requires places { All (λ (r : Row). r.at < D.size disk.old) rows.now }
    requires inside { All (λ (r : Row). r.index < length bank.now) rows.now }
    ensures done { OnOk result (ForSome (D.holds disk.old) (λ image. D.holds disk.new ≡ Some (written (writes_of_rows bank.now rows.now) image))) }
    ensures partly { IfErr result (λ n. ForSome (D.holds disk.old) (λ image. IsPartly (writes_of_rows bank.now rows.now) image n (D.holds disk.new))) }
    ensures below { IfErr result (λ n. n < length rows.now) }
    ensures counted { CountsWrites (length rows.now) (D.writes disk.old) (D.writes disk.new) result }
    ensures size { D.size disk.new ≡ D.size disk.old }
    ensures faults { D.faults disk.new ≡ D.faults disk.old }
    ensures reads { D.reads disk.new ≡ D.reads disk.old }
    ensures cause { HasCause (D.write_faults disk.old) (D.write_faults disk.new) result }
    // where a stop left just what the disk held
    ensures stops { D.tells_stops disk.old → ForSome (D.holds disk.old) (λ image. LeavesJust (D.may_leave disk.old) image
        → (t : ℕ) (stopped : Image) → t ≤ D.moment disk.old → D.left_since disk.new t stopped
        → D.left_since disk.old t stopped ⊎ IsMixed (writes_of_rows bank.now rows.now) image stopped) }
    ensures later { D.tells_stops disk.old → D.moment disk.old ≤ D.moment disk.new }
    ensures tells { D.tells_stops disk.old → D.tells_stops disk.new }
{
    let mut written = 0;
    for row in rows {
        match disk.write(row.at, bank.view(row.index)) {
            Ok(()) => written += 1,
            Err(Failed) => return Err(written),
        }
    }
    Ok(())
}
