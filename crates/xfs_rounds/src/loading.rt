//! The blocks of a round, read into a bank.

ghost use Rattle.std.specs.Prelude.{◌≡◌, ◌+◌, ◌<◌, ◌≤◌, length, IfOk};
ghost use Rattle.std.specs.List.{All};
ghost use Rattle.std.specs.Option.{ForSome};
ghost use Rattle.xfs_collections.specs.Bank.{blocks_at};
ghost use Rattle.xfs_disk.specs.Reads.{OnlyReads};
ghost use Rattle.xfs_rounds.specs.Causes.{HasRoundCause};

use crate::faults::RoundFault;
use std::alloc::Global;
use std::sync::ledger::Ledger;
use xfs_collections::{BlockBank, Steps};
use xfs_disk::{Disk, Failed, NoMemory};

/// Reads the blocks of a round in ascending order, each once. Each counts as a step, also where the read fails.
pub fn load_round<D: Disk, L: Ledger>(
    alloc: Global,
    disk: &mut D,
    round: &[u64],
    steps: &mut Steps<L>,
) -> Result<BlockBank, RoundFault>
    requires inside { All (λ block. block < D.size disk.old) round.now }
    ensures size { IfOk result (λ bank. length bank ≡ length round.now) }
    ensures held { IfOk result (λ bank. ForSome (D.holds disk.old) (λ image. bank ≡ blocks_at image round.now)) }
    ensures cause { HasRoundCause (D.faults disk.old) (D.faults disk.new) result }
    ensures disk { OnlyReads D.size D.holds D.write_faults D.writes D.tells_stops D.moment D.may_leave D.left_since disk.old disk.new }
    ensures reads { D.reads disk.new + steps.old ≤ D.reads disk.old + steps.new }
{
    match BlockBank::make(alloc, round.len()) {
        Ok(bank) => fill_round(disk, round, bank, steps),
        Err(NoMemory) => Err(RoundFault::NoMemory),
    }
}

/// The same into the bank of a round before it, which serves again where it has as many blocks.
pub fn reload_round<D: Disk, L: Ledger>(
    alloc: Global,
    disk: &mut D,
    round: &[u64],
    bank: BlockBank,
    steps: &mut Steps<L>,
) -> Result<BlockBank, RoundFault>
    requires inside { All (λ block. block < D.size disk.old) round.now }
    ensures size { IfOk result (λ bank. length bank ≡ length round.now) }
    ensures held { IfOk result (λ bank. ForSome (D.holds disk.old) (λ image. bank ≡ blocks_at image round.now)) }
    ensures cause { HasRoundCause (D.faults disk.old) (D.faults disk.new) result }
    ensures disk { OnlyReads D.size D.holds D.write_faults D.writes D.tells_stops D.moment D.may_leave D.left_since disk.old disk.new }
    ensures reads { D.reads disk.new + steps.old ≤ D.reads disk.old + steps.new }
{
    if bank.len() == round.len() {
        fill_round(disk, round, bank, steps)
    } else {
        drop(bank);
        load_round(alloc, disk, round, steps)
    }
}

/// The same into a bank of as many blocks.
fn fill_round<D: Disk, L: Ledger>(
    disk: &mut D,
    round: &[u64],
    bank: BlockBank,
    steps: &mut Steps<L>,
) -> Result<BlockBank, RoundFault>
    requires inside { All (λ block. block < D.size disk.old) round.now }
    requires room { length bank ≡ length round.now }
    ensures size { IfOk result (λ bank. length bank ≡ length round.now) }
    ensures held { IfOk result (λ bank. ForSome (D.holds disk.old) (λ image. bank ≡ blocks_at image round.now)) }
    ensures cause { HasRoundCause (D.faults disk.old) (D.faults disk.new) result }
    ensures disk { OnlyReads D.size D.holds D.write_faults D.writes D.tells_stops D.moment D.may_leave D.left_since disk.old disk.new }
    ensures reads { D.reads disk.new + steps.old ≤ D.reads disk.old + steps.new }
{
    let mut bank = bank;
    steps.tick_often(round.len());
    match bank.fill(disk, round) {
        Ok(()) => Ok(bank),
        Err(Failed) => {
            drop(bank);
            Err(RoundFault::ReadFault)
        }
    }
}
