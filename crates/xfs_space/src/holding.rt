//! What a map of owners gives a block.

ghost use Rattle.std.specs.Prelude.{◌≡◌, ℕ, ◌+◌, ◌*◌, ◌<◌, ◌^◌, List, map};
ghost use Rattle.std.specs.List.{All};
ghost use Rattle.xfs_kinds.specs.MergedRuns.{held_at, offset_word_at};
ghost use Rattle.xfs_kinds.specs.OffsetWords.{is_file_data};
ghost use Rattle.xfs_space.specs.SpaceLaws.{owner_number, recorded_run};
ghost use Rattle.xfs_space.specs.Maps.{AreMapped, IsMapped};

use crate::owners::TREE_BLOCK;
use crate::sharing::covers;
use xfs_geom::{RmapRec, Run};

/// Stands for an owner that is not there.
const NOTHING: u128 = u128::MAX;

/// The owners that are inodes are below this number.
const NEGATIVE: u64 = 1 << 63;

/// A record of the group that begins at block `base`, by block of the volume.
pub fn recorded_run(base: u64, recorded: &RmapRec) -> Run
    requires { base < 2 ^ 26 }
    ensures { result ≡ recorded_run base recorded.now }
{
    Run {
        start: base + recorded.start as u64,
        count: recorded.count as u64,
        owner: recorded.owner,
        offset_word: recorded.offset_word,
    }
}

/// The owner and the offset word that the records of the group give a block, as one number.
pub fn recorded_number(base: u64, records: &[RmapRec], block: u64) -> u128
    requires base { base < 2 ^ 26 }
    requires records { AreMapped (map (recorded_run base) records.now) }
    ensures { result ≡ owner_number (held_at (map (recorded_run base) records.now) block) }
{
    for record in records {
        let run = recorded_run(base, record);
        if covers(&run, block) {
            return number_of(&run, block);
        }
    }
    NOTHING
}

/// The owner and the offset word that the runs give a block, as one number.
pub fn held_number(runs: &[Run], block: u64) -> u128
    requires { AreMapped runs.now }
    ensures { result ≡ owner_number (held_at runs.now block) }
{
    for run in runs {
        if covers(run, block) {
            return number_of(run, block);
        }
    }
    NOTHING
}

/// The owner of a run and the offset word of one of its blocks, as one number.
fn number_of(run: &Run, block: u64) -> u128
    requires run { IsMapped run.now }
    requires block { block < run.now.start + run.now.count }
    ensures { result ≡ run.now.owner * 2 ^ 64 + offset_word_at run.now block }
{
    run.owner as u128 * (1 << 64) + offset_word_at(run, block) as u128
}

/// The offset word of a block of a run: the offset of file data goes up with the block.
pub fn offset_word_at(run: &Run, block: u64) -> u64
    requires run { IsMapped run.now }
    requires block { block < run.now.start + run.now.count }
    ensures { result ≡ offset_word_at run.now block }
{
    if is_file_data(run) {
        run.offset_word + block.saturating_sub(run.start)
    } else {
        run.offset_word
    }
}

/// Whether the blocks hold data of a file, or of its attributes.
fn is_file_data(run: &Run) -> bool
    ensures { result ≡ is_file_data run.now.owner run.now.offset_word }
{
    run.owner < NEGATIVE && run.offset_word / TREE_BLOCK % 2 == 0
}
