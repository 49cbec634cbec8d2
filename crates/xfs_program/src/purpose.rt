//! What a call does with its image, by its words.

ghost use Rattle.std.specs.Prelude.{◌≡◌, ℕ, IfOk, drop, if◌then◌else◌, true, false};
ghost use Rattle.xfs_options.specs.DebugWords.{debug_of};
ghost use Rattle.xfs_options.specs.MakeWords.{make_of};
ghost use Rattle.xfs_program.specs.Purposes.{debugger_purpose, maker_purpose, purpose_in, repair_purpose, writing_purpose};

use std::alloc::{AllocError, Global};
use xfs_disk::Word;
use xfs_options::{LineFault, MakeFault, read_debug_words, read_make_words};
use xfs_system::Purpose;
use xfs_tools::{Call, is_debugger, is_maker, judge, text_asked};

/// What a call does with its image.
pub fn purpose_of(alloc: Global, words: &[Word]) -> Result<Purpose, AllocError>
    ensures { IfOk result (λ purpose. purpose ≡ purpose_in words.now) }
{
    if text_asked(words).is_some() {
        Ok(Purpose::Nothing)
    } else if is_debugger(words) {
        purpose_of_debugger(alloc, &words[1..])
    } else if is_maker(words) {
        purpose_of_maker(alloc, &words[1..])
    } else {
        Ok(purpose_of_repair(judge(words)))
    }
}

fn purpose_of_debugger(alloc: Global, rest: &[Word]) -> Result<Purpose, AllocError>
    ensures { IfOk result (λ purpose. purpose ≡ debugger_purpose (debug_of rest.now)) }
{
    match read_debug_words(alloc, rest) {
        Ok(line) => Ok(purpose_if(line.expert && !line.read_only)),
        Err(LineFault::Offends(_)) => Ok(Purpose::Nothing),
        Err(LineFault::NoMemory) => Err(AllocError),
    }
}

fn purpose_of_maker(alloc: Global, rest: &[Word]) -> Result<Purpose, AllocError>
    ensures { IfOk result (λ purpose. purpose ≡ maker_purpose (make_of rest.now)) }
{
    match read_make_words(alloc, rest) {
        Ok(_) => Ok(Purpose::Writes),
        Err(MakeFault::Offends(_) | MakeFault::BadOption { .. }) => Ok(Purpose::Nothing),
        Err(MakeFault::NoMemory) => Err(AllocError),
    }
}

fn purpose_of_repair(call: Call) -> Purpose
    ensures { result ≡ repair_purpose call }
{
    match call {
        Call::Repair(words) => purpose_if(!words.check),
        Call::Refused { .. } => Purpose::Nothing,
    }
}

fn purpose_if(writes: bool) -> Purpose
    ensures { result ≡ writing_purpose writes }
{
    if writes {
        Purpose::Writes
    } else {
        Purpose::Reads
    }
}
