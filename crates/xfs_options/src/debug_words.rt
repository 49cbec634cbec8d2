//! The words of xfs_db.

ghost use Rattle.std.specs.Prelude.{◌≡◌, ℕ, Ok, Err, ◌==◌, IfOk, IfErr, List, [], ◌∷◌, ◌++◌};
ghost use Rattle.std.specs.List.{filter};
ghost use Rattle.xfs_options.specs.DebugWords.{debug_line, debug_of, debug_options, said, values_of};
ghost use Rattle.xfs_options.specs.Words.{IsCause, OffendsFirst, Words};

use crate::options::{OptionRow, ValueForm};
use crate::reading::{Given, LineFault, is_given, read_options};
use std::alloc::Global;
use xfs_disk::{NoMemory, Word};

/// What a command line of `xfs_db` says.
#[derive(Drop)]
pub struct DebugLine {
    /// Nothing is written (`-r`).
    pub read_only: bool,
    /// Fields may be written (`-x`).
    pub expert: bool,
    /// The commands that are run in place of an input, in order (`-c`).
    pub commands: Vec<Word>,
}

/// The options of `xfs_db`. `-f` says that the image is a file, and has no effect.
const DEBUG_OPTIONS: [OptionRow; 4] = [
    OptionRow {
        letter: b'r',
        value: None,
        excludes: None,
    },
    OptionRow {
        letter: b'x',
        value: None,
        excludes: None,
    },
    OptionRow {
        letter: b'f',
        value: None,
        excludes: None,
    },
    OptionRow {
        letter: b'c',
        value: Some(ValueForm::Any),
        excludes: None,
    },
];

/// Reads the words behind `xfs_db`, whose numbers begin at 1: `[-r] [-x] [-f] [-c command]... IMAGE`.
pub fn read_debug_words(alloc: Global, rest: &[Word]) -> Result<DebugLine, LineFault>
    ensures line { IfOk result (λ line. debug_of rest.now ≡ Ok (said line)) }
    ensures refusal { IfErr result (IsCause (debug_of rest.now)) }
    ensures offending { (n : ℕ) → result ≡ Err (LineFault.Offends n) → OffendsFirst debug_options rest.now n }
{
    read_line(alloc, rest)
}

#[tactic(auto, unfolding(crate::specs::DebugWords::debug_of))]
fn read_line(alloc: Global, rest: &[Word]) -> Result<DebugLine, LineFault>
    ensures line { IfOk result (λ line. debug_of rest.now ≡ Ok (said line)) }
    ensures refusal { IfErr result (IsCause (debug_of rest.now)) }
{
    match read_options(alloc, &DEBUG_OPTIONS, rest) {
        Ok(given) => match debug_line(alloc, given) {
            Ok(line) => Ok(line),
            Err(NoMemory) => Err(LineFault::NoMemory),
        },
        Err(fault) => Err(fault),
    }
}

/// What the options of `xfs_db` say.
fn debug_line(alloc: Global, given: Vec<Given>) -> Result<DebugLine, NoMemory>
    ensures { IfOk result (λ line. said line ≡ debug_line given.items) }
{
    Ok(DebugLine {
        read_only: is_given(b'r', &given),
        expert: is_given(b'x', &given),
        commands: into_values(alloc, b'c', given)?,
    })
}

/// The values of an option, in order.
fn into_values(alloc: Global, letter: u8, given: Vec<Given>) -> Result<Vec<Word>, NoMemory>
    ensures { IfOk result (λ values. values.items ≡ values_of letter given.items) }
{
    let mut values = Vec::new(alloc);
    for given in given {
        push_value(&mut values, letter, given)?;
    }
    Ok(values)
}

/// Adds the value of an option that has the letter.
fn push_value(values: &mut Vec<Word>, letter: u8, given: Given) -> Result<(), NoMemory>
    ensures { IfOk result (λ _. values.new.items ≡ values.old.items ++ values_of letter (given ∷ [])) }
{
    if given.letter == letter {
        values.push(given.value)?;
    }
    Ok(())
}
