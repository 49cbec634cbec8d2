//! Why a line can't be done.

use std::alloc::{AllocError, AllocFailed};
use std::fmt;
use xfs_disk::{Failed, NoMemory};

/// Why a line can't be done.
#[derive(Clone, Copy)]
pub enum Refusal {
    /// No line begins with this word.
    Unknown,
    /// A number or a digit is not one, or one is missing.
    Malformed,
    /// There is no definition of this name.
    Undefined,
    /// No case has begun.
    NoCase,
    /// No call has been made whose answer this could be.
    NoCall,
    /// No file has been added to the library.
    NoFile,
    /// The bytes do not lie in a block in memory.
    Outside,
    NoMemory,
}

impl fmt::Display for Refusal {
    fn fmt<W: fmt::Write>(&self, f: &mut fmt::Formatter<W>) -> fmt::Result {
        let text = match self {
            Refusal::Unknown => "no line begins so",
            Refusal::Malformed => "a number or a digit is not one",
            Refusal::Undefined => "there is no such definition",
            Refusal::NoCase => "no case has begun",
            Refusal::NoCall => "no call has been made",
            Refusal::NoFile => "the library has no file",
            Refusal::Outside => "the bytes do not lie in a block in memory",
            Refusal::NoMemory => "no memory",
        };
        write!(f, "{text}")
    }
}

impl From<AllocError> for Refusal {
    fn from(_error: AllocError) -> Refusal {
        Refusal::NoMemory
    }
}

impl<T: Drop> From<AllocFailed<T>> for Refusal {
    fn from(_error: AllocFailed<T>) -> Refusal {
        Refusal::NoMemory
    }
}

impl From<NoMemory> for Refusal {
    fn from(_error: NoMemory) -> Refusal {
        Refusal::NoMemory
    }
}

impl From<Failed> for Refusal {
    fn from(_error: Failed) -> Refusal {
        Refusal::Outside
    }
}
