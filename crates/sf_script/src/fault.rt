//! Where a script has its first fault, and which: what the record SFLT shows.
ghost use Rattle.std.specs.Prelude.{◌≡◌};
ghost use Rattle.sf_script.specs.declared.fault.LineFault.TheVariants.{NoMemory, Word};

use sf_base::NoMemory;
use sf_script_words::WordFault;
use std::alloc::{AllocError, AllocFailed};

/// Why a line was not read.
#[derive(Clone, Copy)]
pub enum LineFault {
    Word(WordFault),
    NoMemory,
}

impl From<WordFault> for LineFault {
    ghost from_gives = { λ fault e. e ≡ Word fault };

    fn from(fault: WordFault) -> Self {
        LineFault::Word(fault)
    }
}

impl From<AllocError> for LineFault {
    ghost from_gives = { λ _ e. e ≡ NoMemory };

    fn from(_: AllocError) -> Self {
        LineFault::NoMemory
    }
}

impl From<NoMemory> for LineFault {
    ghost from_gives = { λ _ e. e ≡ NoMemory };

    fn from(_: NoMemory) -> Self {
        LineFault::NoMemory
    }
}

impl<T: Drop> From<AllocFailed<T>> for LineFault {
    ghost from_gives = { λ _ e. e ≡ NoMemory };

    fn from(_: AllocFailed<T>) -> Self {
        LineFault::NoMemory
    }
}

/// Where a script has a fault, and which.
#[derive(Clone, Copy, PartialEq, Eq)]
pub struct ScriptFault {
    /// The number of the line, from 1; one past the last where the script ends too early, and 0
    /// where it is too long.
    pub line: u32,
    /// The number of the word in its line, from 1; one past the last where a word is missing, and
    /// 0 where the fault is of the line.
    pub word: u32,
    /// The number of the cause.
    pub cause: u32,
}

/// Why there is no scene.
#[derive(Clone, Copy)]
pub enum ParseFault {
    /// The bytes are no scene: the first line that has a fault, and in it the leftmost wrong word.
    Script(ScriptFault),
    /// Out of memory.
    NoMemory,
}
