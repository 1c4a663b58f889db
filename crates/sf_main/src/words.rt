//! The words of the program.
ghost use Rattle.std.specs.Prelude.{◌≡◌, ◌↔◌};
ghost use Rattle.std.specs.IoError.{error_kind};
ghost use Rattle.std.specs.declared.io.ErrorKind.TheVariants.{OutOfMemory};

use crate::status::{NO_MEMORY, WRONG_WORDS};
use std::io::ErrorKind;
use std::{env, io};

/// The words behind the program's name.
pub fn words(rt: &HostRuntime) -> io::Result<Vec<String>> {
    let mut words = Vec::new(rt.alloc());
    for word in env::args(rt)?.skip(1) {
        words.push(word)?;
    }
    Ok(words)
}

/// The status where the words could not be read: out of memory is no wrong word.
pub fn status_without_words(error: &io::Error) -> u8
    ensures memory { result ≡ 5 ↔ error_kind error.now ≡ OutOfMemory }
    ensures wrong { result ≡ 1 ↔ (error_kind error.now ≡ OutOfMemory → ⊥) }
{
    if error.kind() == ErrorKind::OutOfMemory {
        NO_MEMORY
    } else {
        WRONG_WORDS
    }
}
