//! The statuses that the program gives by itself, and the line on standard error for each.

/// The status where the words are wrong; a word that is no text is, and records for a terminal are.
pub const WRONG_WORDS: u8 = 1;

/// The status where what was to be written could not be.
pub const WRITE_FAILED: u8 = 4;

/// The status where memory runs out.
pub const NO_MEMORY: u8 = 5;

/// The line on standard error for a status other than 0.
fn message(status: u8) -> &'static str {
    match status {
        1 => {
            "usage: sf_main [--run play|live|gen] [--workers N] [--number N] [--summary] [--intake lock|queue]"
        }
        2 => "script fault",
        3 => "read failed",
        4 => "write failed",
        _ => "out of memory",
    }
}

/// The status, once its line was written on standard error, if it has one.
pub fn told(rt: &HostRuntime, status: u8) -> u8 {
    if status != 0 {
        let _ = eprintln!(rt; "{}", message(status));
    }
    status
}
