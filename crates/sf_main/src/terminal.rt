//! What is written for a person at a terminal: records are binary and would spoil it, and a script
//! that is to be typed is waited for.
use sf_app_options::{Options, Run};
use std::io::IsTerminal;

/// Written instead of records that would go to a terminal.
pub const NO_RECORDS: &str = "sf_main: records are binary and are not written to a terminal; \
write them to a file (> RECORDS) or through a pipe, or ask for --help";

/// Written where a script is read from a terminal.
pub const WAITS: &str =
    "sf_main: waits for a script on standard input, from the terminal; Ctrl-D ends it";

/// Whether the words ask for records, and standard output is a terminal.
pub fn would_show_records(rt: &HostRuntime, words: &[String]) -> bool {
    rt.stdout().is_terminal() && Options::read(rt.alloc(), words).is_ok()
}

/// Whether the words ask for a script that is read, and standard input is a terminal.
pub fn would_wait_for_typing(rt: &HostRuntime, words: &[String]) -> bool {
    rt.stdin().is_terminal()
        && match Options::read(rt.alloc(), words) {
            Ok(options) => !matches!(options.run, Run::Gen),
            Err(_) => false,
        }
}
