//! The compositor as a program: its words, a script on standard input, the records of its run on
//! standard output, a line on standard error where it failed, and the status of the run as its own.
#![tactic(auto)]

mod help;
mod status;
mod streams;
mod terminal;
mod words;

use status::told;
use std::process::ExitCode;
use streams::{answered, run_over_streams};
use words::{status_without_words, words};

fn main(rt: HostRuntime) -> ExitCode {
    let words = match words(&rt) {
        Ok(words) => words,
        Err(error) => return ExitCode::from(told(&rt, status_without_words(&error))),
    };
    ExitCode::from(match answered(&rt, &words) {
        Some(status) => status,
        None => told(&rt, run_over_streams(&rt, &rt, &words)),
    })
}
