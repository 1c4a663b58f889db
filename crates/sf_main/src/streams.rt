//! What the words ask for, over the standard streams.
use crate::help::text_about;
use crate::status::{NO_MEMORY, WRITE_FAILED, WRONG_WORDS, told};
use crate::terminal::{NO_RECORDS, WAITS, would_show_records, would_wait_for_typing};
use sf_app::run;
use sf_io::{OpenGate, ReadSource, WriteSink};
use std::io::{self, BufWriter};
use std::sync::Wait;
use std::thread::Threads;

/// Writes a text about the program.
fn write_text(rt: &HostRuntime, text: &str) -> u8 {
    match println!(rt; "{}", text) {
        Ok(()) => 0,
        Err(_) => WRITE_FAILED,
    }
}

/// Answers words that ask for no run, with the status: those that ask about the program, and those that
/// ask for records on a terminal. It says first where a script is read from a terminal.
pub fn answered(rt: &HostRuntime, words: &[String]) -> Option<u8> {
    if let Some(text) = text_about(words) {
        return Some(told(rt, write_text(rt, text)));
    }
    if would_show_records(rt, words) {
        let _ = eprintln!(rt; "{}", NO_RECORDS);
        return Some(WRONG_WORDS);
    }
    if would_wait_for_typing(rt, words) {
        let _ = eprintln!(rt; "{}", WAITS);
    }
    None
}

/// A run from standard input to standard output, which is written through a buffer. A flush that fails
/// at the end is a write that failed. Threads are started through the second handle, which is the
/// runtime's own in `main`.
pub fn run_over_streams<R: Threads + Wait + Sync>(
    rt: &HostRuntime,
    threads: &R,
    words: &[String],
) -> u8 {
    let Ok(output) = BufWriter::new(rt.alloc(), io::writer(rt)) else {
        return NO_MEMORY;
    };
    let mut source = ReadSource::new(rt.reader());
    let mut sink = WriteSink::new(output);
    let status = run(
        threads,
        rt.alloc(),
        words,
        &mut source,
        &mut sink,
        &OpenGate,
    );
    match sink.flush() {
        Ok(()) => status,
        Err(_) => WRITE_FAILED,
    }
}
