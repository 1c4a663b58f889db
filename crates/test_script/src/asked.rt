//! What the words of a command ask for, as text.
use crate::scripts::push_line;
use sf_app_options::{About, Intake, Options, OptionsFault, Run};
use sf_base::NoMemory;
use sf_script_words::next_line;
use std::alloc::Global;
use std::str;

/// The words of a line.
fn words_of(alloc: Global, line: &str) -> Result<Vec<String>, NoMemory> {
    let mut words = Vec::new(alloc);
    if !line.is_empty() {
        for word in line.split(' ') {
            let word = if word == "\"\"" { "" } else { word };
            words.push(String::from_str(alloc, word)?)?;
        }
    }
    Ok(words)
}

/// The options that words ask for.
fn push_options(told: &mut Vec<u8>, alloc: Global, options: Options) -> Result<(), NoMemory> {
    let run = match options.run {
        Run::Play => "play",
        Run::Live => "live",
        Run::Gen => "gen",
    };
    let (workers, number) = (options.workers, options.number);
    let summary = options.summary;
    let intake = match options.intake {
        Intake::Lock => "lock",
        Intake::Queue => "queue",
    };
    let line = format!(in alloc;
        "run {run} workers {workers} number {number} summary {summary} intake {intake}"
    )?;
    push_line(told, line.as_bytes())
}

/// What words ask for: something of the program itself, or a run, or nothing, since they are wrong.
fn push_asked(told: &mut Vec<u8>, alloc: Global, words: &[String]) -> Result<(), NoMemory> {
    match About::read(words) {
        Some(About::Help) => return push_line(told, b"help"),
        Some(About::Version) => return push_line(told, b"version"),
        None => {}
    }
    match Options::read(alloc, words) {
        Ok(options) => push_options(told, alloc, options),
        Err(OptionsFault::WrongWords) => push_line(told, b"wrong words"),
        Err(OptionsFault::NoMemory) => Err(NoMemory),
    }
}

/// What the words of each line ask for. A line that is no text has none.
pub fn push_all_asked(told: &mut Vec<u8>, alloc: Global, lines: &[u8]) -> Result<(), NoMemory> {
    let mut rest = lines;
    for _ in 0..lines.len() {
        let Some((line, after)) = next_line(rest) else {
            break;
        };
        let words = words_of(alloc, str::from_utf8(line).unwrap_or(""))?;
        push_asked(told, alloc, &words)?;
        rest = after;
    }
    Ok(())
}
