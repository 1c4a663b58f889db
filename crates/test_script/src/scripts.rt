//! What is printed of each part of a table, as text: of a script its first fault or none, and that
//! of its cuts; of words what they ask for.
use crate::asked::push_all_asked;
use sf_base::NoMemory;
use sf_script::{ParseFault, ScriptFault, parse};
use sf_script_generate::generate;
use sf_script_words::{next_line, next_word, number_within};
use std::alloc::Global;

/// One line more, with its byte 10.
pub fn push_line(text: &mut Vec<u8>, line: &[u8]) -> Result<(), NoMemory> {
    text.extend_from_slice(line)?;
    text.push(b'\n')?;
    Ok(())
}

/// A line as often as the number before it says.
fn push_lines(part: &mut Vec<u8>, counted: &[u8]) -> Result<(), NoMemory> {
    let Some((count, rest)) = next_word(counted) else {
        return Ok(());
    };
    let line = match rest {
        [_, line @ ..] => line,
        [] => rest,
    };
    for _ in 0..number_within(count, 0, 2_000_000).unwrap_or(0) {
        push_line(part, line)?;
    }
    Ok(())
}

/// The lines up to the next title, behind what the part has, and the table from there on.
fn push_body<'a>(part: &mut Vec<u8>, table: &'a [u8]) -> Result<&'a [u8], NoMemory> {
    let mut rest = table;
    for _ in 0..table.len() {
        let Some((line, after)) = next_line(rest) else {
            break;
        };
        match line {
            [b'=', ..] => return Ok(rest),
            [b'*', counted @ ..] => push_lines(part, counted)?,
            _ => push_line(part, line)?,
        }
        rest = after;
    }
    Ok(rest)
}

/// What a part begins with, by its title.
fn begun(alloc: Global, base: &[u8], title: &[u8]) -> Result<Vec<u8>, NoMemory> {
    let mut part = Vec::new(alloc);
    match title {
        [b'=', b'+', b' ', line @ ..] => {
            part.extend_from_slice(base)?;
            push_line(&mut part, line)?;
        }
        [b'=', b'#', b' ', number @ ..] => {
            part = generate(alloc, number_within(number, 0, u64::MAX).unwrap_or(0))?;
        }
        _ => {}
    }
    Ok(part)
}

/// The first fault of a script.
fn fault_of(alloc: Global, script: &[u8]) -> Result<Option<ScriptFault>, NoMemory> {
    match parse(alloc, script) {
        Ok(scene) => {
            drop(scene);
            Ok(None)
        }
        Err(ParseFault::Script(fault)) => Ok(Some(fault)),
        Err(ParseFault::NoMemory) => Err(NoMemory),
    }
}

/// What is said of a script, behind its title.
fn push_fault(
    told: &mut Vec<u8>,
    alloc: Global,
    title: &[u8],
    fault: Option<ScriptFault>,
) -> Result<(), NoMemory> {
    told.extend_from_slice(title)?;
    match fault {
        Some(ScriptFault { line, word, cause }) => {
            let fault = format!(in alloc; ": {line} {word} {cause}")?;
            push_line(told, fault.as_bytes())
        }
        None => push_line(told, b": scene"),
    }
}

/// What is said of the cuts of a script, with a line for each that differs from the one before.
fn push_cuts(told: &mut Vec<u8>, alloc: Global, script: &[u8]) -> Result<(), NoMemory> {
    let mut last = None;
    for length in 0..script.len() {
        let fault = fault_of(alloc, &script[..length])?;
        if last != Some(fault) {
            let title = format!(in alloc; "cut after {length}")?;
            push_fault(told, alloc, title.as_bytes(), fault)?;
            last = Some(fault);
        }
    }
    Ok(())
}

/// What is printed of a part, by its title.
fn push_part(told: &mut Vec<u8>, alloc: Global, title: &[u8], part: &[u8]) -> Result<(), NoMemory> {
    if let [b'=', b'?', ..] = title {
        return push_all_asked(told, alloc, part);
    }
    push_fault(told, alloc, title, fault_of(alloc, part)?)?;
    match title {
        [b'=', b'<', ..] => push_cuts(told, alloc, part),
        [b'=', b'#', ..] => Ok(told.extend_from_slice(part)?),
        _ => Ok(()),
    }
}

/// What is printed of each part of a table.
pub fn told(alloc: Global, table: &[u8]) -> Result<Vec<u8>, NoMemory> {
    let mut told = Vec::new(alloc);
    let mut base = Vec::new(alloc);
    let mut rest = table;
    for _ in 0..table.len() {
        let Some((title, after)) = next_line(rest) else {
            break;
        };
        let mut part = begun(alloc, &base, title)?;
        rest = push_body(&mut part, after)?;
        push_part(&mut told, alloc, title, &part)?;
        if let [b'=', b'=', ..] = title {
            base = part;
        }
    }
    Ok(told)
}
