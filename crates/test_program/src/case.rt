//! The runs that are made of each script: their words, and which reads and writes fail.
use std::{fs, io};

/// A run of a script: its words, and the numbers of the reads and of the writes that fail.
#[derive(Drop)]
pub struct Case {
    pub title: String,
    pub script: Vec<u8>,
    pub words: Vec<String>,
    pub failing_reads: Vec<u64>,
    pub failing_writes: Vec<u64>,
    /// It goes through a reader and a writer of std that are often interrupted.
    pub in_pieces: bool,
    /// Of its records only counts are printed.
    pub is_counted: bool,
}

/// The names of the scripts in this folder, sorted.
pub fn names(rt: &HostRuntime) -> io::Result<Vec<String>> {
    let mut names = Vec::new(rt.alloc());
    for entry in fs::read_dir(rt, ".")? {
        let entry = entry?;
        if let Some(name) = entry.file_name().strip_suffix(".sf") {
            names.push(String::from_str(rt.alloc(), name)?)?;
        }
    }
    names.sort()?;
    Ok(names)
}

fn wrong_data() -> io::Error {
    io::Error::from(io::ErrorKind::InvalidData)
}

fn has_beside(rt: &HostRuntime, name: &str, ending: &str) -> io::Result<bool> {
    let path = format!(in rt.alloc(); "{name}.{ending}")?;
    fs::exists(rt, path.as_str())
}

/// The text of the file that lies beside a script, empty where there is none.
fn text_beside(rt: &HostRuntime, name: &str, ending: &str) -> io::Result<String> {
    if has_beside(rt, name, ending)? {
        let path = format!(in rt.alloc(); "{name}.{ending}")?;
        fs::read_to_string(rt, path.as_str())
    } else {
        Ok(String::new(rt.alloc()))
    }
}

fn words(rt: &HostRuntime, name: &str) -> io::Result<Vec<String>> {
    let mut words = Vec::new(rt.alloc());
    for line in text_beside(rt, name, "words")?.lines() {
        words.push(String::from_str(rt.alloc(), line)?)?;
    }
    Ok(words)
}

/// Appends as many signs of a comment as are missing to the length that is given beside the script.
fn lengthen(rt: &HostRuntime, name: &str, script: &mut Vec<u8>) -> io::Result<()> {
    if let Ok(length) = text_beside(rt, name, "length")?.trim().parse::<u32>() {
        let missing = (length as usize).saturating_sub(script.len());
        script.append(&mut vec![in rt.alloc(); b'#'; missing]?)?;
    }
    Ok(())
}

/// Appends a line, in which a semicolon stands for the end of a line.
fn push_line(script: &mut Vec<u8>, line: &str) -> io::Result<()> {
    for byte in line.as_bytes() {
        script.push(if *byte == b';' { b'\n' } else { *byte })?;
    }
    Ok(())
}

/// The script of this name and a line behind it.
fn script(rt: &HostRuntime, name: &str, line: &str) -> io::Result<Vec<u8>> {
    let path = format!(in rt.alloc(); "{name}.sf")?;
    let mut script = fs::read(rt, path.as_str())?;
    push_line(&mut script, line)?;
    lengthen(rt, name, &mut script)?;
    Ok(script)
}

/// The number behind this word, if the line begins with it.
fn number_after(rt: &HostRuntime, line: &str, word: &str) -> io::Result<Vec<u64>> {
    let mut numbers = Vec::new(rt.alloc());
    if let Some((kind, number)) = line.split_once(' ') {
        if kind == word {
            match number.parse::<u64>() {
                Ok(number) => numbers.push(number)?,
                Err(_) => return Err(wrong_data()),
            }
        }
    }
    Ok(numbers)
}

/// The run of this script with a line behind it, or with a call that fails.
fn case_with(rt: &HostRuntime, name: &str, line: &str, failing: &str) -> io::Result<Case> {
    let title = if line.is_empty() && failing.is_empty() {
        String::from_str(rt.alloc(), name)?
    } else {
        format!(in rt.alloc(); "{name}: {line}{failing}")?
    };
    Ok(Case {
        title,
        script: script(rt, name, line)?,
        words: words(rt, name)?,
        failing_reads: number_after(rt, failing, "read")?,
        failing_writes: number_after(rt, failing, "write")?,
        in_pieces: has_beside(rt, name, "pieces")?,
        is_counted: has_beside(rt, name, "counts")?,
    })
}

/// The runs of the script of this name.
pub fn cases(rt: &HostRuntime, name: &str) -> io::Result<Vec<Case>> {
    let mut cases = Vec::new(rt.alloc());
    for line in text_beside(rt, name, "lines")?.lines() {
        cases.push(case_with(rt, name, line, "")?)?;
    }
    for failing in text_beside(rt, name, "fails")?.lines() {
        cases.push(case_with(rt, name, "", failing)?)?;
    }
    if cases.is_empty() {
        cases.push(case_with(rt, name, "", "")?)?;
    }
    Ok(cases)
}
