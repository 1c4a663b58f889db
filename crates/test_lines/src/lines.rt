//! Records as lines of text.
use crate::body::Body;
use crate::layout::{Layout, TAGS, Tail, Width, layout_of};
use crate::records::Records;
use std::io;

impl Body<'_> {
    fn push_numbers(&mut self, line: &mut String, widths: &[Width]) -> io::Result<()> {
        for width in widths {
            let number = self.number(*width)?;
            write!(line, " {number}")?;
        }
        Ok(())
    }

    fn push_values(&mut self, line: &mut String) -> io::Result<()> {
        for _ in 0..self.number(4)? {
            self.push_numbers(line, &[8])?;
        }
        Ok(())
    }

    fn push_timelines(&mut self, line: &mut String) -> io::Result<()> {
        for _ in 0..self.number(4)? {
            let timeline = self.number(4)?;
            let value = self.number(8)?;
            write!(line, " {timeline}={value}")?;
        }
        Ok(())
    }

    fn push_entries(&mut self, line: &mut String, widths: &[Width]) -> io::Result<()> {
        for _ in 0..self.number(4)? {
            line.push_str(" |")?;
            self.push_numbers(line, widths)?;
        }
        Ok(())
    }

    fn push_tail(&mut self, line: &mut String, tail: Tail) -> io::Result<()> {
        match tail {
            Tail::Nothing => Ok(()),
            Tail::Values => self.push_values(line),
            Tail::Timelines => self.push_timelines(line),
            Tail::Entries(widths) => self.push_entries(line, widths),
            Tail::Pixels => push_pixels(line, self.rest),
        }
    }
}

fn push_hex(line: &mut String, bytes: &[u8]) -> io::Result<()> {
    for byte in bytes {
        write!(line, "{byte:02x}")?;
    }
    Ok(())
}

/// Appends so many equal pixels as their count and one of them.
fn push_run(line: &mut String, count: u64, pixel: &[u8]) -> io::Result<()> {
    if count > 0 {
        write!(line, " {count}*")?;
        push_hex(line, pixel)?;
    }
    Ok(())
}

/// Runs of equal pixels, all rows as one.
fn push_pixels(line: &mut String, pixels: &[u8]) -> io::Result<()> {
    let mut last: &[u8] = &[];
    let mut count = 0u64;
    for pixel in pixels.chunks(4) {
        if pixel != last {
            push_run(line, count, last)?;
            last = pixel;
            count = 0;
        }
        count = count.wrapping_add(1);
    }
    push_run(line, count, last)
}

fn push_record(text: &mut String, tag: &str, layout: Layout, body: &[u8]) -> io::Result<()> {
    text.push_str(tag)?;
    let mut body = Body { rest: body };
    body.push_numbers(text, layout.head)?;
    body.push_tail(text, layout.tail)?;
    text.push_str("\n")?;
    Ok(())
}

/// Appends the line of a last record that was cut off.
fn push_cut(text: &mut String, bytes: &[u8]) -> io::Result<()> {
    text.push_str("CUT ")?;
    push_hex(text, bytes)?;
    text.push_str("\n")?;
    Ok(())
}

/// How many records with this tag there are.
fn count(bytes: &[u8], tag: &str) -> u64 {
    let mut count = 0u64;
    for (first, _) in (Records { rest: bytes }) {
        if first == tag {
            count = count.wrapping_add(1);
        }
    }
    count
}

/// How many bytes of a record with this tag stand before the pixels of a frame, if it has one.
fn bytes_before_frame(tag: &str) -> Option<usize> {
    match tag {
        "FRAM" => Some(4),
        "FRAD" => Some(8),
        _ => None,
    }
}

/// The sum of the bytes of all frames' pixels.
fn pixel_sum(bytes: &[u8]) -> u64 {
    let mut sum = 0u64;
    for (tag, body) in (Records { rest: bytes }) {
        if let Some(before) = bytes_before_frame(tag) {
            for byte in body.iter().skip(before) {
                sum = sum.wrapping_add(u64::from(*byte));
            }
        }
    }
    sum
}

/// Appends the records as lines: the tag and the numbers of each; behind a bar each entry of a list;
/// of a timeline its value behind `=`; of an image's pixels the runs of equal ones, as `2*ff0000ff`.
/// What is left of a cut record is `CUT` and its bytes.
pub fn push_records(text: &mut String, bytes: &[u8]) -> io::Result<()> {
    let mut rest = bytes;
    let mut records = Records { rest: bytes };
    for _ in 0..bytes.len() {
        let Some((tag, body)) = records.next() else {
            break;
        };
        let Some(layout) = layout_of(tag) else {
            break;
        };
        push_record(text, tag, layout, body)?;
        rest = records.rest;
    }
    if rest.is_empty() {
        Ok(())
    } else {
        push_cut(text, rest)
    }
}

/// Appends how many records of each kind there are, and the sum of the bytes of all frames' pixels.
pub fn push_counts(text: &mut String, bytes: &[u8]) -> io::Result<()> {
    for tag in TAGS {
        let count = count(bytes, tag);
        if count > 0 {
            writeln!(text, "{count} {tag}")?;
        }
    }
    let sum = pixel_sum(bytes);
    writeln!(text, "pixels {sum}")?;
    Ok(())
}
