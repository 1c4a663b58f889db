//! What a line of pixels answers.
use crate::show;
use sf_base::{QStatus, Rect, Rgba, TimelineId};
use std::io;

/// The answer of a call.
#[derive(Drop)]
pub enum Answer {
    /// The line asks nothing.
    Done,
    Is(bool),
    Channel(u8),
    Pixel(Rgba),
    /// Pixels, four bytes each.
    Bytes(Vec<u8>),
    Rects(Vec<Rect>),
    /// The sums of red, green, blue and alpha over all pixels.
    Sums([u64; 4]),
    /// The first point of a fence that waits.
    Open(Option<(TimelineId, u64)>),
    /// The numbers of the statuses of a queue's calls.
    Statuses,
}

/// Prints the numbers of the statuses of a queue's calls, in their order.
fn statuses(rt: &impl Print) -> io::Result<()> {
    let all = [
        QStatus::Ok,
        QStatus::Stale,
        QStatus::NoBuffer,
        QStatus::PresentLater,
        QStatus::NoInit,
        QStatus::BadValue,
        QStatus::InvalidOperation,
        QStatus::WouldBlock,
        QStatus::NoSlot,
    ];
    for status in all {
        print!(rt; " {}", status.number())?;
    }
    println!(rt)
}

/// Prints a line that asks something, with its answer.
pub fn print(rt: &impl Print, line: &str, answer: &Answer) -> io::Result<()> {
    if matches!(answer, Answer::Done) {
        return Ok(());
    }
    print!(rt; "{line}:")?;
    match answer {
        Answer::Done => Ok(()),
        Answer::Is(is) => println!(rt; " {}", show::flag_name(*is)),
        Answer::Channel(channel) => println!(rt; " {channel}"),
        Answer::Pixel(c) => println!(rt; " {} {} {} {}", c.r, c.g, c.b, c.a),
        Answer::Bytes(bytes) => {
            println!(rt)?;
            show::pixels(rt, bytes)
        }
        Answer::Rects(rects) => show::rects(rt, rects),
        Answer::Sums([r, g, b, a]) => println!(rt; " {r} {g} {b} {a}"),
        Answer::Open(Some((timeline, value))) => println!(rt; " {}:{value}", timeline.0),
        Answer::Open(None) => println!(rt; " nothing"),
        Answer::Statuses => statuses(rt),
    }
}
