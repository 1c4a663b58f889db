//! What a call with turns, or a use of a token, answered.
use crate::reply::status_name;
use sf_base::{Items, QStatus, QueueId};
use std::io;

/// What came out of a line.
#[derive(Drop)]
pub enum Answer {
    /// The reply of the queue: its status and values, what token it gives, whether a drawing ends,
    /// and whether the permit comes back.
    Reply(QStatus, Items<u64>, &'static str, bool, bool),
    /// What there is to say where no call was answered.
    Plain(&'static str),
    /// The first pixel of a frame.
    Grey(u8),
    /// How many transactions a vsync committed, and the frame that it released last.
    Vsync(usize, Option<(QueueId, u64)>),
    /// The one picture that a compositor shows.
    Picture(u32),
}

/// Prints an answer.
pub fn print(rt: &impl Print, answer: &Answer) -> io::Result<()> {
    match answer {
        Answer::Reply(status, values, token, ends, spare) => {
            print!(rt; "{}", status_name(*status))?;
            for value in values.as_slice() {
                print!(rt; " {value}")?;
            }
            let ends = if *ends { ", a drawing ends" } else { "" };
            let spare = if *spare { ", permit back" } else { "" };
            println!(rt; "{token}{ends}{spare}")
        }
        Answer::Plain(text) => println!(rt; "{text}"),
        Answer::Grey(level) => println!(rt; "grey {level}"),
        Answer::Vsync(committed, None) => println!(rt; "{committed} committed"),
        Answer::Vsync(committed, Some((queue, frame))) => {
            println!(rt;
                "{committed} committed, queue {} frame {frame} released",
                queue.0
            )
        }
        Answer::Picture(number) => println!(rt; "given back, picture {number} alone"),
    }
}
