//! What a call of a run answered.
use sf_base::Seen;
use std::fmt;

#[derive(Clone, Copy)]
pub enum Answer {
    /// What has no number.
    Plain(&'static str),
    Value(u64),
    Risen(Seen),
    Opened(u32),
    /// Whether something holds.
    Is(bool),
    Found(u64),
    /// The turn is owed, with what it will leave, and the next one has this number and expects this.
    Issued(u64, u64, u64, u64),
    /// What was found in the buffer, and what was left there.
    Left(u64, u64),
    /// What was left in the buffer, and the number of the turn that expects it.
    LeftTo(u64, u64),
    /// It is not time for the call, and the number comes back.
    NotYet(u64),
    /// The least and the greatest of several counts.
    Between(usize, usize),
    /// How often something was missed, and what was seen in the end.
    Missed(usize, usize),
}

/// The timelines that have risen, each with its value.
fn show_risen<W: fmt::Write>(f: &mut fmt::Formatter<W>, seen: &Seen) -> fmt::Result {
    write!(f, "risen")?;
    for place in 0..64 {
        let value = seen.values[place];
        if value > 0 {
            write!(f, " {}={}", place + 1, value)?;
        }
    }
    Ok(())
}

impl fmt::Display for Answer {
    fn fmt<W: fmt::Write>(&self, f: &mut fmt::Formatter<W>) -> fmt::Result {
        match self {
            Answer::Plain(text) => write!(f, "{text}"),
            Answer::Value(value) => write!(f, "{value}"),
            Answer::Risen(seen) => show_risen(f, seen),
            Answer::Opened(buffer) => write!(f, "buffer {buffer}"),
            Answer::Is(holds) => write!(f, "{holds}"),
            Answer::Found(stamp) => write!(f, "found {stamp}"),
            Answer::Issued(number, leaves, heir, expects) => {
                write!(
                    f,
                    "turn {number} will leave {leaves}, turn {heir} expects {expects}"
                )
            }
            Answer::Left(found, left) => write!(f, "found {found}, left {left}"),
            Answer::LeftTo(left, heir) => write!(f, "left {left}, turn {heir} expects it"),
            Answer::NotYet(number) => write!(f, "not yet, {number} comes back"),
            Answer::Between(least, greatest) => write!(f, "{least} to {greatest}"),
            Answer::Missed(missed, seen) => write!(f, "{missed} missed, {seen} seen"),
        }
    }
}
