//! What the body of each kind of record has.

/// How many bytes a number of a record has.
pub type Width = usize;

/// What follows the numbers at a record's head.
#[derive(Clone, Copy)]
pub enum Tail {
    Nothing,
    /// A counted list of numbers.
    Values,
    /// A counted list of timelines, each with its value.
    Timelines,
    /// A counted list of entries, each of these numbers.
    Entries(&'static [Width]),
    /// Pixels to the record's end.
    Pixels,
}

/// The numbers at the head of a record's body, and what follows them.
#[derive(Clone, Copy)]
pub struct Layout {
    pub head: &'static [Width],
    pub tail: Tail,
}

fn described(head: &'static [Width], tail: Tail) -> Option<Layout> {
    Some(Layout { head, tail })
}

/// The tags of the records of a run that is no summary, in the order of their first records.
pub const TAGS: [&str; 14] = [
    "SCEN", "REPL", "VSYN", "COMM", "FRAM", "FRAD", "CAPT", "HITS", "ARRV", "HIST", "HOLD", "STUK",
    "DONE", "SFLT",
];

/// The layout of the records with this tag.
pub fn layout_of(tag: &str) -> Option<Layout> {
    match tag {
        "SCEN" => described(&[4, 4, 4, 8], Tail::Nothing),
        "REPL" => described(&[4, 4, 4], Tail::Values),
        "VSYN" => described(&[4, 8], Tail::Timelines),
        "COMM" => described(&[4, 4, 4, 4], Tail::Entries(&[4, 4, 8, 4, 4, 4, 4, 4])),
        "FRAM" => described(&[4], Tail::Pixels),
        "FRAD" | "CAPT" => described(&[4, 4], Tail::Pixels),
        "HITS" => described(&[4, 4, 4], Tail::Nothing),
        "ARRV" => described(&[], Tail::Entries(&[4, 4, 4])),
        "HIST" => described(&[4], Tail::Entries(&[4, 4, 4, 4, 4, 8])),
        "HOLD" => described(&[], Tail::Entries(&[4, 4, 8, 8])),
        "STUK" => described(&[], Tail::Entries(&[4, 4])),
        "DONE" => described(&[], Tail::Nothing),
        "SUMM" => described(&[8, 8, 8, 8, 8, 8, 8, 8], Tail::Nothing),
        "SFLT" => described(&[4, 4, 4], Tail::Nothing),
        _ => None,
    }
}
