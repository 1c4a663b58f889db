//! Whose seat or pass a call is made through: one of two threads.

/// Whose seat or pass a call is made through.
#[derive(Clone, Copy)]
pub enum Seat {
    First,
    Second,
}

impl Seat {
    pub fn of(word: &str) -> Option<Seat> {
        match word {
            "first" => Some(Seat::First),
            "second" => Some(Seat::Second),
            _ => None,
        }
    }
}
