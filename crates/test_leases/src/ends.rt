//! The ends of reads, noted in the order in which the reads ended.
ghost use Rattle.std.specs.Prelude.{◌≡◌, ◌++◌, ◌∷◌, [], IfSome, IsNone};

use std::marker::Model;

/// The ends that reads made, from the last one on: each a page's number and a turn.
#[derive(Drop)]
#[cycle(ends)]
pub struct Ends {
    last: Option<((u32, u64), Box<Ends>)>,
}

impl Model for Ends {
    ghost use Rattle.std.specs.Prelude.{ℕ, List, [], ◌∷◌, ◌++◌, length, unwrap_or, option_map};

    ghost Value = { List (ℕ × ℕ) };

    ghost view = { λ s. unwrap_or (option_map (λ last. last.1.value ++ last.0 ∷ []) s.last) [] };

    ghost size = { length };
}

impl Ends {
    /// No read has ended.
    pub fn new() -> Ends
        ensures { result ≡ [] }
    {
        Ends { last: None }
    }

    /// The read of this turn of a page ends. Its place is the cell, so it takes no memory.
    pub fn add(&mut self, end: (u32, u64), mut cell: Box<Ends>)
        ensures { self.new ≡ self.old ++ end ∷ [] }
    {
        *cell = std::mem::replace(self, Ends::new());
        self.last = Some((end, cell));
    }

    /// Takes the last end out, if there is one.
    pub fn take_last(&mut self) -> Option<(u32, u64)>
        ensures last { IfSome result (λ end. self.old ≡ self.new ++ end ∷ []) }
        ensures none { IsNone result → self.new ≡ [] }
    {
        let (end, cell) = self.last.take()?;
        *self = Box::into_inner(cell);
        Some(end)
    }
}
