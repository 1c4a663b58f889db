//! A sink that takes the records of a play and keeps only their sums: `--summary` writes to it.
ghost use Rattle.std.specs.Prelude.{◌≡◌, ◌≤◌, ◌++◌, [], All, List, ℕ, Option, Some, IfOk, IsOk, length};
ghost use Rattle.std.specs.Io.{WritesAtMost};
ghost use Rattle.std.specs.Io.KnownBytes.{WriteAppends};
ghost use Rattle.sf_io.specs.Causes.{HasCause};
ghost use Rattle.sf_record.specs.declared.record.Record.{Record as RecordValue};
ghost use Rattle.sf_record.specs.Fitting.{RecordFits};
ghost use Rattle.sf_record.specs.Records.{bytes_of};
ghost use Rattle.sf_record_sums.specs.Summaries.{summary_of, wrapped};

use crate::past::{Past, Piece};
use crate::progress::{Progress, advanced, at_start};
use sf_io::{Failed, Sink};
use sf_record::Summary;
use std::marker::Model;

/// A sink that keeps of the records that are written to it only what they come to. It takes each piece
/// whole and never fails. Contracts see the bytes that it took.
#[derive(Drop)]
pub struct Tally {
    progress: Progress,
    past: Past,
}

impl Model for Tally {
    ghost use Rattle.std.specs.Prelude.{◌≡◌, List, ℕ};
    ghost use Rattle.sf_record_sums.specs.Steps.{after, start};
    ghost use Rattle.sf_record_sums.specs.Summaries.{nothing};

    ghost Value = { List ℕ };

    ghost view = { λ t. t.past.bytes };

    ghost invariant = { λ t. t.progress ≡ after (start nothing) t.past.bytes };
}

impl Tally {
    /// A sink that took nothing yet.
    pub fn new() -> Tally
        ensures { result ≡ [] }
    {
        let summary = Summary {
            replies: 0,
            vsyncs: 0,
            commits: 0,
            rejected: 0,
            frames: 0,
            pixel_sum: 0,
            held: 0,
            stuck: 0,
        };
        Tally {
            progress: at_start(summary),
            past: Past::new(),
        }
    }

    /// What the records come to whose bytes were taken, where these are the bytes of whole records.
    /// Each number counts modulo 2^64.
    pub fn summary(&self) -> Summary
        ensures { (records : List RecordValue) → All RecordFits records → self.now ≡ bytes_of records → result ≡ wrapped (summary_of records) }
    {
        self.progress.summary
    }
}

impl Sink for Tally {
    ghost taken = { λ t. Some t };

    ghost faults = { λ _. 0 };

    fn write(&mut self, piece: &[u8]) -> Result<usize, Failed>
        ensures bound { WritesAtMost result piece.now }
        ensures some { IfOk result (λ n. n ≡ 0 → length piece.now ≡ 0) }
        ensures bytes { WriteAppends (Some self.old) (Some self.new) result piece.now }
        ensures cause { HasCause 0 0 result }
        ensures whole { IsOk result }
        ensures all { IfOk result (λ n. n ≡ length piece.now) }
    {
        self.progress = advanced(self.progress, piece);
        self.past = self.past.with(&Piece { bytes: piece });
        Ok(piece.len())
    }
}
