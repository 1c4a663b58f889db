//! A counter that adds numbers up to a total of 100000, as an object under a lock.
ghost use Rattle.std.specs.Prelude.{◌≡◌, [], reverse};
ghost use Rattle.test_threads.specs.inner.Counts.{Counts};

use sf_calls::{Entry, Object, Outcome};
use std::alloc::Global;
use std::marker::Model;

/// The greatest total.
const MOST: u64 = 100_000;

/// A total of at most 100000, and the calls that made it.
#[derive(Drop)]
pub struct Counter {
    total: u64,
    calls: Vec<Entry<u64, u64>>,
}

impl Model for Counter {
    ghost use Rattle.std.specs.Prelude.{ℕ, List, reverse};
    ghost use Rattle.sf_calls.specs.declared.object.Entry.{Entry};
    ghost use Rattle.test_threads.specs.inner.Counts.{IsCounted};

    ghost Value = { List (Entry ℕ ℕ) };

    ghost view = { λ c. reverse c.calls.items };

    ghost invariant = { λ c. IsCounted c.total (reverse c.calls.items) };
}

impl Counter {
    pub fn new(alloc: Global) -> Counter
        ensures { result ≡ [] }
    {
        Counter {
            total: 0,
            calls: Vec::new(alloc),
        }
    }

    pub fn total(&self) -> u64 {
        self.total
    }

    /// The calls that were done, the oldest first.
    pub fn calls(&self) -> &[Entry<u64, u64>]
        ensures { reverse result.now ≡ self.now }
    {
        &self.calls
    }
}

impl Object for Counter {
    type Call = u64;

    type Reply = u64;

    type PlainCall = u64;

    type PlainReply = u64;

    type Mark = ();

    ghost history = { λ c. c };

    ghost mark = { λ c. tt };

    ghost plain_call = { λ n. n };

    ghost plain_reply = { λ n. n };

    ghost call_fits = { λ m n. Unit {0} };

    ghost reply_fits = { λ m n. Unit {0} };

    ghost answers = { λ m log by call a. Counts log call a };

    fn legal(&self) {
        let _ = &self.total;
    }

    fn apply(&mut self, by: u32, call: u64) -> Outcome<u64, u64> {
        if call > MOST || self.total + call > MOST {
            return Outcome::NotYet(call);
        }
        let total = self.total + call;
        let entry = Entry {
            by,
            call,
            reply: total,
        };
        match self.calls.push(entry) {
            Ok(()) => {
                self.total = total;
                Outcome::Done(total)
            }
            Err(_) => Outcome::NoMemory(call),
        }
    }
}
