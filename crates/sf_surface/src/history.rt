//! The calls that were made on a queue, kept in order: contracts speak of them, and the record HIST
//! shows them.
ghost use Rattle.std.specs.Prelude.{◌≡◌, [], ◌∷◌, ◌++◌, ◌<◌, OnOk, vec_capacity, vec_len};
ghost use Rattle.sf_calls.specs.Histories.{entry};
ghost use Rattle.sf_surface.specs.Kept.{HasRoom, calls_in};
ghost use Rattle.sf_surface.specs.Named.{shown_with};

use crate::call::{QCall, QReply};
use crate::entry::{HistEntry, Named};
use crate::shown::shown;
use sf_base::NoMemory;
use sf_turns::TableName;
use std::alloc::Global;
use std::snapshot::Snapshot;

/// A call that was made, for proofs alone: what it brought and gave takes no room.
pub(crate) struct MadeCall<B: TableName> {
    pub(crate) by: u32,
    pub(crate) step: u32,
    pub(crate) call: Snapshot<QCall<B>>,
    pub(crate) reply: Snapshot<QReply<B>>,
}

/// The calls that were made on a queue, in the order in which they were made.
pub(crate) struct History<B: TableName> {
    // As records show them.
    pub(crate) shown: Vec<HistEntry>,
    // The same calls with their tokens, for proofs alone.
    pub(crate) made: Vec<MadeCall<B>>,
}

/// Puts a value last into a list that has room for it.
fn put<T: Drop>(list: &mut Vec<T>, value: T)
    requires { vec_len list.old < vec_capacity list.old }
    ensures { list.new.items ≡ list.old.items ++ value ∷ [] }
{
    let _ = list.push(value);
}

impl<B: TableName> History<B> {
    /// No calls.
    pub(crate) fn new(alloc: Global) -> History<B>
        ensures shown { result.shown.items ≡ [] }
        ensures calls { calls_in result ≡ [] }
    {
        History {
            shown: Vec::new(alloc),
            made: Vec::new(alloc),
        }
    }

    /// Makes room for one more call.
    pub(crate) fn reserve(&mut self) -> Result<(), NoMemory>
        ensures shown { self.new.shown.items ≡ self.old.shown.items }
        ensures calls { calls_in self.new ≡ calls_in self.old }
        ensures room { OnOk result (HasRoom self.new) }
    {
        self.shown.reserve(1)?;
        self.made.reserve(1)?;
        Ok(())
    }

    /// Keeps a caller's call with its reply, where there is room.
    pub(crate) fn put(
        &mut self,
        by: u32,
        step: u32,
        named: Named,
        call: Snapshot<QCall<B>>,
        reply: &QReply<B>,
    )
        requires { HasRoom self.old }
        ensures shown { self.new.shown.items ≡ self.old.shown.items ++ shown_with by step named reply.now ∷ [] }
        ensures calls { calls_in self.new ≡ entry by (step, call.value) reply.now ∷ calls_in self.old }
    {
        put(&mut self.shown, shown(by, step, named, reply));
        put(
            &mut self.made,
            MadeCall {
                by,
                step,
                call,
                reply: Snapshot::of(reply),
            },
        );
    }
}

impl<B: TableName> Drop for History<B> {
    fn drop(self) {
        let History { shown: _, made: _ } = self;
    }
}

impl<B: TableName> Drop for MadeCall<B> {
    fn drop(self) {
        let MadeCall {
            by: _,
            step: _,
            call: _,
            reply: _,
        } = self;
    }
}
