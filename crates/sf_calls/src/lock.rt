//! The lock itself, with the object that lies under it: opened with a first pass, closed when all
//! passes are back.
ghost use Rattle.std.specs.Prelude.{◌≡◌, ℕ, List, [], ◌∷◌, true, Some, IsOk, IfOk, IfErr, Contains};
ghost use Rattle.sf_calls.specs.declared.object.Entry.{Entry};
ghost use Rattle.sf_calls.specs.Histories.{IsLegal, Begins, GoesOnWithout, calls_by};
ghost use Rattle.sf_calls.specs.Passes.{first_pass, HasMark, TookAll};

use crate::object::Object;
use crate::pass::Pass;
use crate::protocol::{Knows, LockRule};
use atomic_table::Table;
use sf_base::NoMemory;
use std::alloc::Global;
use std::marker::Model;
use std::snapshot::Snapshot;
use std::sync::Mutex;

/// An object that threads call under a lock, each with a `Pass`. Callers wait for the mutex; that
/// only one of them has the object is the rule of the table. Contracts see which table it lies in.
pub struct CallLock<O: Object> {
    pub(crate) table: Table<
        Option<O>,
        Knows<O::PlainCall, O::PlainReply, O::Mark>,
        (Snapshot<O>, u32),
        LockRule<O>,
        Global,
    >,
    pub(crate) mutex: Mutex<()>,
}

impl<O: Object> Model for CallLock<O> {
    ghost use Rattle.std.specs.Prelude.{◌≡◌};
    ghost use Rattle.atomic_table.specs.Seated.{TableId, table_id_coded};

    ghost Value = { TableId };

    ghost coded = { table_id_coded };

    ghost view = { λ l. l.table.shared.table_id };

    ghost invariant = { λ l. (l.table.shared.table_id.words ≡ 3) × (l.table.shared.table_id.slots ≡ 1) };
}

impl<O: Object> CallLock<O> {
    /// The object under a lock, and the first pass, for the caller `by`, which knows the object's
    /// history. Out of memory hands the object back.
    pub fn open(alloc: Global, object: O, by: u32) -> Result<(CallLock<O>, Pass<O>), (NoMemory, O)>
        ensures ok { IfOk result (λ opened. opened.1 ≡ first_pass opened.0 by (O.mark object) (O.history object)) }
        ensures err { IfErr result (λ refused. refused.1 ≡ object) }
    {
        object.legal();
        let about = (Snapshot::of(&object), by);
        let mut slots = Vec::new(alloc);
        if let Err(failed) = slots.push(Some(object)) {
            slots.destroy_empty();
            return Err((NoMemory, held(failed.value)));
        }
        match Table::new(alloc, &[0; 3], slots, &about) {
            Ok((table, seat)) => Ok((
                CallLock {
                    table,
                    mutex: Mutex::new(()),
                },
                Pass { seat, by },
            )),
            Err(refused) => Err((NoMemory, first_held(refused.slots))),
        }
    }

    /// The object out of the lock, by the first pass once it took in every pass that it gave.
    /// Its history is what that pass knows. `Err` is out of memory and hands both back; this
    /// lock needs none here, so it never comes.
    pub fn close(self, last: Pass<O>) -> Result<O, (NoMemory, CallLock<O>, Pass<O>)>
        requires own { last.table ≡ self }
        requires first { last.is_first ≡ true }
        requires took_all { TookAll last.gave last.took }
        ensures ok { IsOk result }
        ensures history { IfOk result (λ object. O.history object ≡ last.seen) }
        ensures mark { IfOk result (λ object. HasMark last (O.mark object)) }
        ensures legal { IfOk result (λ object. IsLegal (O.answers (O.mark object)) (O.history object)) }

        // The history began as each pass that was taken in knew it, and has no further calls of that
        // pass; and since `open` it has none of a caller that is neither the first nor one that it
        // gave a pass to.
        ensures taken { IfOk result (λ object. (p : ℕ × List (Entry O.PlainCall O.PlainReply))
            → Contains last.took p → GoesOnWithout p.0 p.1 (O.history object)) }
        ensures since { IfOk result (λ object. Begins last.start (O.history object)) }
        ensures callers { IfOk result (λ object. (b : ℕ) → (Contains (last.by ∷ last.gave) b → ⊥)
            → calls_by b (O.history object) ≡ calls_by b last.start) }
    {
        let CallLock { table, mutex: _ } = self;
        let Pass { seat, by: _ } = last;
        let mut closed = table.close_with(seat);
        let slot = closed.take(0);
        closed.free();
        Ok(held(slot))
    }
}

/// What the slot holds, where it is not empty.
pub(crate) fn held<O>(slot: Option<O>) -> O
    requires { (o : O) × (slot ≡ Some o) }
    ensures { slot ≡ Some result }
{
    match slot {
        Some(o) => o,
        None => unreachable!(),
    }
}

/// The object of the only slot, handed back where no table could be made.
fn first_held<O>(slots: Vec<Option<O>, Global>) -> O
    requires { (o : O) × (slots.items ≡ Some o ∷ []) }
    ensures { slots.items ≡ Some result ∷ [] }
{
    let mut slots = slots;
    let slot = match slots.pop() {
        Some(slot) => slot,
        None => unreachable!(),
    };
    slots.destroy_empty();
    held(slot)
}

impl<O: Object + Drop> Drop for CallLock<O> {
    fn drop(self) {
        let CallLock { table: _, mutex: _ } = self;
    }
}
