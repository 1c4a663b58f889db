//! The operations of a transaction in order, in which a later one takes the place of an earlier one
//! of its kind; many of them are found by an index.
ghost use Rattle.std.specs.Prelude.{◌≡◌, ◌+◌, ◌<◌, ◌≤◌, ◌++◌, [], IfOk, OnOk, IsTrue, IsFalse, length, replicate};
ghost use Rattle.sf_txn.specs.Places.{taken};
ghost use Rattle.sf_txn.specs.Transactions.{with_op, with_ops};

use crate::index::{Index, TAKEN, is_kept, places_of, put_all_first, put_last};
use crate::lists::put_op;
use sf_base::{LayerId, NoMemory};
use sf_layer::Op;
use std::alloc::Global;
use std::marker::Model;

/// How many operations a transaction has at most.
const MOST: usize = u32::MAX as usize;

/// Up to so many operations are few: to look through them costs less than an index.
const FEW: usize = 32;

/// The operations of a transaction. Many are found by an index, so that none has to be looked for
/// among all; one that is taken out then leaves its place empty.
pub(crate) struct Ops {
    alloc: Global,
    items: Vec<(LayerId, Op)>,
    /// Where each is, where they are many. Without it no place is empty.
    index: Option<Box<Index>>,
}

impl Model for Ops {
    ghost use Rattle.sf_txn.specs.Places.{IsListed, Listed, front_of, kept};
    ghost use Rattle.std.specs.Prelude.{◌-◌};
    ghost use Rattle.std.specs.Vec.{vec_capacity, vec_len};

    ghost Value = { Listed };

    ghost view = { λ o. record { list = kept o.items.items; room = vec_capacity o.items - vec_len o.items; front = front_of o.index } };

    ghost invariant = { λ o. IsListed o.items.items o.index };
}

/// A list of operations behind so many empty places.
fn behind_front(
    alloc: Global,
    ops: &[(LayerId, Op)],
    front: usize,
) -> Result<Vec<(LayerId, Op)>, NoMemory>
    ensures { IfOk result (λ items. items.items ≡ replicate front taken ++ ops.now) }
{
    let mut items = Vec::new(alloc);
    items.resize(front, TAKEN)?;
    items.extend_from_slice(ops)?;
    Ok(items)
}

impl Ops {
    /// No operations. It takes no memory.
    pub(crate) fn new(alloc: Global) -> Ops
        ensures { result.list ≡ [] }
    {
        Ops {
            alloc,
            items: Vec::new(alloc),
            index: None,
        }
    }

    /// The number of operations, or some more.
    pub(crate) fn len(&self) -> usize
        ensures { length self.now.list ≤ result }
    {
        self.items.len()
    }

    /// For how many operations there is room before all others.
    fn front(&self) -> usize
        ensures { result ≡ self.now.front }
    {
        match &self.index {
            Some(index) => index.front,
            None => 0,
        }
    }

    /// Whether an index is to be made before so many more operations come.
    fn wants_index(&self, more: usize) -> bool {
        match &self.index {
            Some(index) => {
                let others = self.items.len().saturating_sub(index.front);
                index.places.is_none() || index.gaps > others / 2
            }
            None => self.items.len().saturating_add(more) > FEW,
        }
    }

    /// Drops the empty places but so many in front, and finds anew where each operation is.
    fn index(&mut self, front: usize) -> Result<(), NoMemory>
        ensures list { self.new.list ≡ self.old.list }
        ensures front { OnOk result (self.new.front ≡ front) }
    {
        let items = behind_front(self.alloc, &self.copied()?, front)?;
        let places = places_of(self.alloc, &items)?;
        let index = Index {
            places: Some(places),
            gaps: 0,
            front,
        };
        self.index = Some(Box::new(self.alloc, index)?);
        self.items = items;
        Ok(())
    }

    /// Makes room for more operations. Where there would be too many, it finds no memory.
    pub(crate) fn make_room(&mut self, more: usize) -> Result<(), NoMemory>
        ensures list { self.new.list ≡ self.old.list }
        ensures room { OnOk result (more ≤ self.new.room) }
        ensures few { OnOk result (length self.old.list + more ≤ 4294967295) }
    {
        if more > MOST || self.items.len() > MOST - more {
            return Err(NoMemory);
        }
        if self.wants_index(more) {
            self.index(0)?;
        }
        self.items.reserve(more)?;
        Ok(())
    }

    /// Makes room for more operations before all others: for at least as many as there are.
    /// Where there would be too many, it finds no memory.
    fn make_front(&mut self, more: usize) -> Result<(), NoMemory>
        ensures list { self.new.list ≡ self.old.list }
        ensures front { OnOk result (more ≤ self.new.front) }
        ensures few { OnOk result (length self.old.list + more ≤ 4294967295) }
    {
        if more > MOST || self.items.len() > MOST - more {
            return Err(NoMemory);
        }
        let others = self.items.len();
        if self.front() < more {
            self.index(others.max(more))?;
        }
        Ok(())
    }

    /// Appends an operation for which there is room, and drops the one whose place it takes.
    pub(crate) fn put(&mut self, operation: (LayerId, Op))
        requires layer { 0 < operation.0.0 }
        requires room { 0 < self.old.room }
        ensures list { self.new.list ≡ with_op self.old.list operation }
        ensures room { self.old.room ≤ self.new.room + 1 }
    {
        match &mut self.index {
            Some(index) => put_last(&mut self.items, index.as_mut(), operation),
            None => put_op(&mut self.items, operation),
        }
    }

    /// Puts operations, for which there is room, one after another.
    fn put_all(&mut self, more: &Ops)
        requires { length more.now.list ≤ self.old.room }
        ensures { self.new.list ≡ with_ops self.old.list more.now.list }
    {
        let mut rest: &[(LayerId, Op)] = &more.items;
        while let [operation, after @ ..] = rest {
            if is_kept(operation) {
                self.put(*operation);
            }
            rest = after;
        }
    }

    /// Puts operations, for which there is room in front, before the others.
    fn put_before(&mut self, earlier: Ops)
        requires { length earlier.list ≤ self.old.front }
        ensures { self.new.list ≡ with_ops earlier.list self.old.list }
    {
        let Ops {
            alloc: _,
            items,
            index: _,
        } = earlier;
        match &mut self.index {
            Some(index) => put_all_first(&mut self.items, index.as_mut(), items),
            None => (),
        }
    }

    /// Makes room in one of two lists for the operations of the other, and returns whether it is
    /// before the later ones: the shorter list is to be put into the longer one.
    pub(crate) fn make_room_for(&mut self, later: &mut Ops) -> Result<bool, NoMemory>
        ensures list { self.new.list ≡ self.old.list }
        ensures later { later.new.list ≡ later.old.list }
        ensures room { IfOk result (λ before. (IsTrue before → length self.new.list ≤ later.new.front) × (IsFalse before → length later.new.list ≤ self.new.room)) }
        ensures few { OnOk result (length self.old.list + length later.old.list ≤ 4294967295) }
    {
        let earlier_len = self.len();
        let later_len = later.len();
        if earlier_len == 0 || later_len > FEW && earlier_len < later_len {
            later.make_front(earlier_len)?;
            return Ok(true);
        }
        self.make_room(later_len)?;
        Ok(false)
    }

    /// Sets later operations into these, for which there is room in one of the lists.
    pub(crate) fn merge(&mut self, later: Ops, before: bool)
        requires before { IsTrue before → length self.old.list ≤ later.front }
        requires after { IsFalse before → length later.list ≤ self.old.room }
        ensures { self.new.list ≡ with_ops self.old.list later.list }
    {
        if before {
            let earlier = std::mem::replace(self, later);
            self.put_before(earlier);
        } else {
            self.put_all(&later);
        }
    }

    /// A list of the operations, in order.
    pub(crate) fn copied(&self) -> Result<Vec<(LayerId, Op)>, NoMemory>
        ensures { IfOk result (λ ops. ops.items ≡ self.now.list) }
    {
        let mut ops = Vec::new(self.alloc);
        ops.extend_from_slice(&self.items)?;
        ops.retain(is_kept);
        Ok(ops)
    }

    /// The operations, in order. It takes no memory.
    pub(crate) fn into_vec(self) -> Vec<(LayerId, Op)>
        ensures { result.items ≡ self.list }
    {
        let Ops {
            alloc: _,
            mut items,
            index,
        } = self;
        if index.is_none() {
            return items;
        }
        items.retain(is_kept);
        items
    }
}

impl Drop for Ops {
    fn drop(self) {
        let Ops {
            alloc: _,
            items: _,
            index: _,
        } = self;
    }
}
