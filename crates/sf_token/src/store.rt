//! The pending transactions themselves, found by their numbers.
ghost use Rattle.std.specs.Prelude.{◌≡◌, ◌<◌, [], ◌∷◌, ◌++◌, IfOk, IfErr, OnOk, OnErr, find, option_copied};
ghost use Rattle.std.specs.List.{AllByRecursion, AllZip};
ghost use Rattle.sf_txn.specs.Leases.{IsEyeAfter, IsShownTo};
ghost use Rattle.sf_txn.specs.Transactions.{without_first};
ghost use Rattle.sf_token.specs.Loads.{AllLeases, IsLookedArrival, looks_of};
ghost use Rattle.sf_token.specs.Pending.{has_number};

use crate::arrived::Arrived;
use crate::looking::{look_each, rooms_for};
use crate::looks::Looks;
use sf_base::NoMemory;
use sf_txn::Lease;
use slab::Slab;
use std::alloc::Global;
use std::collections::BTreeMap;
use std::marker::Model;

// Pending transactions by number. Contracts see them in the order of arrival, which is that of
// their numbers.
pub struct Store<L: Lease> {
    alloc: Global,
    slots: Slab<Arrived<L>>,
    // The key of each number.
    keys: BTreeMap<u32, usize>,
}

impl<L: Lease> Model for Store<L> {
    ghost use Rattle.std.specs.Prelude.{List};
    ghost use Rattle.std.specs.BTreeMap.{IsOrdered, values};
    ghost use Rattle.std.specs.Ordering.{nat_cmp};
    ghost use Rattle.slab.specs.Slab.{get};
    ghost use Rattle.sf_token.specs.Pending.{Arrival};
    ghost use Rattle.sf_token.specs.Slots.{AreFiled, picked};

    ghost Value = { List (Arrival L) };

    ghost view = { λ s. picked (get s.slots) (values s.keys) };

    ghost invariant = { λ s. AreFiled (get s.slots) s.keys.entries × IsOrdered nat_cmp s.keys };
}

impl<L: Lease + Drop> Store<L> {
    pub fn new(alloc: Global) -> Store<L>
        ensures { result ≡ [] }
    {
        Store {
            alloc,
            slots: Slab::new(alloc),
            keys: BTreeMap::new(alloc),
        }
    }

    /// The transaction of a number.
    pub fn get(&self, number: u32) -> Option<&Arrived<L>>
        ensures { option_copied result ≡ find (has_number number) self.now }
    {
        match self.keys.get(&number) {
            Some(key) => self.slots.get(*key),
            None => None,
        }
    }

    /// A transaction comes, of a number above all others. Out of memory changes nothing.
    pub fn push(&mut self, arrived: Arrived<L>) -> Result<(), (NoMemory, Arrived<L>)>
        requires { AllByRecursion (λ earlier. earlier.number < arrived.number) self.old }
        ensures ok { OnOk result (self.new ≡ self.old ++ arrived ∷ []) }
        ensures err { OnErr result (self.new ≡ self.old) }
        ensures back { IfErr result (λ refused. refused.1 ≡ arrived) }
    {
        if self.slots.reserve(1).is_err() {
            return Err((NoMemory, arrived));
        }
        let key = self.slots.vacant_key();
        if self.keys.insert(arrived.number, key).is_err() {
            return Err((NoMemory, arrived));
        }
        self.slots.insert_reserved(arrived);
        Ok(())
    }

    /// The transaction of a number goes.
    pub fn remove(&mut self, number: u32) -> Option<Arrived<L>>
        ensures gone { result ≡ find (has_number number) self.old }
        ensures left { self.new ≡ without_first (has_number number) self.old }
    {
        match self.keys.remove(&number) {
            Some(key) => self.slots.try_remove(key),
            None => None,
        }
    }

    /// Looks once at each buffer of each transaction, in order, after its memory is taken.
    pub fn look(&mut self, eye: &mut L::Eye) -> Result<Vec<Looks>, NoMemory>
        requires fits { AllLeases (L.fits (L.mark eye.old)) self.old }
        ensures looked { OnOk result (AllZip (IsLookedArrival L.Lease) self.old self.new) }
        ensures told { OnOk result (AllLeases (IsShownTo L.Lease eye.old eye.new) self.new) }
        ensures looks { IfOk result (λ looks. looks.items ≡ looks_of L.Lease self.new) }
        ensures eye { IsEyeAfter L.Lease eye.old eye.new [] }
        ensures err { OnErr result (self.new ≡ self.old) }
        ensures unmoved { OnErr result (eye.new ≡ eye.old) }
    {
        let rooms = rooms_for(self.alloc, &self.slots, &self.keys)?;
        let mut looks = Vec::with_capacity(self.alloc, rooms.len())?;
        look_each(&mut self.slots, eye, rooms, &mut looks);
        Ok(looks)
    }
}

impl<L: Lease + Drop> Drop for Store<L> {
    fn drop(self) {
        let Store {
            alloc: _,
            slots: _,
            keys: _,
        } = self;
    }
}
