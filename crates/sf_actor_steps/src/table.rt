//! A table of what numbers hold, for names and for transactions.
ghost use Rattle.std.specs.Prelude.{◌≡◌, IfOk, None, Some, get_or, replicate, slice_set};
ghost use Rattle.std.specs.Option.{option_copied};

use sf_base::NoMemory;
use std::alloc::Global;
use std::marker::Model;

/// What each number holds, from 0 on. Contracts see the list of what they hold. A number beyond the
/// table holds nothing for good.
pub struct Table<T> {
    places: Vec<Option<T>>,
}

impl<T> Model for Table<T> {
    ghost use Rattle.std.specs.Prelude.{List, Option};

    ghost Value = { List (Option T) };

    ghost view = { λ t. t.places.items };
}

impl<T: Drop> Table<T> {
    ghost use Rattle.std.specs.Prelude.{◌≡◌, IfOk, None, Some, get_or, replicate, slice_set};
    ghost use Rattle.std.specs.Option.{option_copied};

    /// A table of so many numbers that hold nothing.
    pub fn new(alloc: Global, count: u32) -> Result<Table<T>, NoMemory>
        ensures { IfOk result (λ table. table ≡ replicate count None) }
    {
        let mut places = Vec::new(alloc);
        for _ in 0..count {
            places.push(None)?;
        }
        Ok(Table { places })
    }

    /// What a number holds.
    pub fn get(&self, number: u32) -> Option<&T>
        ensures { option_copied result ≡ get_or self.now number None }
    {
        match self.places.get(number as usize) {
            Some(held) => held.as_ref(),
            None => None,
        }
    }

    /// Takes what a number holds.
    pub fn take(&mut self, number: u32) -> Option<T>
        ensures value { result ≡ get_or self.old number None }
        ensures after { self.new ≡ slice_set self.old number None }
    {
        if (number as usize) < self.places.len() {
            self.places[number as usize].take()
        } else {
            None
        }
    }

    /// Lets a number hold this, instead of what it held.
    pub fn put(&mut self, number: u32, value: T)
        ensures { self.new ≡ slice_set self.old number (Some value) }
    {
        if (number as usize) < self.places.len() {
            self.places[number as usize] = Some(value);
        }
    }
}

impl<T: Drop> Drop for Table<T> {
    fn drop(self) {
        let Table { places: _ } = self;
    }
}
