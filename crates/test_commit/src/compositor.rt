//! The compositor of a case, with what arrived for it and the pixels that it lent.
ghost use Rattle.std.specs.Prelude.{◌≡◌, false};
ghost use Rattle.sf_commit.specs.Handlers.{last_of};
ghost use Rattle.sf_token.specs.Pending.{IsRisingFrom};

use sf_base::Seen;
use sf_commit::{Contents, Handler, Vsync};
use sf_picture::Painted;
use sf_token::Arrived;
use std::alloc::Global;
use std::marker::Model;
use std::mem;
use test_leases::{Ends, Page, Writes};

/// A compositor, the pixels that it lent, and what arrived for it since its last vsync.
pub struct Compositor {
    handler: Handler<Page>,
    lent: Option<Contents>,
    arrived: Vec<Arrived<Page>>,
    // The greatest number of all that arrived.
    last: u32,
}

impl Model for Compositor {
    ghost use Rattle.std.specs.Prelude.{◌≡◌, ℕ, false};
    ghost use Rattle.sf_token.specs.Pending.{IsRisingFrom};

    ghost Value = { ℕ };

    ghost view = { λ c. c.last };

    ghost invariant = { λ c. (c.handler.lent ≡ c.lent) × (c.handler.is_spent ≡ false → IsRisingFrom c.handler.last c.arrived.items c.last) };
}

impl Compositor {
    /// A compositor with a display of 4 x 1, to which nothing was sent.
    pub fn new(alloc: Global) -> Option<Compositor> {
        Some(Compositor {
            handler: Handler::new(alloc, 4, 1).ok()?,
            lent: None,
            arrived: Vec::new(alloc),
            last: 0,
        })
    }

    /// A transaction arrives; None where its number is not above all earlier ones.
    pub fn send(&mut self, arrived: Arrived<Page>) -> Option<()> {
        let number = arrived.number;
        if number <= self.last {
            return None;
        }
        match self.arrived.push(arrived) {
            Ok(()) => {
                self.last = number;
                Some(())
            }
            Err(_) => None,
        }
    }

    /// A vsync, which takes what arrived.
    pub fn vsync(
        &mut self,
        alloc: Global,
        eye: &mut Writes,
        seen: &Seen,
        expected: u64,
    ) -> Option<Vsync<Page>> {
        let arrived = mem::replace(&mut self.arrived, Vec::new(alloc));
        step(&mut self.handler, eye, arrived, seen, expected)
    }

    /// Lends the pixels; None where they are lent already.
    pub fn lend(&mut self) -> Option<()> {
        if self.lent.is_some() {
            return None;
        }
        self.lent = Some(self.handler.lend());
        Some(())
    }

    /// Gives the pixels back; None where they are not lent.
    pub fn give_back(&mut self, eye: &mut Writes) -> Option<()> {
        let contents = self.lent.take()?;
        self.handler.give_back(eye, contents);
        Some(())
    }

    /// The pixels of the buffers on layers; None where they are lent.
    pub fn contents(&self) -> Option<&[Painted]> {
        match &self.lent {
            Some(_) => None,
            None => Some(self.handler.contents()),
        }
    }
}

impl Drop for Compositor {
    // What it lent is given back first.
    fn drop(self) {
        let Compositor {
            mut handler,
            lent,
            arrived: _,
            last: _,
        } = self;
        match lent {
            Some(contents) => {
                let mut eye = Writes {
                    count: 0,
                    ends: Ends::new(),
                };
                handler.give_back(&mut eye, contents);
                handler.finish();
            }
            None => handler.finish(),
        }
    }
}

/// A vsync that takes what arrived. A handler that is not spent after it was not spent before it.
fn step(
    handler: &mut Handler<Page>,
    eye: &mut Writes,
    arrived: Vec<Arrived<Page>>,
    seen: &Seen,
    expected: u64,
) -> Option<Vsync<Page>>
    requires { handler.old.is_spent ≡ false → IsRisingFrom handler.old.last arrived.items (last_of handler.old.last arrived.items) }
    ensures alive { handler.new.is_spent ≡ false → handler.old.is_spent ≡ false }
    ensures lent { handler.new.lent ≡ handler.old.lent }
    ensures last { handler.new.is_spent ≡ false → handler.new.last ≡ last_of handler.old.last arrived.items }
{
    match handler.vsync(eye, arrived, seen, expected) {
        Ok(vsync) => Some(vsync),
        Err(_) => None,
    }
}
