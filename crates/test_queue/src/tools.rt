//! What the callers of a case with turns draw and read with.
ghost use Rattle.std.specs.Prelude.{◌≡◌, IfSome, length};

use crate::answer::Answer;
use sf_base::Seen;
use sf_calls::CallFault;
use sf_picture::{Painted, Picture};
use sf_surface::{DrawFault, Gives, QCall, QReply, ReadLease};
use sf_turns::{Permit, Stock, TableName, TurnSeat};
use sf_txn::Lease;
use std::alloc::Global;
use std::marker::PhantomData;

/// What a call under the lock answered.
pub type Made<B> = Result<QReply<B>, CallFault<(u32, QCall<B>)>>;

/// The token that a line leaves in its place, and its answer.
pub type Left<B> = (Gives<B>, Answer);

/// A seat, and permits for buffers of its table.
#[derive(Drop)]
pub struct Tools<B: TableName> {
    seat: TurnSeat<Painted>,
    stock: Stock<Painted>,
    /// How many permits the stock has.
    left: u32,
    of: PhantomData<B>,
    ghost own: { seat.table ≡ B.table },
    ghost stocked: { stock.table ≡ B.table },
    ghost counted: { length stock.buffers ≡ left },
}

/// The kind of a token.
fn kind_of<B: TableName>(gives: &Gives<B>) -> &'static str {
    match gives {
        Gives::Nothing => "",
        Gives::Write(_) => ", lease",
        Gives::Owes(_) => ", owed",
        Gives::Read(_) => ", frame",
        Gives::Free(_) => ", loose buffer",
    }
}

/// The token that was not drawn in, and why.
fn undrawn<T>(fault: DrawFault<T>) -> (T, &'static str) {
    match fault {
        DrawFault::BadPicture(token) => (token, "another picture"),
        DrawFault::NotYet(token) => (token, "not yet"),
        DrawFault::NoMemory(token) => (token, "out of memory"),
    }
}

impl<B: TableName> Tools<B> {
    /// A seat with so many permits.
    pub fn new(seat: TurnSeat<Painted>, stock: Stock<Painted>, left: u32) -> Tools<B>
        requires own { seat.table ≡ B.table }
        requires stocked { stock.table ≡ B.table }
        requires counted { length stock.buffers ≡ left }
    {
        Tools {
            seat,
            stock,
            left,
            of: PhantomData,
        }
    }

    /// A permit, where one is left and memory for it is there.
    pub fn permit(&mut self) -> Option<Permit<Painted>>
        ensures { IfSome result (λ permit. permit.table ≡ B.table) }
    {
        if self.left == 0 {
            return None;
        }
        match self.stock.one() {
            Ok(permit) => {
                self.left -= 1;
                Some(permit)
            }
            Err(_) => None,
        }
    }

    /// Takes a reply apart: its drawing ends, and its token is left. Of a call that was not made
    /// nothing is left, since what it brought is let go.
    pub fn settle(&mut self, made: Made<B>) -> Left<B> {
        let QReply {
            status,
            values,
            gives,
            ends,
            spare,
        } = match made {
            Ok(reply) => reply,
            Err(CallFault::NotYet(call)) => {
                drop(call);
                return (Gives::Nothing, Answer::Plain("not yet"));
            }
            Err(CallFault::NoMemory(call)) => {
                drop(call);
                return (Gives::Nothing, Answer::Plain("out of memory"));
            }
        };
        let ended = ends.is_some();
        if let Some(ending) = ends {
            ending.end(&mut self.seat);
        }
        let answer = Answer::Reply(status, values, kind_of(&gives), ended, spare.is_some());
        (gives, answer)
    }

    /// Draws a picture in a lease, or one that is owed.
    pub fn draw(
        &mut self,
        alloc: Global,
        token: Gives<B>,
        picture: &Picture,
        seen: &Seen,
    ) -> Left<B> {
        match token {
            Gives::Write(lease) => match lease.draw(alloc, &mut self.seat, picture, seen) {
                Ok(lease) => (Gives::Write(lease), Answer::Plain("drawn")),
                Err(fault) => {
                    let (lease, why) = undrawn(fault);
                    (Gives::Write(lease), Answer::Plain(why))
                }
            },
            Gives::Owes(owing) => match owing.draw(alloc, &mut self.seat, picture, seen) {
                Ok(()) => (Gives::Nothing, Answer::Plain("drawn")),
                Err(fault) => {
                    let (owing, why) = undrawn(fault);
                    (Gives::Owes(owing), Answer::Plain(why))
                }
            },
            token => (token, Answer::Plain("no such token")),
        }
    }

    /// Reads the first pixel of a frame whose write has ended, and hands the frame on.
    pub fn read(&mut self, alloc: Global, token: Gives<B>) -> Left<B> {
        let mut lease = match token {
            Gives::Read(lease) => lease,
            token => return (token, Answer::Plain("no such token")),
        };
        if !lease.drawn(&mut self.seat) {
            return (Gives::Read(lease), Answer::Plain("not yet"));
        }
        let (reading, pixels) = lease.open(&mut self.seat);
        let level = pixels.picture().pixel(0, 0).r;
        match <ReadLease<B> as Lease>::hand_on(alloc, reading) {
            Ok((closing, lease)) => {
                <ReadLease<B> as Lease>::close(closing, &mut self.seat, pixels);
                (Gives::Read(lease), Answer::Grey(level))
            }
            Err(unread) => {
                drop(unread);
                (Gives::Nothing, Answer::Plain("out of memory"))
            }
        }
    }
}
