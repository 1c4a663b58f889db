//! What a producer does with the pixels: it draws in a buffer that it was lent, or draws what it
//! promised, and then leaves them to the next turn.
ghost use Rattle.std.specs.Prelude.{◌≡◌};
ghost use Rattle.sf_surface.specs.Tokens.{is_size_of};

use crate::lent::parts_of;
use crate::plain::is_same;
use crate::token::{Ending, Owing, WriteLease};
use crate::work::Work;
use sf_base::Seen;
use sf_slots::Held;
use sf_turns::sf_picture::{Painted, Picture};
use sf_turns::{TableName, TurnSeat};
use std::alloc::Global;
use std::marker::PhantomData;

/// Why nothing was drawn. The token comes back as it was handed in.
#[derive(Drop)]
pub enum DrawFault<T> {
    /// The picture is not one that may be drawn in it.
    BadPicture(T),
    /// The fence is not signalled, or an earlier turn at the pixels has not left.
    NotYet(T),
    NoMemory(T),
}

/// Whether a picture has a buffer's size.
fn fits(picture: &Picture, held: Held) -> bool
    ensures { result ≡ is_size_of picture.now held }
{
    picture.width == held.width && picture.height == held.height
}

impl<B: TableName> WriteLease<B> {
    ghost use Rattle.std.specs.Prelude.{◌≡◌, true, false};
    ghost use Rattle.sf_turns.specs.Views.{SeatView};
    ghost use Rattle.sf_surface.specs.Drawing.{DrawsLease, MayBegin, Waits};

    /// Whether nothing was drawn yet and a point of the fence is not signalled under what was seen.
    fn has_to_wait(&self, seen: &Seen) -> bool
        ensures waits { result ≡ true → (view : SeatView) → Waits self.now.work self.now.fence seen.now view view }
        ensures begins { result ≡ false → MayBegin self.now.work self.now.fence seen.now }
    {
        match &self.work {
            Work::Fresh(_) => self.fence.first_open(seen).is_some(),
            Work::Drawn(..) => false,
        }
    }

    /// Draws a picture of the buffer's size in it, over all that it held.
    ///
    /// BadPicture exactly where the picture has another size. NotYet exactly where nothing was drawn
    /// yet and a point of the fence is not signalled under what was seen, or a load of this call
    /// showed that an earlier turn has not left.
    pub fn draw(
        self,
        alloc: Global,
        seat: &mut TurnSeat<Painted>,
        picture: &Picture,
        seen: &Seen,
    ) -> Result<WriteLease<B>, DrawFault<WriteLease<B>>>
        requires { seat.old.table ≡ B.table }
        ensures draws { DrawsLease self picture.now seen.now seat.old seat.new result }
        ensures table { seat.new.table ≡ seat.old.table }
    {
        if !fits(picture, self.held) {
            return Err(DrawFault::BadPicture(self));
        }
        if self.has_to_wait(seen) {
            return Err(DrawFault::NotYet(self));
        }
        let Ok(copy) = picture.copy(alloc) else {
            return Err(DrawFault::NoMemory(self));
        };
        let (lent, work) = parts_of(self);
        match work {
            Work::Drawn(inside, pixels) => {
                Ok(lent.lease(Work::Drawn(inside, pixels.repaint(copy))))
            }
            Work::Fresh(turn) => match turn.enter(seat) {
                Ok((inside, pixels)) => Ok(lent.lease(Work::Drawn(inside, pixels.repaint(copy)))),
                Err(turn) => Err(DrawFault::NotYet(lent.lease(Work::Fresh(turn)))),
            },
        }
    }
}

impl<B: TableName> Owing<B> {
    ghost use Rattle.std.specs.Prelude.{◌≡◌};
    ghost use Rattle.sf_surface.specs.Drawing.{PaysOwing};

    /// Draws the promised picture, and leaves.
    ///
    /// BadPicture exactly where the picture is not the promised one. NotYet exactly where a point of
    /// the fence is not signalled under what was seen, or a load of this call showed that an earlier
    /// turn has not left.
    pub fn draw(
        self,
        alloc: Global,
        seat: &mut TurnSeat<Painted>,
        picture: &Picture,
        seen: &Seen,
    ) -> Result<(), DrawFault<Owing<B>>>
        requires { seat.old.table ≡ B.table }
        ensures pays { PaysOwing self picture.now seen.now seat.old seat.new result }
        ensures table { seat.new.table ≡ seat.old.table }
    {
        if !is_same(picture, self.turn.promised()) {
            return Err(DrawFault::BadPicture(self));
        }
        if self.fence.first_open(seen).is_some() {
            return Err(DrawFault::NotYet(self));
        }
        let Ok(copy) = picture.copy(alloc) else {
            return Err(DrawFault::NoMemory(self));
        };
        let Owing {
            queue,
            slot,
            frame,
            fence,
            turn,
            of: _,
        } = self;
        match turn.enter(seat) {
            Ok((busy, pixels)) => {
                busy.leave(seat, pixels.repaint(copy));
                Ok(())
            }
            Err(turn) => Err(DrawFault::NotYet(Owing {
                queue,
                slot,
                frame,
                fence,
                turn,
                of: PhantomData,
            })),
        }
    }
}

impl<B: TableName> Ending<B> {
    ghost use Rattle.std.specs.Prelude.{◌≡◌};
    ghost use Rattle.sf_turns.specs.Views.{IsExactAlone, Leaves};

    /// Leaves, with the pixels as they were drawn.
    pub fn end(self, seat: &mut TurnSeat<Painted>)
        requires { seat.old.table ≡ B.table }
        ensures left { Leaves seat.old self.turn.buffer self.turn.number seat.new }
        ensures exact { IsExactAlone seat.new }
        ensures table { seat.new.table ≡ seat.old.table }
    {
        let Ending {
            turn,
            pixels,
            of: _,
        } = self;
        turn.leave(seat, pixels);
    }
}
