//! How the compositor reads a frame: its lease says whether the write has ended, gives out the
//! pixels, and hands the right on before the read ends.
use crate::token::ReadLease;
use sf_base::{Fence, NoMemory, QueueId, Rect, SlotId};
use sf_slots::Held;
use sf_turns::sf_picture::Painted;
use sf_turns::{Busy, Inside, TableName, Turn, TurnSeat};
use sf_txn::Lease;
use std::alloc::Global;
use std::marker::{Model, PhantomData};

/// What a read lease says of its frame.
#[derive(Drop)]
struct Frame {
    queue: QueueId,
    slot: SlotId,
    number: u64,
    held: Held,
    picture: u32,
    crop: Rect,
    fence: Fence,
}

impl Frame {
    ghost use Rattle.std.specs.Prelude.{◌≡◌};
    ghost use Rattle.sf_surface.specs.Tokens.{IsReadLease};
    ghost use Rattle.sf_surface.specs.Reading.{lease_of};

    /// The lease of the frame, with the right to read it.
    fn lease<B: TableName>(self, turn: Turn<Painted>) -> ReadLease<B>
        requires { IsReadLease B.table (lease_of self turn) }
        ensures { result ≡ lease_of self turn }
    {
        let Frame {
            queue,
            slot,
            number,
            held,
            picture,
            crop,
            fence,
        } = self;
        ReadLease {
            queue,
            slot,
            frame: number,
            held,
            picture,
            crop,
            fence,
            turn,
            of: PhantomData,
        }
    }
}

/// A read lease whose pixels are out.
#[derive(Drop)]
pub struct Reading<B: TableName> {
    frame: Frame,
    turn: Inside<Painted>,
    of: PhantomData<B>,
}

impl<B: TableName> Model for Reading<B> {
    ghost use Rattle.sf_surface.specs.Tokens.{ReadLeaseOf, IsReadLease};
    ghost use Rattle.sf_surface.specs.Reading.{lease_of};

    ghost Value = { ReadLeaseOf };

    ghost view = { λ l. lease_of l.frame l.turn };

    ghost invariant = { λ l. IsReadLease B.table (lease_of l.frame l.turn) };
}

/// A reading that was handed on and has yet to end.
pub struct Closing<B: TableName> {
    turn: Busy<Painted>,
    of: PhantomData<B>,
}

impl<B: TableName> Model for Closing<B> {
    ghost use Rattle.std.specs.Prelude.{◌≡◌};
    ghost use Rattle.sf_surface.specs.Tokens.{Issued};

    ghost Value = { Issued };

    ghost view = { λ c. c.turn };

    ghost invariant = { λ c. c.turn.table ≡ B.table };
}

impl<B: TableName> Lease for ReadLease<B> {
    ghost use Rattle.std.specs.Prelude.{◌≡◌, ◌+◌, ◌≤◌, ◌⊎◌};
    ghost use Rattle.sf_base.specs.Points.{greatest};
    ghost use Rattle.sf_surface.specs.Reading.{PlainLease, EyeMark, eye_mark, is_only_eye, plain_lease, has_left};

    type Eye = TurnSeat<Painted>;

    type Reading = Reading<B>;

    type Closing = Closing<B>;

    ghost Plain = { PlainLease };

    ghost Mark = { EyeMark };

    ghost plain = { plain_lease };

    ghost picture = { λ l. l.turn.expects };

    ghost end = { λ l. (l.turn.buffer, l.turn.number) };

    ghost next_end = { λ l. (l.turn.buffer, l.turn.number + 1) };

    ghost looks = { λ l. l.turn.loads };

    ghost shown = { λ l. l.turn.shown };

    ghost mark = { eye_mark };

    ghost ends = { λ eye. eye.leaves };

    ghost fits = { λ m l. m.table ≡ B.table };

    ghost knows = { λ eye l. l.turn.number ≤ greatest l.turn.buffer eye.seen };

    ghost is_exact = { is_only_eye };

    ghost tells = { has_left };

    ghost opened = { λ r. r };

    ghost closing_end = { λ c. (c.buffer, c.number) };

    ghost closing_picture = { λ c. c.promises };

    ghost closing_fits = { λ m c. m.table ≡ B.table };

    fn drawn(&mut self, eye: &mut TurnSeat<Painted>) -> bool {
        self.turn.ready(eye)
    }

    fn open(self, eye: &mut TurnSeat<Painted>) -> (Reading<B>, Painted) {
        let ReadLease {
            queue,
            slot,
            frame: number,
            held,
            picture,
            crop,
            fence,
            turn,
            of,
        } = self;
        let Ok((turn, pixels)) = turn.enter(eye) else {
            unreachable!()
        };
        let frame = Frame {
            queue,
            slot,
            number,
            held,
            picture,
            crop,
            fence,
        };
        (Reading { frame, turn, of }, pixels)
    }

    fn hand_on(
        alloc: Global,
        reading: Reading<B>,
    ) -> Result<(Closing<B>, ReadLease<B>), (NoMemory, Reading<B>)> {
        let Ok(copy) = reading.turn.expects().copy(alloc) else {
            return Err((NoMemory, reading));
        };
        let Reading { frame, turn, of } = reading;
        match turn.issue(copy) {
            Ok((turn, next)) => Ok((Closing { turn, of }, frame.lease(next))),
            Err((no_memory, turn, _)) => Err((no_memory, Reading { frame, turn, of })),
        }
    }

    fn close(closing: Closing<B>, eye: &mut TurnSeat<Painted>, p: Painted) {
        let Closing { turn, of: _ } = closing;
        turn.leave(eye, p);
    }
}
