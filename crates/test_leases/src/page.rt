//! A lease of one pixel, for cases that read buffers without a queue.
ghost use Rattle.std.specs.Prelude.{◌≡◌, IfOk, false};
ghost use Rattle.test_leases.specs.Pages.{page_of, picture_of};

use crate::ends::Ends;
use sf_base::{Format, Items, NoMemory};
use sf_picture::{Painted, Picture, paint};
use sf_txn::Lease;
use std::alloc::Global;
use std::marker::Model;

/// A lease of a buffer whose picture has its number. Its write has ended for an eye that knows of
/// as many writes as the number says. Each reading hands on the page's next turn, with pixels of
/// its own.
#[derive(Drop)]
pub struct Page {
    number: u32,
    turn: u64,
    seen: bool,
    looks: u64,
    pixels: Painted,
}

impl Model for Page {
    ghost use Rattle.std.specs.Prelude.{◌≡◌};
    ghost use Rattle.test_leases.specs.Pages.{PageOf, picture_of};

    ghost Value = { PageOf };

    ghost view = { λ s. record { number = s.number; turn = s.turn; seen = s.seen; looks = s.looks } };

    ghost invariant = { λ s. s.pixels ≡ picture_of s.number };
}

/// A page whose pixels are out.
#[derive(Drop)]
pub struct Opened {
    number: u32,
    turn: u64,
    seen: bool,
    looks: u64,
}

/// A page that was handed on, and whose pixels have yet to come back.
#[derive(Drop)]
pub struct Closing {
    number: u32,
    turn: u64,
    cell: Box<Ends>,
}

/// How many writes someone knows to have ended, and the ends of the reads that ended there.
#[derive(Drop)]
pub struct Writes {
    pub count: u32,
    pub ends: Ends,
}

/// The pixels of the picture of this number.
fn painted(alloc: Global, number: u32) -> Result<Painted, NoMemory>
    ensures { IfOk result (λ pixels. pixels ≡ picture_of number) }
{
    let picture = Picture {
        number,
        width: 1,
        height: 1,
        fills: Items::new(Vec::new(alloc)),
        format: Format::Rgba,
    };
    match paint(alloc, picture) {
        Ok(pixels) => Ok(pixels),
        Err(_) => Err(NoMemory),
    }
}

impl Page {
    /// The first turn of a page with a picture of this number, that nobody has looked at.
    pub fn new(alloc: Global, number: u32) -> Result<Page, NoMemory>
        ensures { IfOk result (λ page. page ≡ page_of number 0 false 0) }
    {
        Ok(Page {
            number,
            turn: 0,
            seen: false,
            looks: 0,
            pixels: painted(alloc, number)?,
        })
    }

    /// The number of its picture.
    pub fn number(&self) -> u32
        ensures { result ≡ self.now.number }
    {
        self.number
    }

    /// How often it was handed on.
    pub fn turn(&self) -> u64
        ensures { result ≡ self.now.turn }
    {
        self.turn
    }
}

impl Lease for Page {
    ghost use Rattle.std.specs.Prelude.{ℕ, ◌≤◌, ◌+◌, [], true, false};
    ghost use Rattle.test_leases.specs.Pages.{page_of, picture_of};

    type Eye = Writes;

    type Reading = Opened;

    type Closing = Closing;

    ghost Plain = { ℕ };

    ghost Mark = { Unit {0} };

    ghost plain = { λ s. s.number };

    ghost picture = { λ s. picture_of s.number };

    ghost end = { λ s. (s.number, s.turn) };

    ghost next_end = { λ s. (s.number, s.turn + 1) };

    ghost looks = { λ s. s.looks };

    ghost shown = { λ s. s.seen };

    ghost mark = { λ e. tt };

    ghost ends = { λ e. e.ends };

    ghost fits = { λ m s. Unit {0} };

    ghost knows = { λ e s. s.number ≤ e.count };

    ghost is_exact = { λ m. false };

    ghost tells = { λ ends end. true };

    ghost opened = { λ r. page_of r.number r.turn r.seen r.looks };

    ghost closing_end = { λ c. (c.number, c.turn) };

    ghost closing_picture = { λ c. picture_of c.number };

    ghost closing_fits = { λ m c. Unit {0} };

    fn drawn(&mut self, eye: &mut Writes) -> bool {
        let seen = self.number <= eye.count;
        self.seen = seen;
        self.looks = self.looks.saturating_add(1);
        seen
    }

    fn open(self, _eye: &mut Writes) -> (Opened, Painted) {
        let Page {
            number,
            turn,
            seen,
            looks,
            pixels,
        } = self;
        let opened = Opened {
            number,
            turn,
            seen,
            looks,
        };
        (opened, pixels)
    }

    // The last turn of all cannot be handed on.
    fn hand_on(alloc: Global, reading: Opened) -> Result<(Closing, Page), (NoMemory, Opened)> {
        let Opened { number, turn, .. } = reading;
        if turn == u64::MAX {
            return Err((NoMemory, reading));
        }
        let Ok(pixels) = painted(alloc, number) else {
            return Err((NoMemory, reading));
        };
        let Ok(cell) = Box::new(alloc, Ends::new()) else {
            return Err((NoMemory, reading));
        };
        let closing = Closing { number, turn, cell };
        let next = Page {
            number,
            turn: turn + 1,
            seen: false,
            looks: 0,
            pixels,
        };
        Ok((closing, next))
    }

    fn close(closing: Closing, eye: &mut Writes, _p: Painted) {
        let Closing { number, turn, cell } = closing;
        eye.ends.add((number, turn), cell);
    }
}
