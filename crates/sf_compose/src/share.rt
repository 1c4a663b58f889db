//! How rows are shared among threads, and how many threads are worth their start.
ghost use Rattle.std.specs.Prelude.{◌≡◌, ◌<◌, ◌≤◌};

use crate::area::{cut, points_of};
use crate::band::{Band, area_of};
use sf_damage::sf_region::Region;
use sf_damage::sf_view::View;

// To begin a thread takes about as long as to paint so many points of layers.
const START: u64 = 262_144;

// How the rows of a part are shared among threads: each has about as many points of the part.
#[derive(Clone, Copy)]
pub struct Share<'a> {
    part: &'a Region,
    threads: u32,
}

/// For how many starts so many threads wait, added up, that begin one after another.
fn waits(threads: u32) -> u64 {
    let others = u64::from(threads.saturating_sub(1));
    u64::from(threads).saturating_mul(others) / 2
}

/// How many threads are worth what it takes to begin them. One more is if there is so much to paint as
/// would be painted while it, those before it and the one that starts them all wait.
fn worth(workers: u32, work: u64) -> u32
    ensures { 1 ≤ result }
{
    let mut threads = 1;
    while threads < workers && waits(threads.saturating_add(2)).saturating_mul(START) <= work {
        threads += 1;
    }
    threads
}

/// At most so many points of layers are painted where so many points of a view are: of each layer no
/// more than its clip has.
pub fn painted_at_most(view: &View, points: u64) -> u64 {
    let mut painted = 0u64;
    for drawn in view.drawn.as_slice() {
        let clip = u64::from(drawn.clip.width).saturating_mul(u64::from(drawn.clip.height));
        painted = painted.saturating_add(clip.min(points));
    }
    painted
}

/// How many points of a part a band has.
pub fn points_in(part: &Region, band: Band) -> u64 {
    let rows = area_of(band);
    let mut points = 0u64;
    for rect in part.rects() {
        points = points.saturating_add(points_of(cut(rows, rect)));
    }
    points
}

/// How many rows from a band's top on have so many points of a part, at least one; all rows where they
/// have fewer.
fn rows_of(part: &Region, band: Band, points: u64) -> u32
    requires { band.top < band.bottom }
    ensures { 1 ≤ result }
{
    let (mut low, mut high) = (1, band.bottom - band.top);
    while low < high {
        let middle = low + (high - low) / 2;
        let upper = Band {
            bottom: band.top + middle,
            ..band
        };
        if points_in(part, upper) < points {
            low = middle + 1;
        } else {
            high = middle;
        }
    }
    low
}

impl<'a> Share<'a> {
    /// A part among at most so many workers, where so many points of layers are painted.
    pub fn among(workers: u32, part: &'a Region, work: u64) -> Share<'a> {
        Share {
            part,
            threads: worth(workers, work),
        }
    }

    /// Whether one thread has all that is left.
    pub fn is_last(self) -> bool {
        self.threads <= 1
    }

    /// How many rows of a band the next thread has, from its top on; the last one has all.
    pub fn first_rows(self, band: Band) -> u32
        requires { band.top < band.bottom }
        ensures { 1 ≤ result }
    {
        if self.threads <= 1 {
            return band.bottom - band.top;
        }
        let points = points_in(self.part, band).div_ceil(u64::from(self.threads));
        rows_of(self.part, band, points)
    }

    /// What is left for the threads after the next one.
    pub fn rest(self) -> Share<'a> {
        Share {
            threads: self.threads.saturating_sub(1),
            ..self
        }
    }
}
