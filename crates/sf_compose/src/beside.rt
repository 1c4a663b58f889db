//! Composes bands of a frame in threads that begin one right after another, and one band in the
//! caller's.
ghost use Rattle.std.specs.Prelude.{◌≡◌, ◌-◌, ◌*◌, ◌<◌, ◌≤◌, ℕ, Bool, List};
ghost use denote.Param.Send.{IsSync};
ghost use Rattle.sf_base.specs.declared.pixel.Rgba.{Rgba as RgbaIn};
ghost use Rattle.sf_compose.specs.declared.band.Band.{Band as BandIn};
ghost use Rattle.sf_compose.specs.inner.Bands.{AcceptsBands, HasRows, IsCut, RepaintsBand, RepaintsBands};

use crate::band::Band;
use crate::share::Share;
use std::thread;
use std::thread::Threads;

// The upper rows of a band, and those below them.
#[derive(Clone, Copy)]
struct Cut {
    first: Band,
    below: Band,
}

/// Cuts the first rows off a band, at most so many.
fn cut_off(band: Band, rows: u32) -> Cut
    requires some { 1 ≤ rows }
    requires rows { band.top < band.bottom }
    ensures { IsCut band result.first result.below }
{
    let middle = band.top + rows.min(band.bottom - band.top);
    Cut {
        first: Band {
            bottom: middle,
            ..band
        },
        below: Band {
            top: middle,
            ..band
        },
    }
}

/// How many bytes a band has.
fn size_of(band: Band) -> usize
    requires ordered { band.top ≤ band.bottom }
    requires fits { 4 * ((band.bottom - band.top) * band.width) < 18446744073709551616 }
    ensures { result ≡ 4 * ((band.bottom - band.top) * band.width) }
{
    4 * ((band.bottom - band.top) as usize * band.width as usize)
}

/// Has the rows of a band composed, each share in a thread. All threads begin one right after another,
/// since the one that starts them composes nothing itself but where no thread can be made.
#[cycle(bands)]
pub fn start_each<R: Threads + Sync, F: Fn(Band, &mut [u8]) + Sync>(
    rt: &R,
    f: &F,
    share: Share,
    band: Band,
    bytes: &mut [u8],
)
    requires ordered { band.top ≤ band.bottom }
    requires room { HasRows band bytes.old }
    requires accepts { AcceptsBands F.Fn f.now }
    ensures { (test : ℕ → ℕ → Bool) (image : ℕ → ℕ → RgbaIn) → RepaintsBands F.Fn f.now test image
        → RepaintsBand band test image bytes.old bytes.new }
{
    if band.top == band.bottom {
        return;
    }
    let cut = cut_off(band, share.first_rows(band));
    let (now, later) = bytes.split_at_mut(size_of(cut.first));
    start_beside(rt, f, share.rest(), cut, now, later);
}

/// Composes a band in this thread.
fn compose_here<F: Fn(Band, &mut [u8])>(f: &F, band: Band, bytes: &mut [u8])
    requires room { HasRows band bytes.old }
    requires accepts { AcceptsBands F.Fn f.now }
    ensures { (test : ℕ → ℕ → Bool) (image : ℕ → ℕ → RgbaIn) → RepaintsBands F.Fn f.now test image
        → RepaintsBand band test image bytes.old bytes.new }
{
    f(band, bytes);
}

/// Has a band composed in a thread, and the rows below it beside.
#[cycle(bands)]
fn start_beside<R: Threads + Sync, F: Fn(Band, &mut [u8]) + Sync>(
    rt: &R,
    f: &F,
    share: Share,
    cut: Cut,
    now: &mut [u8],
    later: &mut [u8],
)
    requires ordered { cut.below.top ≤ cut.below.bottom }
    requires first { HasRows cut.first now.old }
    requires below { HasRows cut.below later.old }
    requires accepts { AcceptsBands F.Fn f.now }
    ensures first { (test : ℕ → ℕ → Bool) (image : ℕ → ℕ → RgbaIn) → RepaintsBands F.Fn f.now test image
        → RepaintsBand cut.first test image now.old now.new }
    ensures below { (test : ℕ → ℕ → Bool) (image : ℕ → ℕ → RgbaIn) → RepaintsBands F.Fn f.now test image
        → RepaintsBand cut.below test image later.old later.new }
{
    let Cut { first, below } = cut;
    let mut one = ||
        requires { IsSync F.row × HasRows first now.now × AcceptsBands F.Fn f.now }
        ensures { (test : ℕ → ℕ → Bool) (image : ℕ → ℕ → RgbaIn) → RepaintsBands F.Fn f.entry.now test image
            → RepaintsBand first test image now.entry.now now.exit.now }
    { compose_here(f, first, now) };
    let mut others = ||
        requires { IsSync R.row × IsSync F.row × (below.top ≤ below.bottom) × HasRows below later.now × AcceptsBands F.Fn f.now }
        ensures { (test : ℕ → ℕ → Bool) (image : ℕ → ℕ → RgbaIn) → RepaintsBands F.Fn f.entry.now test image
            → RepaintsBand below test image later.entry.now later.exit.now }
    { start_each(rt, f, share, below, later) };
    thread::join_mut(rt, &mut one, &mut others);
}
