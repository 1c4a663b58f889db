//! Composes a part of a frame in as many threads as are worth their start: what a screen calls for
//! each image.
ghost use Rattle.std.specs.Prelude.{◌≡◌, ◌*◌, ◌≤◌, length, map, IsOk, OnErr, OnOk};
ghost use Rattle.sf_compose.specs.Composed.{AreReadableIn, AreShownIn, image_of, IsComposable};
ghost use Rattle.sf_compose.specs.Frames.{KeepsRest, ShowsPart};
ghost use Rattle.sf_compose.specs.Readings.{AreReadable, read_image};
ghost use Rattle.sf_compose.specs.inner.Bands.{HasRows, is_in, RepaintsBand};

use crate::band::{Band, all_rows};
use crate::beside::start_each;
use crate::composition::Composition;
use crate::pixels::Pixels;
use crate::seen::compose_band;
use crate::share::{Share, painted_at_most, points_in};
use sf_base::NoMemory;
use sf_damage::sf_region::Region;
use sf_damage::sf_view::View;
use std::thread::Threads;

/// At most so many points of layers are painted in a part. One worker need not know.
fn work_of<C>(workers: u32, composition: &Composition<C>, part: &Region) -> u64 {
    if workers <= 1 {
        return 0;
    }
    let rows = all_rows(composition.view);
    let points = points_in(part, rows);
    match composition.shows {
        None => painted_at_most(composition.view, points),
        Some(shows) => shown_at_most(shows, rows, points),
    }
}

/// How many are painted if of each layer only so much shows.
fn shown_at_most(shows: &[Region], rows: Band, points: u64) -> u64 {
    let mut painted = 0u64;
    for shown in shows {
        painted = painted.saturating_add(points_in(shown, rows).min(points));
    }
    painted
}

/// Composes a view into a part of a frame as `compose_one` does, with the same bytes, in at most as
/// many threads as there are workers, 1 to 16: each has a band of the frame's rows. Where too
/// little is painted for a thread to be worth its start, none is started. It needs no memory.
pub fn compose<'a, R: Threads + Sync, C: Pixels + Sync>(
    rt: &R,
    workers: u32,
    view: &'a View,
    contents: &'a [C],
    sources: &'a [u32],
    part: &Region,
    frame: &mut [u8],
) -> Result<(), NoMemory>
    requires some { 1 ≤ workers }
    requires few { workers ≤ 16 }
    requires readable { AreReadable (map C.picture contents.now) view.now.drawn sources.now }
    requires room { length frame.old ≡ 4 * (view.now.width * view.now.height) }
    ensures ok { IsOk result }
    ensures image { OnOk result (ShowsPart view.now part.now
        (read_image (map C.picture contents.now) view.now sources.now) frame.new) }
    ensures err { OnErr result (frame.new ≡ frame.old) }
    ensures rest { KeepsRest view.now part.now frame.old frame.new }
{
    let composition = Composition {
        view,
        contents,
        sources,
        shows: None,
    };
    compose_by(rt, workers, &composition, part, frame)
}

/// Composes what `compose` does, with the same bytes. Where it is given what shows of each layer, it
/// leaves out the rest to save time; its contract speaks of the bytes alone.
pub fn compose_by<R: Threads + Sync, C: Pixels + Sync>(
    rt: &R,
    workers: u32,
    composition: &Composition<C>,
    part: &Region,
    frame: &mut [u8],
) -> Result<(), NoMemory>
    requires some { 1 ≤ workers }
    requires few { workers ≤ 16 }
    requires readable { AreReadableIn C.picture composition.now }
    requires visible { AreShownIn part.now composition.now.view.now.drawn composition.now.shows }
    requires room { length frame.old ≡ 4 * (composition.now.view.now.width * composition.now.view.now.height) }
    ensures ok { IsOk result }
    ensures image { OnOk result (ShowsPart composition.now.view.now part.now (image_of C.picture composition.now) frame.new) }
    ensures err { OnErr result (frame.new ≡ frame.old) }
    ensures rest { KeepsRest composition.now.view.now part.now frame.old frame.new }
{
    let share = Share::among(workers, part, work_of(workers, composition, part));
    let rows = all_rows(composition.view);
    if share.is_last() {
        compose_band(composition, part, rows, frame);
        return Ok(());
    }
    start_each(
        rt,
        &|band: Band, bytes: &mut [u8]|
            requires { IsComposable C.picture composition.now part.now × HasRows band bytes.now }
            ensures { RepaintsBand band (is_in part.entry.now) (image_of C.picture composition.entry.now)
                bytes.entry.now bytes.exit.now }
        {
            compose_band(composition, part, band, bytes);
        },
        share,
        rows,
        frame,
    );
    Ok(())
}
