//! One output's last view with its frame: the next view is composed over it, only where the two
//! differ, with room in front for the numbers of its record.
ghost use Rattle.std.specs.Prelude.{◌≡◌, ◌≤◌, ◌+◌, ◌*◌, ◌++◌, ℤ, pos, true, OnErr, OnOk, IfOk, drop, length, map, take};
ghost use Rattle.byteorder.specs.Endian.{big_bytes};
ghost use Rattle.sf_base.specs.Geometry.{covers};
ghost use Rattle.sf_compose.specs.Readings.{AreReadable};
ghost use Rattle.sf_compose.specs.sf_region.Points.{has};
ghost use Rattle.sf_output_screen.specs.Screens.{IsSameSize, ShowsFirst, ShowsOver, begin_of, output_of};

use crate::engine::Engine;
use byteorder::{BigEndian, ByteOrder};
use sf_base::{NoMemory, Rect};
use sf_compose::{
    Composition, Pixels, Region, View, compose, compose_by, dirty, painted_at_most, visible,
};
use sf_output::ImageId;
use std::alloc::Global;
use std::marker::Model;
use std::thread::Threads;

/// What a display showed last: the view, if there was one, and its frame, four bytes for each pixel
/// in the order red, green, blue, alpha, row by row from the top.
pub struct Screen {
    alloc: Global,
    view: Option<View>,
    /// Room for two numbers, and the frame behind it, so that the record of the frame is written from
    /// where the frame was composed. Empty before the first view.
    body: Vec<u8>,
}

/// The most layers that a view draws where it is composed over an older frame, or that one drew. To
/// find where two views differ can take time with the square of their layers. Only with copies of
/// mirrored layers are there more than 1,024.
const LONGEST: usize = 2_048;

/// How many bytes a number has.
const NUMBER: usize = 4;

/// How many bytes the numbers have in front of a frame.
const ROOM: usize = 8;

impl Model for Screen {
    ghost use Rattle.std.specs.Prelude.{drop, take};
    ghost use Rattle.sf_output_screen.specs.Screens.{HasRoom, ScreenOf};

    ghost Value = { ScreenOf };

    ghost view = { λ s. record { view = s.view; numbers = take 8 s.body.items; frame = drop 8 s.body.items } };

    ghost invariant = { λ s. HasRoom s.view s.body.items };
}

/// The points of a display.
fn display(alloc: Global, view: &View) -> Result<Region, NoMemory>
    ensures { IfOk result (λ part. (x y : ℤ) → has part x y ≡ covers (record { x = pos 0; y = pos 0; width = view.now.width; height = view.now.height }) x y) }
{
    let rect = Rect {
        x: 0,
        y: 0,
        width: view.width,
        height: view.height,
    };
    Region::rect(alloc, rect)
}

/// Composes a view, behind room for the numbers of its frame.
fn compose_first<R: Threads + Sync, C: Pixels + Sync>(
    engine: &Engine<R>,
    view: &View,
    contents: &[C],
    sources: &[u32],
) -> Result<Vec<u8>, NoMemory>
    requires readable { AreReadable (map C.picture contents.now) view.now.drawn sources.now }
    ensures room { IfOk result (λ body. length body.items ≡ 8 + 4 * (view.now.width * view.now.height)) }
    ensures shows { IfOk result (λ body. ShowsFirst (map C.picture contents.now) sources.now view.now (drop 8 body.items)) }
{
    let size = 4 * (view.width as usize * view.height as usize);
    let mut body = vec![in engine.alloc; 0u8; ROOM + size]?;
    let part = display(engine.alloc, view)?;
    compose(
        engine.rt,
        engine.workers.count,
        view,
        contents,
        sources,
        &part,
        &mut body[ROOM..],
    )?;
    Ok(body)
}

/// Composes a view over the frame of an older one, where they differ. The frame lies behind room for
/// its numbers.
fn compose_over<'a, R: Threads + Sync, C: Pixels + Sync>(
    engine: &Engine<R>,
    old: &View,
    view: &'a View,
    contents: &'a [C],
    sources: &'a [u32],
    body: &mut [u8],
) -> Result<(), NoMemory>
    requires room { ROOM ≤ length body.old }
    requires same { IsSameSize (drop 8 body.old) view.now old.now }
    requires readable { AreReadable (map C.picture contents.now) view.now.drawn sources.now }
    ensures size { length body.new ≡ length body.old }
    ensures shows { OnOk result (ShowsOver (map C.picture contents.now) sources.now old.now view.now (drop 8 body.old) (drop 8 body.new)) }
    ensures err { OnErr result (body.new ≡ body.old) }
{
    let part = dirty(engine.alloc, old, view)?;
    let shows = visible(engine.alloc, view, &part)?;
    let shows = Some(shows.as_slice());
    let composition = Composition {
        view,
        contents,
        sources,
        shows,
    };
    compose_by(
        engine.rt,
        engine.workers.count,
        &composition,
        &part,
        &mut body[ROOM..],
    )
}

/// Puts two numbers in front of a frame.
fn put_numbers(body: &mut [u8], output: u32, number: u32)
    requires room { ROOM ≤ length body.old }
    ensures numbers { take 8 body.new ≡ big_bytes 4 output ++ big_bytes 4 number }
    ensures rest { drop 8 body.new ≡ drop 8 body.old }
    ensures long { length body.new ≡ length body.old }
{
    BigEndian::write_u32(&mut body[..NUMBER], output);
    BigEndian::write_u32(&mut body[NUMBER..ROOM], number);
}

/// The number of a further display or of a capture, 0 for the frame of the scene's own display.
fn output_of(of: ImageId) -> u32
    ensures { result ≡ output_of of }
{
    match of {
        ImageId::Frame => 0,
        ImageId::Display(output) | ImageId::Capture(output) => output,
    }
}

/// At which byte the body of the record of an image begins.
fn begin_of(of: ImageId) -> usize
    ensures { result ≡ begin_of of }
{
    match of {
        ImageId::Frame => NUMBER,
        ImageId::Display(_) | ImageId::Capture(_) => 0,
    }
}

/// Whether a view has the size of an older one.
fn is_same_size(old: &View, view: &View) -> bool
    ensures wide { result ≡ true → old.now.width ≡ view.now.width }
    ensures high { result ≡ true → old.now.height ≡ view.now.height }
{
    old.width == view.width && old.height == view.height
}

/// Whether a view is composed over the frame of an older one: it has that one's size, and both are
/// short enough to look for where they differ.
fn is_composed_over(old: &View, view: &View) -> bool
    ensures wide { result ≡ true → old.now.width ≡ view.now.width }
    ensures high { result ≡ true → old.now.height ≡ view.now.height }
{
    let is_short = old.drawn.len() <= LONGEST && view.drawn.len() <= LONGEST;
    is_short && is_same_size(old, view)
}

/// How many points a region has.
fn points_of(part: &Region) -> u64 {
    let mut points = 0u64;
    for rect in part.rects() {
        points = points.saturating_add(u64::from(rect.width).saturating_mul(u64::from(
            rect.height,
        )));
    }
    points
}

/// At most so many points of layers are painted in a part of a view if of each layer only so much is as
/// shows.
fn shown_at_most(alloc: Global, view: &View, part: &Region) -> u64 {
    let Ok(shows) = visible(alloc, view, part) else {
        return 0;
    };
    let points = points_of(part);
    let mut painted = 0u64;
    for shown in &shows {
        painted = painted.saturating_add(points_of(shown).min(points));
    }
    painted
}

impl Screen {
    ghost use Rattle.std.specs.Prelude.{◌≡◌, ◌++◌, ℕ, [], None, Some, OnErr, OnOk, is_some, map, true};
    ghost use Rattle.sf_compose.specs.Readings.{AreReadable};
    ghost use Rattle.sf_compose.specs.Sources.{HasSources};
    ghost use Rattle.sf_compose.specs.sf_picture.declared.picture.Picture.{Picture};
    ghost use Rattle.sf_output_screen.specs.Screens.{IsShown, IsWhole, head_of, numbers_of};

    /// A display that showed nothing yet. It takes no memory.
    pub fn new(alloc: Global) -> Screen
        ensures { result ≡ record { view = None; numbers = []; frame = [] } }
    {
        Screen {
            alloc,
            view: None,
            body: Vec::new(alloc),
        }
    }

    /// Shows a view, over the frame of the last one where that has its size and neither draws more
    /// than 2,048 layers; the workers of the engine compose its frame, each some of its rows. A layer
    /// that shows a buffer finds its pixels among the contents, at the index that stands for the layer
    /// in `sources`. After running out of memory the screen is as it was.
    pub fn show<R: Threads + Sync, C: Pixels + Sync>(
        &mut self,
        engine: &Engine<R>,
        view: View,
        contents: &[C],
        sources: &[u32],
    ) -> Result<(), NoMemory>
        requires readable { AreReadable (map C.picture contents.now) view.drawn sources.now }
        ensures shown { OnOk result ((picture : ℕ → Picture) → HasSources picture view (map C.picture contents.now) sources.now
            → IsShown picture self.old → IsShown picture self.new) }
        ensures view { OnOk result (self.new.view ≡ Some view) }
        ensures whole { OnOk result (IsWhole view self.new.frame) }
        ensures err { OnErr result (self.new ≡ self.old) }
    {
        match &self.view {
            Some(old) if is_composed_over(old, &view) => {
                let body = &mut self.body;
                compose_over(engine, old, &view, contents, sources, body)?;
            }
            _ => self.body = compose_first(engine, &view, contents, sources)?,
        }
        self.view = Some(view);
        Ok(())
    }

    /// At most so many points of layers are painted to show a view, where memory suffices to find
    /// out: where it differs from the last one, of each layer no more than shows.
    pub fn work(&self, view: &View) -> u64 {
        match &self.view {
            Some(old) if is_composed_over(old, view) => match dirty(self.alloc, old, view) {
                Ok(part) => shown_at_most(self.alloc, view, &part),
                Err(_) => 0,
            },
            _ => {
                let points = u64::from(view.width).saturating_mul(u64::from(view.height));
                painted_at_most(view, points)
            }
        }
    }

    /// Puts the numbers of this image, in the vsync of this number, in front of the frame of the view
    /// that was shown last.
    pub fn number(&mut self, of: ImageId, number: u32)
        requires shows { is_some self.old.view ≡ true }
        ensures { self.new ≡ record self.old { numbers = numbers_of of number } }
    {
        put_numbers(&mut self.body, output_of(of), number);
    }

    /// The body of the record of this image, of which the view that was shown last is: the numbers
    /// that were put in front, in four bytes each, highest first, for the frame of the scene's own
    /// display without the first of them; and the frame, row by row from the top.
    pub fn body(&self, of: ImageId) -> &[u8]
        requires shows { is_some self.now.view ≡ true }
        ensures { (number : ℕ) → self.now.numbers ≡ numbers_of of number → result.now ≡ head_of of number ++ self.now.frame }
    {
        &self.body[begin_of(of)..]
    }
}

impl Drop for Screen {
    fn drop(self) {
        let Screen {
            alloc: _,
            view: _,
            body: _,
        } = self;
    }
}
