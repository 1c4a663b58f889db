//! From the views of a vsync to its images: each is composed on the screen of its own output. A
//! live run composes beside the next vsync, in a thread of its own where that is worth its start.
ghost use denote.Param.Send.{IsSync};
ghost use Rattle.std.specs.Prelude.{◌≡◌, IfOk, IfSome, is_some, map, true};
ghost use Rattle.sf_play_write.specs.Vsyncs.{AreImagesOf, AreReadableViews, KeepsShown};

use sf_base::NoMemory;
use sf_output::{Image, ImageId, Output};
use sf_output_screen::{Engine, Pixels, Screen, Screens, View, painted_at_most};
use sf_play::SourcedView;
use std::thread;
use std::thread::Threads;

/// Where so many points of layers are painted, that takes some milliseconds, of which the begin of a
/// thread is a small part. All that the thread saves is what the caller does beside it, and that
/// mostly takes less than a thread takes to begin.
const WORTH_A_THREAD: u64 = 4_194_304;

/// Composes the images of views, one after another, each on the screen of its output, which is taken
/// out.
pub fn compose_views<R: Threads + Sync, C: Pixels + Sync>(
    engine: &Engine<R>,
    screens: &mut Screens,
    contents: &[C],
    views: Vec<Output<SourcedView>>,
) -> Result<Vec<Output<Screen>>, NoMemory>
    requires readable { AreReadableViews (map C.picture contents.now) views.items }
    ensures images { IfOk result (λ images. AreImagesOf (map C.picture contents.now) views.items screens.old images.items) }
    ensures shown { KeepsShown screens.old screens.new }
{
    let mut images = Vec::new(engine.alloc);
    for output in views {
        match output {
            Output::Image(Image { of, shows }) => {
                let SourcedView { view, sources } = shows;
                let mut screen = screens.take(of);
                screen.show(engine, view, contents, sources.as_slice())?;
                images.push(Output::Image(Image { of, shows: screen }))?;
            }
            Output::Hit(number, layer) => images.push(Output::Hit(number, layer))?,
        }
    }
    Ok(images)
}

/// At most so many points of layers are painted to show a view as this image. What differs from the
/// last one is looked for only where the whole is worth a thread.
fn work_of(screens: &Screens, of: ImageId, view: &View) -> u64 {
    let points = u64::from(view.width).saturating_mul(u64::from(view.height));
    let whole = painted_at_most(view, points);
    if whole < WORTH_A_THREAD {
        return whole;
    }
    screens.work(of, view)
}

/// Whether so much is painted for views that it is worth a thread of its own.
pub fn is_worth(screens: &Screens, views: &[Output<SourcedView>]) -> bool {
    let mut work = 0u64;
    for output in views {
        work = work.saturating_add(match output {
            Output::Image(image) => work_of(screens, image.of, &image.shows.view),
            Output::Hit(_, _) => 0,
        });
    }
    work >= WORTH_A_THREAD
}

/// Composes the images of the views that are there, and leaves none.
fn compose_next<R: Threads + Sync, C: Pixels + Sync>(
    engine: &Engine<R>,
    screens: &mut Screens,
    contents: &[C],
    next: &mut Option<Vec<Output<SourcedView>>>,
) -> Result<Vec<Output<Screen>>, NoMemory>
    requires there { is_some next.old ≡ true }
    requires readable { IfSome next.old (λ views. AreReadableViews (map C.picture contents.now) views.items) }
    ensures images { IfSome next.old (λ views. IfOk result (λ images. AreImagesOf (map C.picture contents.now) views.items screens.old images.items)) }
    ensures shown { KeepsShown screens.old screens.new }
{
    match next.take() {
        Some(views) => compose_views(engine, screens, contents, views),
        None => unreachable!(),
    }
}

/// What is done beside composing.
pub trait Beside {
    /// What comes of it.
    type Done;

    /// When it may be done.
    ghost may: { Self → Type 0 };

    /// What came of it, and what it left.
    ghost does: { Self → Self.Done → Self → Type 0 };

    /// Does it.
    fn run(&mut self) -> Self::Done
        requires may { may self.old }
        ensures does { does self.old result self.new };
}

/// Composes the images of views in a thread of its own, while the caller runs `other`. The screens and
/// the contents are lent to that thread, and are back once both are done. Where no thread can be
/// started, the caller composes.
fn compose_apart<R: Threads + Sync, C: Pixels + Sync, M: Beside>(
    engine: &Engine<R>,
    screens: &mut Screens,
    contents: &[C],
    views: Vec<Output<SourcedView>>,
    other: &mut M,
) -> (Result<Vec<Output<Screen>>, NoMemory>, M::Done)
    requires readable { AreReadableViews (map C.picture contents.now) views.items }
    requires may { M.may other.old }
    ensures images { IfOk result.0 (λ images. AreImagesOf (map C.picture contents.now) views.items screens.old images.items) }
    ensures shown { KeepsShown screens.old screens.new }
    ensures does { M.does other.old result.1 other.new }
{
    let mut next = Some(views);
    let mut composing = || -> Result<Vec<Output<Screen>>, NoMemory>
        requires sync { IsSync R.row × IsSync C.row }
        requires there { is_some next ≡ true }
        requires readable { IfSome next (λ views. AreReadableViews (map C.picture contents.now) views.items) }
        ensures images { IfSome next.entry (λ views. IfOk result (λ images. AreImagesOf (map C.picture contents.entry.now) views.items screens.entry.now images.items)) }
        ensures shown { KeepsShown screens.entry.now screens.exit.now }
    { compose_next(engine, screens, contents, &mut next) };
    let mut running = || -> M::Done
        requires may { M.may other.now }
        ensures does { M.does other.entry.now result other.exit.now }
    { other.run() };
    thread::join_mut(engine.rt, &mut composing, &mut running)
}

/// Runs `other`, and composes the images of views as [`compose_views`] does: beside it, in a thread of
/// its own, where that is worth its start, and else behind it.
pub fn compose_beside<R: Threads + Sync, C: Pixels + Sync, M: Beside>(
    engine: &Engine<R>,
    screens: &mut Screens,
    contents: &[C],
    views: Vec<Output<SourcedView>>,
    other: &mut M,
) -> (Result<Vec<Output<Screen>>, NoMemory>, M::Done)
    requires readable { AreReadableViews (map C.picture contents.now) views.items }
    requires may { M.may other.old }
    ensures images { IfOk result.0 (λ images. AreImagesOf (map C.picture contents.now) views.items screens.old images.items) }
    ensures shown { KeepsShown screens.old screens.new }
    ensures does { M.does other.old result.1 other.new }
{
    if is_worth(screens, &views) {
        return compose_apart(engine, screens, contents, views, other);
    }
    let done = other.run();
    (compose_views(engine, screens, contents, views), done)
}
