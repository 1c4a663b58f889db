//! From a vsync that was decided to its records: which views are due, and, once these are composed,
//! the records of the vsync, of its commits and of each image. A play does both at once; a live run
//! composes between the two.
ghost use Rattle.std.specs.List.{list_any};
ghost use Rattle.std.specs.Prelude.{◌≡◌, ◌≤◌, ◌∷◌, [], ℕ, All, IfOk, None, OnOk, is_some, map, true};
ghost use Rattle.sf_output.specs.Outputs.{OfImage};
ghost use Rattle.sf_output_screen.specs.sf_picture.declared.picture.Picture.{Picture};
ghost use Rattle.sf_play.specs.sf_record.Events.{image_record};
ghost use Rattle.sf_play.specs.sf_record.declared.record.Record.TheVariants as rec;
ghost use Rattle.sf_play.specs.sf_play_report.Reports.{has_commits};
ghost use Rattle.sf_play.specs.sf_play_report.Stages.{AllFindExpected, IsReadableView, IsStage, is_accepted};
ghost use Rattle.sf_play.specs.law_played.Commits.{commit_shown};
ghost use Rattle.sf_output_screen.specs.ScreenLists.{AreShown};
ghost use Rattle.sf_output_screen.specs.Screens.{IsShown};
ghost use Rattle.sf_play_write.specs.Vsyncs.{
  AreViewsDue,
  CutsPictured,
  HasView,
  VsyncEnded,
  WritesPictured,
  pixels_in,
  records_by,
  shown_record,
};
ghost use Rattle.sf_play_write.specs.Writing.{Wrote};

use crate::composing::compose_views;
use crate::shows::Shows;
use crate::writing::write_made;
use sf_base::NoMemory;
use sf_io::Sink;
use sf_output::{Image, ImageId, Output};
use sf_output_screen::{Engine, Screen, Screens};
use sf_play::{
    Commit, Handler, Hit, Lease, Plan, Record, RunFault, SourcedView, VsyncReport, commit_record,
    sourced_views, vsync_record, write_image,
};
use std::alloc::Global;
use std::thread::Threads;

/// Writes the records of commits, one after another.
fn write_commits<K: Sink>(alloc: Global, sink: &mut K, commits: &[Commit]) -> Result<(), RunFault>
    ensures { Wrote K.taken K.faults sink.old sink.new result (map rec.Comm (map commit_shown commits.now)) }
{
    for commit in commits {
        let made = commit_record(alloc, commit);
        match write_made(alloc, sink, made) {
            Ok(()) => {}
            Err(fault) => return Err(fault),
        }
    }
    Ok(())
}

/// Whether a transaction was not rejected.
fn is_accepted(commit: &Commit) -> bool
    ensures { result ≡ is_accepted commit.now }
{
    commit.cause == 0
}

/// Whether a transaction was committed and not rejected, so that a frame is shown.
fn shows_frame(commits: &[Commit]) -> bool
    ensures { result ≡ list_any is_accepted commits.now }
{
    commits.iter().any(is_accepted)
}

/// Whether a transaction was committed, or rejected as a whole.
fn has_commits(commits: &[Commit]) -> bool
    ensures { result ≡ has_commits commits.now }
{
    !commits.is_empty()
}

/// Writes the record of this image, of which the view that the screen showed last is.
fn write_shown<K: Sink>(
    sink: &mut K,
    screen: &mut Screen,
    of: ImageId,
    number: u32,
) -> Result<(), RunFault>
    requires shows { is_some screen.old.view ≡ true }
    ensures wrote { Wrote K.taken K.faults sink.old sink.new result (image_record of number screen.old.frame ∷ []) }
    ensures view { screen.new.view ≡ screen.old.view }
    ensures frame { screen.new.frame ≡ screen.old.frame }
{
    screen.number(of, number);
    write_image(sink, of, number, screen.body(of))
}

/// Writes the record of an image, of which the view is that its screen showed last, and puts the screen
/// among the others.
fn write_on<K: Sink>(
    sink: &mut K,
    screens: &mut Screens,
    number: u32,
    image: Image<Screen>,
) -> Result<(), RunFault>
    requires shows { HasView image.shows }
    ensures wrote { Wrote K.taken K.faults sink.old sink.new result (image_record image.of number image.shows.frame ∷ []) }
    ensures shown { (pictures : ℕ → Picture) → IsShown pictures image.shows → AreShown pictures screens.old → OnOk result (AreShown pictures screens.new) }
{
    let Image {
        of,
        shows: mut screen,
    } = image;
    match write_shown(sink, &mut screen, of, number) {
        Ok(()) => {}
        Err(fault) => return Err(fault),
    }
    match screens.put(of, screen) {
        Ok(()) => Ok(()),
        Err(_) => Err(RunFault::NoMemory),
    }
}

/// Writes the record of one of the things that a vsync shows, whose image is composed.
fn write_output<K: Sink>(
    alloc: Global,
    sink: &mut K,
    screens: &mut Screens,
    number: u32,
    image: Output<Screen>,
) -> Result<(), RunFault>
    requires shows { OfImage HasView image }
    ensures wrote { Wrote K.taken K.faults sink.old sink.new result (shown_record number image ∷ []) }
    ensures shown { (pictures : ℕ → Picture) → OfImage (IsShown pictures) image → AreShown pictures screens.old → OnOk result (AreShown pictures screens.new) }
{
    match image {
        Output::Image(image) => write_on(sink, screens, number, image),
        Output::Hit(output, layer) => {
            let hit = Hit {
                output,
                number,
                layer,
            };
            write_made(alloc, sink, Ok(Record::Hits(hit)))
        }
    }
}

/// Writes the records of what a vsync shows, one after another.
fn write_outputs<K: Sink>(
    alloc: Global,
    sink: &mut K,
    screens: &mut Screens,
    number: u32,
    images: Vec<Output<Screen>>,
) -> Result<(), RunFault>
    requires shows { All (OfImage HasView) images.items }
    ensures wrote { Wrote K.taken K.faults sink.old sink.new result (map (shown_record number) images.items) }
    ensures shown { (pictures : ℕ → Picture) → All (OfImage (IsShown pictures)) images.items → AreShown pictures screens.old
        → OnOk result (AreShown pictures screens.new) }
{
    for image in images {
        match write_output(alloc, sink, screens, number, image) {
            Ok(()) => {}
            Err(fault) => return Err(fault),
        }
    }
    Ok(())
}

/// The views of what the last vsync shows, in order: of the outputs due where it committed a
/// transaction that was not rejected, and else none. It may be asked while the pixels are lent.
pub fn vsync_views<L: Lease + Drop>(
    alloc: Global,
    plan: &Plan,
    handler: &Handler<L>,
    report: &VsyncReport,
) -> Result<Vec<Output<SourcedView>>, NoMemory>
where
    L::Reading: Drop,
    requires { IsStage (λ one. L.picture one.lease) plan.now handler.now }
    ensures due { IfOk result (λ views. AreViewsDue plan.now handler.now.tree.layers report.now.commits views.items) }
    ensures readable { IfOk result (λ views. All (OfImage (IsReadableView (map (λ one. L.picture one.lease) handler.now.on))) views.items) }
    ensures found { IfOk result (λ views. AllFindExpected (λ one. L.picture one.lease) handler.now views.items) }
{
    if !shows_frame(report.commits.as_slice()) {
        return Ok(Vec::new(alloc));
    }
    sourced_views(alloc, plan, handler)
}

/// Writes the records of a vsync, of which the images are composed, and puts their screens among the
/// others. A vsync that commits nothing has no records.
pub fn write_vsync<K: Sink>(
    alloc: Global,
    sink: &mut K,
    timelines: &[u32],
    screens: &mut Screens,
    report: VsyncReport,
    images: Vec<Output<Screen>>,
) -> Result<(), RunFault>
    requires timelines { All (λ timeline. (1 ≤ timeline) × (timeline ≤ 64)) timelines.now }
    requires shows { All (OfImage HasView) images.items }
    ensures wrote { Wrote K.taken K.faults sink.old sink.new result (records_by timelines.now report (pixels_in images.items)) }
    ensures shown { (pictures : ℕ → Picture) → All (OfImage (IsShown pictures)) images.items → AreShown pictures screens.old
        → OnOk result (AreShown pictures screens.new) }
{
    let VsyncReport {
        number,
        expected,
        seen,
        commits,
    } = report;
    if !has_commits(commits.as_slice()) {
        return Ok(());
    }
    let head = vsync_record(alloc, number, expected, timelines, &seen);
    match write_made(alloc, sink, head) {
        Ok(()) => {}
        Err(fault) => return Err(fault),
    }
    match write_commits(alloc, sink, commits.as_slice()) {
        Ok(()) => {}
        Err(fault) => return Err(fault),
    }
    write_outputs(alloc, sink, screens, number, images)
}

/// Writes the records of a vsync that left this handler, whose pixels are not lent, and shows what is
/// asked for where a transaction was committed and not rejected. A vsync that commits nothing has no
/// records.
pub fn show_vsync<R: Threads + Sync, K: Sink, L: Lease + Drop>(
    engine: &Engine<R>,
    sink: &mut K,
    shows: &Shows,
    screens: &mut Screens,
    handler: &Handler<L>,
    report: VsyncReport,
) -> Result<(), RunFault>
where
    L::Reading: Drop,
    requires timelines { All (λ timeline. (1 ≤ timeline) × (timeline ≤ 64)) shows.now.timelines.items }
    requires unlent { handler.now.lent ≡ None }
    requires stage { IsStage (λ one. L.picture one.lease) shows.now.plan handler.now }
    ensures ok { WritesPictured (λ one. L.picture one.lease) shows.now handler.now report
        (K.taken sink.old) (K.taken sink.new) screens.old screens.new result }
    ensures err { CutsPictured (λ one. L.picture one.lease) shows.now handler.now report
        (K.taken sink.old) (K.taken sink.new) screens.old result }

    // Whatever the pictures are, the records of the vsync are written, and where it fails a prefix of them.
    ensures ended { VsyncEnded K.taken K.faults shows.now handler.now report sink.old sink.new result }
{
    let views = match vsync_views(engine.alloc, &shows.plan, handler, &report) {
        Ok(views) => views,
        Err(_) => return Err(RunFault::NoMemory),
    };
    match compose_views(engine, screens, handler.contents(), views) {
        Ok(images) => write_vsync(
            engine.alloc,
            sink,
            &shows.timelines,
            screens,
            report,
            images,
        ),
        Err(_) => Err(RunFault::NoMemory),
    }
}
