//! What of a display changed, what of its layers shows, and frames that are composed in parts or over
//! one another. Frames in turns, many times over, are what `bench/compose` times.
use crate::compose::{Composer, MOST_PARTS, Work, add, whole};
use crate::regions::bounded;
use crate::show;
use sf_base::Rect;
use sf_damage::{dirty, visible};
use sf_picture::Painted;
use sf_region::Region;
use sf_tree::Tree;
use sf_view::{View, view_of};
use std::alloc::Global;
use std::io;
use std::str::SplitWhitespace;
use std::thread::Threads;
use test_words::{number32, rect};

/// Prints where one view of a display differs from another.
pub fn changed(rt: &impl Print, alloc: Global, before: &View, view: &View) -> io::Result<()> {
    match dirty(alloc, before, view) {
        Ok(part) => {
            print!(rt; "dirty:")?;
            show::rects(rt, part.rects())
        }
        Err(_) => println!(rt; "dirty: no memory"),
    }
}

/// The points of a display, where its edges lie where a region's may.
fn display(alloc: Global, view: &View) -> Option<Region> {
    let rect = Rect {
        x: 0,
        y: 0,
        width: view.width,
        height: view.height,
    };
    bounded(alloc, rect)
}

/// What shows on the whole display of each drawn layer, from the back.
fn shown_in_all(alloc: Global, view: &View) -> Option<Vec<Region>> {
    let all = display(alloc, view)?;
    visible(alloc, view, &all).ok()
}

/// Prints what shows of each drawn layer, from the back.
pub fn shows(rt: &impl Print, alloc: Global, view: &View) -> io::Result<()> {
    let Some(shown) = shown_in_all(alloc, view) else {
        return println!(rt; "shows: no memory");
    };
    println!(rt; "shows:")?;
    for (drawn, part) in view.drawn.as_slice().iter().zip(shown.as_slice()) {
        print!(rt; "  {}:", drawn.layer.0)?;
        show::rects(rt, part.rects())?;
    }
    Ok(())
}

/// The points of the rectangles that a line says.
fn region(alloc: Global, words: &mut SplitWhitespace<'_>) -> Option<Region> {
    let mut all = Region::empty(alloc);
    for _ in 0..MOST_PARTS {
        let Some(rect) = rect(words) else {
            break;
        };
        all = all.union(&bounded(alloc, rect)?).ok()?;
    }
    Some(all)
}

/// How a line asks that a part is composed.
pub fn part_asked(name: &str, words: &mut SplitWhitespace<'_>) -> Option<Work> {
    match name {
        "part" => Some(Work::Whole),
        "seen" => Some(Work::Seen),
        _ => Some(Work::Parallel(number32(words)?)),
    }
}

/// A frame of sevens after the rectangles that a line says were composed into it.
pub fn part<R: Threads + Sync>(
    composer: &Composer<'_, R>,
    view: &View,
    contents: &[Painted],
    words: &mut SplitWhitespace<'_>,
) -> Option<Vec<u8>> {
    let part = region(composer.alloc, words)?;
    let size = 4 * (view.width as usize * view.height as usize);
    let mut frame = vec![in composer.alloc; 7u8; size].ok()?;
    add(composer, view, contents, &part, &mut frame)?;
    Some(frame)
}

/// How a line asks that frames take turns, and how many: `again` is one turn.
pub fn turns_asked(name: &str, words: &mut SplitWhitespace<'_>) -> Option<(Work, u32)> {
    if name == "again" {
        return Some((Work::Seen, 1));
    }
    let work = match words.next()? {
        "whole" => Work::Whole,
        "again" => Work::Seen,
        workers => Work::Parallel(workers.parse().ok()?),
    };
    Some((work, number32(words)?))
}

/// Composes the frame of a view over that of another: all of it, or where the two differ.
fn turn<R: Threads + Sync>(
    composer: &Composer<'_, R>,
    before: &View,
    view: &View,
    contents: &[Painted],
    frame: &mut Vec<u8>,
) -> Option<()> {
    let part = match composer.work {
        Work::Seen => dirty(composer.alloc, before, view).ok()?,
        Work::Whole | Work::Parallel(_) => display(composer.alloc, view)?,
    };
    add(composer, view, contents, &part, frame)
}

/// The last of so many frames of two views in turns, each composed over the one before it.
pub fn turns<R: Threads + Sync>(
    composer: &Composer<'_, R>,
    count: u32,
    before: &View,
    view: &View,
    contents: &[Painted],
) -> Option<Vec<u8>> {
    let mut frame = whole(composer.alloc, before, contents)?;
    for number in 0..count {
        if number % 2 == 0 {
            turn(composer, before, view, contents, &mut frame)?;
        } else {
            turn(composer, view, before, contents, &mut frame)?;
        }
    }
    Some(frame)
}

/// How many rectangles come of looking so many times at what a display shows of a tree: those of
/// what shows of each layer, and those of where the view differs from one before.
fn marks(alloc: Global, tree: &Tree, before: &Option<View>, count: u32) -> Option<usize> {
    let before = before.as_ref()?;
    let mut total = 0usize;
    for _ in 0..count {
        let view = view_of(alloc, tree, before.width, before.height).ok()?;
        let part = dirty(alloc, before, &view).ok()?;
        let shown = visible(alloc, &view, &part).ok()?;
        total = total
            .saturating_add(part.rects().len())
            .saturating_add(shown.len());
    }
    Some(total)
}

/// Looks so many times, and prints how many rectangles came.
pub fn marked(
    rt: &impl Print,
    alloc: Global,
    tree: &Tree,
    before: &Option<View>,
    count: u32,
) -> io::Result<()> {
    match marks(alloc, tree, before, count) {
        Some(total) => println!(rt; "marks: {total}"),
        None => println!(rt; "marks: nothing to show"),
    }
}
