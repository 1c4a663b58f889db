//! Composes what a line asks for, by the ways that there are to compose a part of a frame.
ghost use Rattle.std.specs.List.{AllZip};
ghost use Rattle.std.specs.Prelude.{◌≡◌, ◌≤◌, IfSome, IsTrue};
ghost use Rattle.sf_base.specs.Geometry.{IsWithin, LiesWithin};
ghost use Rattle.sf_compose.specs.Readings.{IsReadable};

use sf_base::{Format, Items, Rect};
use sf_compose::{compose, compose_frame, compose_one, compose_seen};
use sf_damage::visible;
use sf_picture::{Fill, Painted, Picture, paint};
use sf_region::Region;
use sf_view::{Content, Drawn, View};
use std::alloc::Global;
use std::str::SplitWhitespace;
use std::thread::Threads;
use test_words::{colour, is_buffer_size, number32, rect};

/// How many fills or rectangles a line has at most.
pub const MOST_PARTS: u32 = 64;

/// How a part is composed into a frame.
#[derive(Clone, Copy)]
pub enum Work {
    /// By one, of each layer all of it.
    Whole,
    /// By so many workers.
    Parallel(u32),
    /// Of each layer only what shows.
    Seen,
}

/// The fills that a line says.
fn fills(alloc: Global, words: &mut SplitWhitespace<'_>) -> Option<Vec<Fill>> {
    let mut list = Vec::new(alloc);
    for _ in 0..MOST_PARTS {
        let Some(rect) = rect(words) else {
            break;
        };
        let colour = colour(words)?;
        list.push(Fill { rect, colour }).ok()?;
    }
    Some(list)
}

/// A picture of this width, and of the height and with the fills that a line says.
pub fn painted(
    alloc: Global,
    number: usize,
    width: u32,
    words: &mut SplitWhitespace<'_>,
) -> Option<Painted> {
    let height = number32(words)?;
    if !is_buffer_size(width, height) {
        return None;
    }
    let picture = Picture {
        number: u32::try_from(number).ok()?,
        width,
        height,
        fills: Items::new(fills(alloc, words)?),
        format: Format::Rgba,
    };
    paint(alloc, picture).ok()
}

/// Whether so many pixels from one on lie within a size.
fn is_within(from: i32, extent: u32, size: u32) -> bool
    ensures { IsTrue result → IsWithin from extent size }
{
    0 <= from && i64::from(from) + i64::from(extent) <= i64::from(size)
}

/// Whether a rectangle lies in a picture.
fn lies_in(picture: &Picture, rect: &Rect) -> bool
    ensures { IsTrue result → LiesWithin rect.now picture.now.width picture.now.height }
{
    is_within(rect.x, rect.width, picture.width) && is_within(rect.y, rect.height, picture.height)
}

/// Where the pictures have what a layer shows: a buffer's is that of its number.
fn source(content: &Content, contents: &[Painted]) -> Option<u32>
    ensures { IfSome result (IsReadable contents.now content.now) }
{
    match content {
        Content::Colour(_) => Some(0),
        Content::Buffer(shown) => {
            let place = shown.picture as usize;
            if place < contents.len() && lies_in(contents[place].picture(), &shown.crop) {
                Some(shown.picture)
            } else {
                None
            }
        }
    }
}

/// For each drawn layer the number of its picture among the contents, 0 for a colour; None where
/// one is missing.
fn sources(alloc: Global, drawn: &[Drawn], contents: &[Painted]) -> Option<Vec<u32>>
    ensures { IfSome result (λ list. AllZip (λ drawn source. IsReadable contents.now drawn.content source) drawn.now list.items) }
{
    let mut list = Vec::new(alloc);
    for layer in drawn {
        let Some(place) = source(&layer.content, contents) else {
            return None;
        };
        match list.push(place) {
            Ok(()) => {}
            Err(_) => return None,
        }
    }
    Some(list)
}

/// The bytes of a view's frame.
pub fn whole(alloc: Global, view: &View, contents: &[Painted]) -> Option<Vec<u8>> {
    let Some(sources) = sources(alloc, view.drawn.as_slice(), contents) else {
        return None;
    };
    compose_frame(alloc, view, contents, &sources).ok()
}

/// With what a part is composed, and how.
#[derive(Drop)]
pub struct Composer<'a, R> {
    pub rt: &'a R,
    pub alloc: Global,
    pub work: Work,
}

/// Composes a part into a frame.
pub fn add<R: Threads + Sync>(
    composer: &Composer<'_, R>,
    view: &View,
    contents: &[Painted],
    part: &Region,
    frame: &mut Vec<u8>,
) -> Option<()> {
    let Some(sources) = sources(composer.alloc, view.drawn.as_slice(), contents) else {
        return None;
    };
    if frame.len() != 4 * (view.width as usize * view.height as usize) {
        return None;
    }
    match composer.work {
        Work::Whole => compose_one(view, contents, &sources, part, frame).ok(),
        Work::Parallel(workers) => {
            if workers < 1 || workers > 16 {
                return None;
            }
            compose(composer.rt, workers, view, contents, &sources, part, frame).ok()
        }
        Work::Seen => {
            let Ok(shown) = visible(composer.alloc, view, part) else {
                return None;
            };
            compose_seen(view, contents, &sources, &shown, part, frame).ok()
        }
    }
}
