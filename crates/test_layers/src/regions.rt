//! Regions on a stack, set operations on the upper two, and what is asked of the uppermost.
ghost use Rattle.std.specs.Prelude.{IsTrue, pos, ◌+ℤ◌, ◌-ℤ◌, ◌≤ℤ◌};
ghost use Rattle.sf_region.specs.Points.{IsInBounds, moved};

use crate::answer::Answer;
use crate::made::Made;
use sf_base::{NoMemory, Rect};
use sf_region::Region;
use std::alloc::Global;
use std::str::SplitWhitespace;
use test_words::{coordinate, named, rect};

const FAR: i64 = 33554432;

/// How a region is made of two.
#[derive(Clone, Copy)]
enum Combine {
    Union,
    Intersect,
    Subtract,
}

/// What is asked of regions.
#[derive(Clone, Copy)]
enum Ask {
    Same,
    Point,
    Rects,
}

/// What a word asks for.
#[derive(Clone, Copy)]
enum Form {
    Empty,
    Rect,
    Moved,
    Combine(Combine),
    Ask(Ask),
}

/// The words of regions.
const FORMS: &[(&str, Form)] = &[
    ("empty", Form::Empty),
    ("rect", Form::Rect),
    ("moved", Form::Moved),
    ("union", Form::Combine(Combine::Union)),
    ("intersect", Form::Combine(Combine::Intersect)),
    ("subtract", Form::Combine(Combine::Subtract)),
    ("same", Form::Ask(Ask::Same)),
    ("point", Form::Ask(Ask::Point)),
    ("rects", Form::Ask(Ask::Rects)),
];

/// What comes of the upper two, which are taken.
fn combined(regions: &mut Vec<Region>, by: Combine) -> Option<Region> {
    let second = regions.pop()?;
    let first = regions.pop()?;
    let region = match by {
        Combine::Union => first.union(&second),
        Combine::Intersect => first.intersect(&second),
        Combine::Subtract => first.subtract(&second),
    };
    region.ok()
}

/// Whether the upper two, which are taken, are the same; whether the uppermost has a point, or its
/// rectangles.
fn asked(
    alloc: Global,
    regions: &mut Vec<Region>,
    what: Ask,
    words: &mut SplitWhitespace<'_>,
) -> Option<Answer> {
    match what {
        Ask::Same => {
            let second = regions.pop()?;
            Some(Answer::Is(regions.pop()?.is_same(&second)))
        }
        Ask::Point => {
            let (x, y) = (coordinate(words)?, coordinate(words)?);
            Some(Answer::Is(regions.last()?.contains(x, y)))
        }
        Ask::Rects => {
            let rects = regions.last()?.rects();
            Some(Answer::Rects(Vec::from_slice(alloc, rects).ok()?))
        }
    }
}

impl Made {
    /// Does what a line says of regions. None where it can't be done.
    pub fn region(&mut self, word: &str, words: &mut SplitWhitespace<'_>) -> Option<Answer> {
        let region = match named(FORMS, word)? {
            Form::Empty => Region::empty(self.alloc),
            Form::Rect => bounded(self.alloc, rect(words)?)?,
            Form::Moved => moved_rect(self.alloc, words)?,
            Form::Combine(by) => combined(&mut self.regions, by)?,
            Form::Ask(what) => return asked(self.alloc, &mut self.regions, what, words),
        };
        self.regions.push(region).ok()?;
        Some(Answer::Done)
    }
}

/// Whether so many coordinates from a start on lie within 2^25 of 0.
fn is_span_in_bounds(start: i64, extent: u32) -> bool
    ensures { IsTrue result → ((pos 0 -ℤ pos 33554432) ≤ℤ start) × ((start +ℤ pos extent) ≤ℤ pos 33554432) }
{
    -FAR <= start && start <= FAR && start + i64::from(extent) <= FAR
}

/// Whether a rectangle lies within the bounds that regions demand.
fn is_in_bounds(rect: &Rect) -> bool
    ensures { IsTrue result → IsInBounds rect.now }
{
    is_span_in_bounds(i64::from(rect.x), rect.width)
        && is_span_in_bounds(i64::from(rect.y), rect.height)
}

/// Whether it does so when it is moved.
#[tactic(auto, unfolding(sf_region::specs::Points::moved))]
fn stays_in_bounds(rect: &Rect, dx: i32, dy: i32) -> bool
    ensures { IsTrue result → IsInBounds (moved dx dy rect.now) }
{
    is_span_in_bounds(i64::from(rect.x) + i64::from(dx), rect.width)
        && is_span_in_bounds(i64::from(rect.y) + i64::from(dy), rect.height)
}

/// The region of a rectangle, where its edges lie where a region's may.
pub fn bounded(alloc: Global, rect: Rect) -> Option<Region> {
    if is_in_bounds(&rect) {
        Region::rect(alloc, rect).ok()
    } else {
        None
    }
}

/// The region of a rectangle, moved.
fn translated(alloc: Global, rect: Rect, dx: i32, dy: i32) -> Result<Region, NoMemory>
    requires near { IsInBounds rect }
    requires moved { IsInBounds (moved dx dy rect) }
{
    Region::rect(alloc, rect)?.translate(dx, dy)
}

/// The region of the rectangle that a line says, moved as it says.
fn moved_rect(alloc: Global, words: &mut SplitWhitespace<'_>) -> Option<Region> {
    let rect = rect(words)?;
    let (dx, dy) = (coordinate(words)?, coordinate(words)?);
    if is_in_bounds(&rect) && stays_in_bounds(&rect, dx, dy) {
        translated(alloc, rect, dx, dy).ok()
    } else {
        None
    }
}
