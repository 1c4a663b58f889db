//! The public type: a set of pixels in canonical bands, with its operations. Damage and composing
//! speak of these.
ghost use Rattle.std.specs.Prelude.{◌≡◌, ℤ, ◌+ℤ◌, ◌&&◌, ◌||◌};
ghost use Rattle.std.specs.Prelude.{not, true, ◌↔◌, ◌≤◌, IsTrue, List, [], map, All, IfOk, length, take};
ghost use Rattle.sf_region.specs.Canonical.{IsCanonical, IsDisjoint};
ghost use Rattle.sf_base.specs.Geometry.{covers};
ghost use Rattle.sf_region.specs.Points.{has, moved, IsInBounds, StaysInBounds};
ghost use Rattle.sf_region.specs.Spans.{keeps};
ghost use Rattle.sf_base.specs.declared.geometry.Rect.{Rect};

use crate::combine::Combine;
use crate::hole::combine_bands;
use crate::meeting::next_meeting;
use sf_base::{NoMemory, Rect};
use std::alloc::Global;
use std::marker::Model;

/// A set of pixels, as disjoint rectangles in bands.
///
/// A rectangle covers the pixels from `x` up to, and without, `x + width`, and the rows likewise;
/// its edges lie within 2^25 of 0. The rectangles are canonical: they go in bands from top to
/// bottom, within a band from left to right with gaps between them, and two bands that touch
/// differ. So equal sets have equal lists, and an operation passes once over the bands of both.
pub struct Region {
    alloc: Global,
    rects: Vec<Rect>,
}

impl Model for Region {
    ghost Value = { List Rect };

    ghost view = { λ r. r.rects.items };

    ghost invariant = { λ r. IsCanonical r.rects.items };
}

impl Region {
    /// The empty set. Takes no memory.
    pub fn empty(alloc: Global) -> Region
        ensures { result ≡ [] }
    {
        Region {
            alloc,
            rects: Vec::new(alloc),
        }
    }

    /// The pixels of one rectangle; the empty set where its width or height is 0.
    pub fn rect(alloc: Global, rect: Rect) -> Result<Region, NoMemory>
        requires { IsInBounds rect }
        ensures { IfOk result (λ region. (x y : ℤ) → has region x y ≡ covers rect x y) }
    {
        if rect.width == 0 || rect.height == 0 {
            return Ok(Region::empty(alloc));
        }
        let mut rects = Vec::new(alloc);
        rects.push(rect)?;
        Ok(Region { alloc, rects })
    }

    /// The pixels that are in either set.
    pub fn union(&self, other: &Region) -> Result<Region, NoMemory>
        ensures { IfOk result (λ region. (x y : ℤ)
            → has region x y ≡ (has self.now x y || has other.now x y)) }
    {
        self.combine(other, Combine::Union)
    }

    /// The pixels that are in this set and not in the other.
    pub fn subtract(&self, other: &Region) -> Result<Region, NoMemory>
        ensures { IfOk result (λ region. (x y : ℤ)
            → has region x y ≡ (has self.now x y && not (has other.now x y))) }
    {
        self.combine(other, Combine::Subtract)
    }

    /// The pixels that are in both sets.
    pub fn intersect(&self, other: &Region) -> Result<Region, NoMemory>
        ensures { IfOk result (λ region. (x y : ℤ)
            → has region x y ≡ (has self.now x y && has other.now x y)) }
    {
        self.combine(other, Combine::Intersect)
    }

    /// The union, the intersection or the difference of two regions.
    fn combine(&self, other: &Region, how: Combine) -> Result<Region, NoMemory>
        ensures { IfOk result (λ region. (x y : ℤ)
            → has region x y ≡ keeps how (has self.now x y) (has other.now x y)) }
    {
        let rects = combine_bands(self.alloc, &self.rects, &other.rects, how)?;
        Ok(Region {
            alloc: self.alloc,
            rects,
        })
    }

    /// The set moved by `dx` pixels to the right and `dy` down.
    ///
    /// The moved pixels are to lie within 2^25 of 0, too.
    pub fn translate(&self, dx: i32, dy: i32) -> Result<Region, NoMemory>
        requires { StaysInBounds dx dy self.now }
        ensures points { IfOk result (λ region. (x y : ℤ)
            → has region (x +ℤ dx) (y +ℤ dy) ≡ has self.now x y) }
        ensures rects { IfOk result (λ region. region ≡ map (moved dx dy) self.now) }
    {
        let rects = moved_rects(self.alloc, &self.rects, dx, dy)?;
        Ok(Region {
            alloc: self.alloc,
            rects,
        })
    }

    /// Whether a pixel is in the set. Takes no memory.
    pub fn contains(&self, x: i32, y: i32) -> bool
        ensures { result ≡ has self.now x y }
    {
        self.rects.iter().any(|rect| rect.covers(x, y))
    }

    /// Whether both are the same set of pixels. Takes no memory.
    ///
    /// Equal sets have equal lists of rectangles, so it compares the lists.
    pub fn is_same(&self, other: &Region) -> bool
        ensures same { IsTrue result ↔ ((x y : ℤ) → has self.now x y ≡ has other.now x y) }
        ensures canonical { ((x y : ℤ) → has self.now x y ≡ has other.now x y) → self.now ≡ other.now }
    {
        self.rects.as_slice() == other.rects.as_slice()
    }

    /// The index of the first rectangle, from one on, that shares a point with another one, or how many
    /// there are. It takes steps as often as the rectangles can be halved, for each band that the other
    /// one meets. Takes no memory.
    pub fn next_meeting(&self, from: usize, rect: &Rect) -> usize
        requires near { IsInBounds rect.now }
        requires within { from ≤ length self.now }
        ensures from { from ≤ result }
        ensures within { result ≤ length self.now }
        ensures same { (x y : ℤ) → covers rect.now x y ≡ true → has (take result self.now) x y ≡ has (take from self.now) x y }
    {
        next_meeting(&self.rects, from, rect)
    }

    /// The rectangles, in their order. Takes no memory.
    pub fn rects(&self) -> &[Rect]
        ensures same { result.now ≡ self.now }
        ensures canonical { IsCanonical result.now }
        ensures disjoint { IsDisjoint result.now }
    {
        &self.rects
    }
}

/// The rectangles, each moved.
fn moved_rects(alloc: Global, rects: &[Rect], dx: i32, dy: i32) -> Result<Vec<Rect>, NoMemory>
    requires { All (λ r. IsInBounds (moved dx dy r)) rects.now }
    ensures { IfOk result (λ v. v.items ≡ map (moved dx dy) rects.now) }
{
    let mut all = Vec::new(alloc);
    for rect in rects {
        all.push(moved_by(rect, dx, dy))?;
    }
    Ok(all)
}

/// The rectangle, moved.
#[tactic(auto, unfolding(crate::specs::Points::moved))]
fn moved_by(rect: &Rect, dx: i32, dy: i32) -> Rect
    requires { IsInBounds (moved dx dy rect.now) }
    ensures { result ≡ moved dx dy rect.now }
{
    Rect {
        x: rect.x + dx,
        y: rect.y + dy,
        width: rect.width,
        height: rect.height,
    }
}

impl Drop for Region {
    fn drop(self) {
        let Region { alloc: _, rects: _ } = self;
    }
}
