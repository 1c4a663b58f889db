//! Fences, as sets of points of timelines, and what was seen of the timelines: a step waits by
//! these, and a vsync is decided by them.
ghost use Rattle.std.specs.Prelude.{◌≡◌, ◌≤◌, ◌<◌, ◌↔◌, IsNone, IsTrue, OnOk, OnErr, IfOk, length, max, slice_set, ◌-◌};
ghost use Rattle.sf_base.specs.Fences.{IsFirstOpen, IsSignalled, SignalledTogether, SignalledWith, fence_from, greater_of_each, merged, no_points, value_of, with_point};

use crate::{NoMemory, TimelineId};
use std::alloc::Global;
use std::marker::Model;

/// What was observed of the timelines: the value of timeline t stands at t - 1.
#[derive(Clone, Copy)]
pub struct Seen {
    pub values: [u64; 64],
}

/// Of each timeline the greatest value: that of timeline t stands at t - 1, and 0 means that the
/// timeline has no point.
#[derive(Clone, Copy)]
struct Points {
    values: [u64; 64],
}

/// Raises the value of a timeline to at least this one.
fn raise(points: &mut Points, t: TimelineId, v: u64)
    requires { (1 ≤ t.0) × (t.0 ≤ 64) }
    ensures raised { points.new.values ≡ slice_set points.old.values (t.0 - 1) (max (value_of points.old.values t.0) v) }
    ensures sized { length points.new.values ≡ 64 }
{
    let index = t.0 as usize - 1;
    points.values[index] = points.values[index].max(v);
}

/// Raises the value of each timeline to at least that of other points.
fn raise_all(points: &mut Points, other: &Points)
    ensures raised { points.new.values ≡ greater_of_each points.old.values other.now.values }
    ensures sized { length points.new.values ≡ 64 }
{
    for index in 0..64 {
        points.values[index] = points.values[index].max(other.values[index]);
    }
}

/// The lowest timeline whose value is above what was observed, with its value.
fn first_above(points: &Points, seen: &Seen) -> Option<(TimelineId, u64)>
    ensures signalled { IsNone result ↔ IsSignalled (fence_from points.now.values) seen.now }
    ensures lowest { IsFirstOpen (fence_from points.now.values) seen.now result }
{
    for index in 0..64 {
        if points.values[index] > seen.values[index] {
            return Some((TimelineId(index as u32 + 1), points.values[index]));
        }
    }
    None
}

/// A fence, that is, a set of points of timelines. Of each timeline the greatest value is kept. A
/// fence without points takes no memory. Contracts see the values of all timelines.
#[derive(Drop)]
pub struct Fence {
    points: Option<Box<Points>>,
}

impl Model for Fence {
    ghost use Rattle.sf_base.specs.Fences.{Fence};
    ghost use Rattle.sf_base.specs.Kept.{HasPlaces, fence_of};

    ghost Value = { Fence };

    ghost view = { λ f. fence_of f.points };

    ghost invariant = { λ f. HasPlaces (fence_of f.points) };
}

impl Fence {
    /// The empty fence, which is signalled.
    pub fn none() -> Fence
        ensures { result ≡ no_points }
    {
        Fence { points: None }
    }

    /// An equal fence.
    pub fn copy(&self, alloc: Global) -> Result<Fence, NoMemory>
        ensures { IfOk result (λ copy. copy ≡ self.now) }
    {
        match &self.points {
            Some(points) => Ok(Fence {
                points: Some(Box::new(alloc, *points.as_ref())?),
            }),
            None => Ok(Fence::none()),
        }
    }

    /// Adds a point. A point of value 0 is signalled from the start, and changes nothing. Of a
    /// timeline, which is 1 to 64, the greatest value is kept.
    pub fn add(&mut self, alloc: Global, t: TimelineId, v: u64) -> Result<(), NoMemory>
        requires { (1 ≤ t.0) × (t.0 ≤ 64) }
        ensures exact { OnOk result (self.new ≡ with_point self.old t.0 v) }
        ensures signalled { OnOk result (SignalledWith self.new self.old t.0 v) }
        ensures unchanged { OnErr result (self.new ≡ self.old) }
    {
        match &mut self.points {
            Some(points) => raise(points.as_mut(), t, v),
            None if v == 0 => {}
            None => {
                let mut points = Points { values: [0; 64] };
                raise(&mut points, t, v);
                self.points = Some(Box::new(alloc, points)?);
            }
        }
        Ok(())
    }

    /// Adds the points of another fence. The merge is signalled exactly where both are.
    pub fn merge(&mut self, alloc: Global, other: &Fence) -> Result<(), NoMemory>
        ensures exact { OnOk result (self.new ≡ merged self.old other.now) }
        ensures signalled { OnOk result (SignalledTogether self.new self.old other.now) }
        ensures unchanged { OnErr result (self.new ≡ self.old) }
    {
        let _ = &self.points;
        let Some(points) = &other.points else {
            return Ok(());
        };
        match &mut self.points {
            Some(own) => raise_all(own.as_mut(), points.as_ref()),
            None => self.points = Some(Box::new(alloc, *points.as_ref())?),
        }
        Ok(())
    }

    /// Whether the fence has no points. Each of the 64 timelines has a value.
    pub fn is_none(&self) -> bool
        ensures none { IsTrue result → self.now ≡ no_points }
        ensures places { length self.now.values ≡ 64 }
    {
        self.points.is_none()
    }

    /// The value of a timeline, which is 1 to 64, or 0 where it has no point.
    pub fn value(&self, t: TimelineId) -> u64
        requires { (1 ≤ t.0) × (t.0 ≤ 64) }
        ensures { result ≡ value_of self.now.values t.0 }
    {
        match &self.points {
            Some(points) => points.values[t.0 as usize - 1],
            None => 0,
        }
    }

    /// The lowest timeline with a point that is not signalled under what was observed, and the
    /// value that it waits for. None exactly where the fence is signalled.
    pub fn first_open(&self, seen: &Seen) -> Option<(TimelineId, u64)>
        ensures signalled { IsNone result ↔ IsSignalled self.now seen.now }
        ensures lowest { IsFirstOpen self.now seen.now result }
    {
        match &self.points {
            Some(points) => first_above(points.as_ref(), seen),
            None => None,
        }
    }
}
