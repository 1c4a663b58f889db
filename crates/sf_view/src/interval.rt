//! The pixels of a row or a column between two edges, by which crops are cut.
ghost use Rattle.std.specs.Prelude.{◌≡◌, ◌&&◌, ℤ, pos, ◌≤◌, ◌≤ℤ◌, ◌+ℤ◌};
ghost use Rattle.sf_base.specs.Geometry.{is_within};
ghost use Rattle.sf_view.specs.inner.Intervals.{is_in_interval, HasExtent};

// The pixels of a row or a column from one on and before another: none, where the other is not
// greater.
#[derive(Clone, Copy)]
pub struct Interval {
    pub from: i32,
    pub to: i32,
}

impl Interval {
    /// The pixels of this interval that are also among so many from a start on.
    #[tactic(auto, using(crate::proofs::IntervalLemmas::intervals))]
    pub fn cut(self, start: i32, extent: u32) -> Interval
        requires end { (start +ℤ pos extent) ≤ℤ pos 2147483647 }
        requires extent { extent ≤ 2147483647 }
        ensures points { (at : ℤ) → is_in_interval result at ≡ (is_in_interval self at && is_within start extent at) }
        ensures from { self.from ≤ℤ result.from }
        ensures to { result.to ≤ℤ self.to }
    {
        Interval {
            from: self.from.max(start),
            to: self.to.min(end_of(start, extent)),
        }
    }

    /// How many pixels it has.
    pub fn extent(self) -> u32
        requires low { pos 0 ≤ℤ self.from }
        ensures { HasExtent self result }
    {
        if self.from < self.to {
            (self.to - self.from) as u32
        } else {
            0
        }
    }
}

/// The first pixel after so many from a start on.
fn end_of(start: i32, extent: u32) -> i32
    requires end { (start +ℤ pos extent) ≤ℤ pos 2147483647 }
    requires extent { extent ≤ 2147483647 }
    ensures { result ≡ start +ℤ pos extent }
{
    start + extent as i32
}
