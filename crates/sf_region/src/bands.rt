//! Combines two regions band by band, in one pass from top to bottom: what union, difference and
//! intersection are made of.
ghost use Rattle.std.specs.Prelude.{◌≡◌, ◌++◌, ℕ, ◌<◌, ◌≤◌, OnOk, IfOk, []};
ghost use Rattle.sf_region.specs.inner.Bands.{Turned};
ghost use Rattle.sf_region.specs.Canonical.{IsBanded, IsCanonical};
ghost use Rattle.sf_region.specs.Edges.{past_all};
ghost use Rattle.sf_region.specs.Spans.{on, keeps, row, rects_of, IsSpread};

use crate::combine::Combine;
use crate::edges::rect_from;
use crate::rows::{fill_row, next_row, past_rows};
use crate::spans::{FIRST_PLACE, PAST_ALL, Span, combine_spans};
use sf_base::{NoMemory, Rect};
use std::alloc::Global;
use std::mem;

/// The bands that are done, and the row that is drawn on from `top`.
#[derive(Drop)]
struct Bands {
    rects: Vec<Rect>,
    row: Vec<Span>,
    top: u32,
}

impl Bands {
    /// Ends the band of the row that is drawn on, above this height.
    fn close(&mut self, y: u32) -> Result<(), NoMemory>
        requires spread { IsSpread self.old.row.items }
        requires drawn { self.old.top < y }
        requires within { y ≤ past_all }
        ensures rects { OnOk result (self.new.rects.items
            ≡ self.old.rects.items ++ rects_of self.old.row.items self.old.top y) }
        ensures row { self.new.row ≡ self.old.row }
        ensures top { self.new.top ≡ self.old.top }
    {
        push_rects(&mut self.rects, &self.row, self.top, y)
    }

    /// Draws another row from this height on, unless it is the one that is drawn already.
    fn turn(&mut self, row: &mut Vec<Span>, y: u32) -> Result<(), NoMemory>
        requires spread { IsSpread self.old.row.items }
        requires drawn { self.old.top < y }
        requires within { y ≤ past_all }
        ensures { OnOk result (Turned self.old.rects.items self.old.row.items self.old.top row.old.items y
            self.new.rects.items self.new.row.items self.new.top) }
    {
        if row.as_slice() == self.row.as_slice() {
            return Ok(());
        }
        self.close(y)?;
        mem::swap(row, &mut self.row);
        self.top = y;
        Ok(())
    }
}

/// Appends the rectangles of a row, from one height down to another.
fn push_rects(rects: &mut Vec<Rect>, spans: &[Span], from: u32, to: u32) -> Result<(), NoMemory>
    requires spread { IsSpread spans.now }
    requires high { from < to }
    requires within { to ≤ past_all }
    ensures { OnOk result (rects.new.items ≡ rects.old.items ++ rects_of spans.now from to) }
{
    for span in spans {
        rects.push(rect_from(*span, from, to))?;
    }
    Ok(())
}

/// Combines two regions, from top to bottom in one pass over both.
pub fn combine_rects(
    alloc: Global,
    first: &[Rect],
    second: &[Rect],
    how: Combine,
) -> Result<Vec<Rect>, NoMemory>
    requires first { IsBanded first.now }
    requires second { IsBanded second.now }
    ensures canonical { IfOk result (λ rects. IsCanonical rects.items) }
    ensures kept { IfOk result (λ rects. (x y : ℕ)
        → on (row rects.items y) x
        ≡ keeps how (on (row first.now y) x) (on (row second.now y) x)) }
{
    let mut first = first;
    let mut second = second;
    let mut first_row = Vec::new(alloc);
    let mut second_row = Vec::new(alloc);
    let mut next_spans = Vec::new(alloc);
    let mut bands = Bands {
        rects: Vec::new(alloc),
        row: Vec::new(alloc),
        top: FIRST_PLACE - 1,
    };
    let mut y = FIRST_PLACE;
    while y < PAST_ALL {
        fill_row(first, y, &mut first_row)?;
        fill_row(second, y, &mut second_row)?;
        combine_spans(&mut next_spans, &first_row, &second_row, how)?;
        bands.turn(&mut next_spans, y)?;
        let next = next_row(first, y).min(next_row(second, y));
        first = past_rows(first, next);
        second = past_rows(second, next);
        y = next;
    }
    bands.close(y)?;
    let Bands {
        rects,
        row: _,
        top: _,
    } = bands;
    Ok(rects)
}
