//! The bands of a region that meet one row.
ghost use Rattle.std.specs.Prelude.{◌≡◌, ℕ, ◌<◌, ◌≤◌, OnOk};
ghost use Rattle.sf_region.specs.inner.Bands.{IsAheadRows};
ghost use Rattle.sf_region.specs.Canonical.{IsBanded};
ghost use Rattle.sf_region.specs.Edges.{past_all};
ghost use Rattle.sf_region.specs.Spans.{row};

use crate::edges::{bottom_of, span_of, top_of};
use crate::spans::{PAST_ALL, Span};
use sf_base::{NoMemory, Rect};

/// Puts the spans of a row into `spans`, from bands of which the first ends below it.
pub fn fill_row(rects: &[Rect], y: u32, spans: &mut Vec<Span>) -> Result<(), NoMemory>
    requires { IsAheadRows rects.now y }
    ensures { OnOk result (spans.new.items ≡ row rects.now y) }
{
    spans.clear();
    let mut rest = rects;
    while let [rect, after @ ..] = rest {
        if top_of(rect) > y {
            break;
        }
        spans.push(span_of(rect))?;
        rest = after;
    }
    Ok(())
}

/// The next row at which bands change, of which the first ends below this one.
pub fn next_row(rects: &[Rect], y: u32) -> u32
    requires ahead { IsAheadRows rects.now y }
    requires within { y < past_all }
    ensures later { y < result }
    ensures within { result ≤ past_all }
    ensures same { (p : ℕ) → y ≤ p → p < result → row rects.now p ≡ row rects.now y }
{
    match rects {
        [first, ..] => {
            let top = top_of(first);
            if y < top { top } else { bottom_of(first) }
        }
        [] => PAST_ALL,
    }
}

/// The bands without those that end at a row or above it.
pub fn past_rows(rects: &[Rect], y: u32) -> &[Rect]
    requires { IsBanded rects.now }
    ensures ahead { IsAheadRows result.now y }
    ensures same { (p : ℕ) → y ≤ p → row result.now p ≡ row rects.now p }
{
    let mut rest = rects;
    while let [first, after @ ..] = rest {
        if bottom_of(first) > y {
            break;
        }
        rest = after;
    }
    rest
}
