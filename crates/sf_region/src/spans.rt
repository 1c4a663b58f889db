//! Combines the spans of two rows, from left to right in one pass.
ghost use Rattle.std.specs.Prelude.{◌≡◌, ℕ, ◌<◌, ◌≤◌, OnOk, IfOk};
ghost use Rattle.sf_region.specs.Edges.{past_all};
ghost use Rattle.sf_region.specs.Spans.{on, keeps, IsSpread, IsAhead, next_done, next_open};

use crate::combine::Combine;
use sf_base::NoMemory;

/// The least offset of an edge.
pub const FIRST_PLACE: u32 = 33554432;

/// The greatest offset of an edge.
pub const PAST_ALL: u32 = 100663296;

/// The offsets of a row from `start` up to, and without, `end`.
#[derive(Clone, Copy, PartialEq, Eq)]
pub struct Span {
    pub start: u32,
    pub end: u32,
}

/// Combines two rows of spans into `out`, from left to right in one pass over both.
pub fn combine_spans(
    out: &mut Vec<Span>,
    first: &[Span],
    second: &[Span],
    how: Combine,
) -> Result<(), NoMemory>
    requires first { IsSpread first.now }
    requires second { IsSpread second.now }
    ensures spread { OnOk result (IsSpread out.new.items) }
    ensures kept { OnOk result ((x : ℕ)
        → on out.new.items x ≡ keeps how (on first.now x) (on second.now x)) }
{
    out.clear();
    let mut first = first;
    let mut second = second;
    let mut began = None;
    let mut x = FIRST_PLACE;
    while x < PAST_ALL {
        let inside = how.keeps(is_inside(first, x), is_inside(second, x));
        let next = next_edge(first, x).min(next_edge(second, x));
        began = turn(out, began, inside, x)?;
        first = past(first, next);
        second = past(second, next);
        x = next;
    }
    let _ = turn(out, began, false, x)?;
    Ok(())
}

/// Begins or ends a span where a row changes, and says where the span began that is drawn on.
fn turn(
    out: &mut Vec<Span>,
    began: Option<u32>,
    inside: bool,
    x: u32,
) -> Result<Option<u32>, NoMemory>
    ensures done { OnOk result (out.new.items ≡ next_done out.old.items began inside x) }
    ensures began { IfOk result (λ next. next ≡ next_open began inside x) }
{
    match (began, inside) {
        (None, true) => Ok(Some(x)),
        (Some(start), false) => {
            out.push(Span { start, end: x })?;
            Ok(None)
        }
        _ => Ok(began),
    }
}

/// Whether an offset is in one of the spans, of which the first ends after it.
fn is_inside(spans: &[Span], x: u32) -> bool
    requires { IsAhead spans.now x }
    ensures { result ≡ on spans.now x }
{
    match spans {
        [first, ..] => first.start <= x,
        [] => false,
    }
}

/// The next offset where the spans change, of which the first ends after this one.
fn next_edge(spans: &[Span], x: u32) -> u32
    requires ahead { IsAhead spans.now x }
    requires within { x < past_all }
    ensures later { x < result }
    ensures within { result ≤ past_all }
    ensures same { (p : ℕ) → x ≤ p → p < result → on spans.now p ≡ on spans.now x }
{
    match spans {
        [first, ..] => {
            if x < first.start {
                first.start
            } else {
                first.end
            }
        }
        [] => PAST_ALL,
    }
}

/// The spans without those that end at an offset or before it.
fn past(spans: &[Span], x: u32) -> &[Span]
    requires { IsSpread spans.now }
    ensures ahead { IsAhead result.now x }
    ensures same { (p : ℕ) → x ≤ p → on result.now p ≡ on spans.now p }
{
    let mut rest = spans;
    while let [first, after @ ..] = rest {
        if first.end > x {
            break;
        }
        rest = after;
    }
    rest
}
