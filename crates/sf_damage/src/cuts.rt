//! Where a window is cut in two: at the edge of a clip that lies nearest to its middle.
ghost use Rattle.std.specs.Prelude.{◌≡◌, ◌≤◌, ◌≤ℤ◌, ◌+ℤ◌, pos};
ghost use Rattle.sf_damage.specs.Damage.{AreHalves};
ghost use Rattle.sf_region.specs.Points.{IsInBounds, far, neg_far};

use crate::parts::end_of;
use sf_base::Rect;
use sf_view::Drawn;

/// How far a place is from the middle of an extent, twice.
fn from_middle(extent: u32, place: u32) -> u64 {
    (u64::from(place) * 2).abs_diff(u64::from(extent))
}

/// Of two places the one nearer to the middle of an extent; the second one only where it lies within.
fn nearer(extent: u32, best: u32, place: i64) -> u32
    requires { best ≤ extent }
    ensures { result ≤ extent }
{
    if place <= 0 || place >= i64::from(extent) {
        return best;
    }
    let place = place as u32;
    if from_middle(extent, place) < from_middle(extent, best) {
        place
    } else {
        best
    }
}

/// Of the left and right edges of clips in a window, and of one column of it, the one nearest to its middle.
fn column_of(layers: &[Drawn], window: &Rect, first: u32) -> u32
    requires { first ≤ window.now.width }
    ensures { result ≤ window.now.width }
{
    let start = i64::from(window.x);
    let mut best = first;
    for drawn in layers {
        let clip = &drawn.clip;
        best = nearer(window.width, best, i64::from(clip.x) - start);
        best = nearer(window.width, best, end_of(clip.x, clip.width) - start);
    }
    best
}

/// Of the upper and lower edges of clips in a window, and of one row of it, the one nearest to its middle.
fn row_of(layers: &[Drawn], window: &Rect, first: u32) -> u32
    requires { first ≤ window.now.height }
    ensures { result ≤ window.now.height }
{
    let start = i64::from(window.y);
    let mut best = first;
    for drawn in layers {
        let clip = &drawn.clip;
        best = nearer(window.height, best, i64::from(clip.y) - start);
        best = nearer(window.height, best, end_of(clip.y, clip.height) - start);
    }
    best
}

/// The coordinate that is so many behind another.
fn behind(start: i32, many: u32) -> i32
    requires from { neg_far ≤ℤ start }
    requires to { (start +ℤ pos many) ≤ℤ far }
    ensures { result ≡ (start +ℤ pos many) }
{
    start + many as i32
}

/// A window in two, left and right of a column.
fn at_column(window: &Rect, column: u32) -> (Rect, Rect)
    requires near { IsInBounds window.now }
    requires inside { column ≤ window.now.width }
    ensures { AreHalves window.now result }
{
    let start = behind(window.x, column);
    (
        Rect {
            width: column,
            ..*window
        },
        Rect {
            x: start,
            width: window.width - column,
            ..*window
        },
    )
}

/// A window in two, above and below a row.
fn at_row(window: &Rect, row: u32) -> (Rect, Rect)
    requires near { IsInBounds window.now }
    requires inside { row ≤ window.now.height }
    ensures { AreHalves window.now result }
{
    let start = behind(window.y, row);
    (
        Rect {
            height: row,
            ..*window
        },
        Rect {
            y: start,
            height: window.height - row,
            ..*window
        },
    )
}

/// A window in two, across its longer side where a clip has an edge that crosses it.
pub fn halves_at(olds: &[Drawn], news: &[Drawn], window: &Rect) -> (Rect, Rect)
    requires { IsInBounds window.now }
    ensures { AreHalves window.now result }
{
    let column = column_of(news, window, column_of(olds, window, 0));
    let row = row_of(news, window, row_of(olds, window, 0));
    if row == 0 || column > 0 && window.width >= window.height {
        at_column(window, column)
    } else {
        at_row(window, row)
    }
}
