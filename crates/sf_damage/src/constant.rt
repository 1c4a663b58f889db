//! Windows in which two lists of drawn layers have the same stacks at each point, or at none.
ghost use Rattle.std.specs.List.{All, list_all};
ghost use Rattle.std.specs.Prelude.{◌≡◌, ◌≢◌, ◌↔◌, ℤ, IsTrue, map, true};
ghost use Rattle.sf_base.specs.Geometry.{covers};
ghost use Rattle.sf_damage.specs.Damage.{stack_in};
ghost use Rattle.sf_damage.specs.inner.Meeting.{rect_has};
ghost use Rattle.sf_view.specs.Stacks.{sheet_of};

use crate::parts::rect_has;
use crate::same::has_same_sheet;
use sf_base::Rect;
use sf_view::Drawn;

/// Whether each of the layers has the whole window.
fn all_have(layers: &[Drawn], window: &Rect) -> bool
    ensures { result ≡ list_all (λ drawn. rect_has drawn.clip window.now) layers.now }
{
    layers.iter().all(|drawn| rect_has(&drawn.clip, window))
}

/// Whether two lists have the same layers, except for their clips, in the same order.
fn have_same_sheets(olds: &[Drawn], news: &[Drawn]) -> bool
    ensures { IsTrue result ↔ (map sheet_of olds.now ≡ map sheet_of news.now) }
{
    if olds.len() != news.len() {
        return false;
    }
    let mut at = 0;
    while at < olds.len() {
        if !has_same_sheet(&olds[at], &news[at]) {
            return false;
        }
        at += 1;
    }
    true
}

/// Whether none of the layers is the same as this one except for its clip.
fn lack_sheet(layers: &[Drawn], drawn: &Drawn) -> bool
    ensures { IsTrue result → All (λ other. sheet_of other ≢ sheet_of drawn.now) layers.now }
{
    for other in layers {
        if has_same_sheet(other, drawn) {
            return false;
        }
    }
    true
}

/// Whether the first layer that has the whole window is none of these others, whatever their clips are.
fn tells_apart(layers: &[Drawn], others: &[Drawn], window: &Rect) -> bool
    ensures { IsTrue result → (x y : ℤ) → covers window.now x y ≡ true → stack_in layers.now x y ≢ stack_in others.now x y }
{
    for drawn in layers {
        if rect_has(&drawn.clip, window) {
            return lack_sheet(others, drawn);
        }
    }
    false
}

/// Whether two lists of layers that each have the whole window have the same stacks there.
pub fn differ_nowhere(olds: &[Drawn], news: &[Drawn], window: &Rect) -> bool
    ensures { IsTrue result → (x y : ℤ) → covers window.now x y ≡ true → stack_in olds.now x y ≡ stack_in news.now x y }
{
    all_have(olds, window) && all_have(news, window) && have_same_sheets(olds, news)
}

/// Whether two lists of layers that each have the whole window have other stacks at each of its points.
fn differ_as_whole(olds: &[Drawn], news: &[Drawn], window: &Rect) -> bool
    ensures { IsTrue result → (x y : ℤ) → covers window.now x y ≡ true → stack_in olds.now x y ≢ stack_in news.now x y }
{
    all_have(olds, window) && all_have(news, window) && !have_same_sheets(olds, news)
}

/// Whether two lists of layers have other stacks at each point of a window, as far as that shows at once.
pub fn differ_everywhere(olds: &[Drawn], news: &[Drawn], window: &Rect) -> bool
    ensures { IsTrue result → (x y : ℤ) → covers window.now x y ≡ true → stack_in olds.now x y ≢ stack_in news.now x y }
{
    tells_apart(olds, news, window)
        || tells_apart(news, olds, window)
        || differ_as_whole(olds, news, window)
}
