//! How many layers two lists begin and end with alike: those need no look.
ghost use Rattle.std.specs.Prelude.{◌≡◌, ◌≤◌, ◌-◌, drop, length, take};

use crate::same::is_same;
use sf_view::Drawn;

/// How many layers both lists begin with.
pub fn shared_front(olds: &[Drawn], news: &[Drawn]) -> usize
    ensures olds { result ≤ length olds.now }
    ensures news { result ≤ length news.now }
    ensures same { take result olds.now ≡ take result news.now }
{
    let most = olds.len().min(news.len());
    let mut count = 0;
    while count < most {
        if !is_same(&olds[count], &news[count]) {
            return count;
        }
        count += 1;
    }
    count
}

/// How many layers both lists end with.
pub fn shared_back(olds: &[Drawn], news: &[Drawn]) -> usize
    ensures olds { result ≤ length olds.now }
    ensures news { result ≤ length news.now }
    ensures same { drop (length olds.now - result) olds.now ≡ drop (length news.now - result) news.now }
{
    let most = olds.len().min(news.len());
    let mut count = 0;
    while count < most {
        let old = &olds[olds.len() - count - 1];
        let new = &news[news.len() - count - 1];
        if !is_same(old, new) {
            return count;
        }
        count += 1;
    }
    count
}
