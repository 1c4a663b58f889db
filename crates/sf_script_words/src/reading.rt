//! The readers of words, each of which gives a value and the rest of the line, or the fault of its
//! word. The grammar of `sf_script` is made of these.
ghost use Rattle.std.specs.Prelude.{◌≡◌, ◌≤◌, ◌≤ℤ◌, pos, neg_ℤ, length, IfOk, IfSome};
ghost use Rattle.std.specs.Str.{bytes_eq};
ghost use Rattle.sf_script_words.specs.Text.{words_of};
ghost use Rattle.sf_script_words.specs.Numbers.{decimal_of, signed_of};
ghost use Rattle.sf_script_words.specs.Reading as reading;
ghost use Rattle.sf_script_words.specs.Reading.{Gives, end_at, fixed_at, flag_at, in_range, number_at, signed_at, word_at};

use crate::fault::{Cause, WordFault};
use crate::numbers::decimal;
use crate::text::next_word;

/// Whether a word is this text.
pub fn is(word: &[u8], text: &[u8]) -> bool
    ensures { result ≡ bytes_eq word.now text.now }
{
    // Most differ in length, which is found without a call.
    word.len() == text.len() && word == text
}

/// How many words a line has.
#[tactic(auto, using(crate::proofs::Sets::word_counts))]
pub fn count_words(line: &[u8]) -> usize
    ensures { result ≡ length (words_of line.now) }
{
    let mut count = 0;
    let mut rest = line;
    while let Some((_, after)) = next_word(rest) {
        count += 1;
        rest = after;
    }
    count
}

/// The fault of the first word of what is left of a line.
pub fn wrong(line: &[u8], cause: Cause) -> WordFault
    ensures { result ≡ record { left = length (words_of line.now); cause = cause } }
{
    WordFault {
        left: count_words(line),
        cause,
    }
}

/// A fault of the first word of what is left of a line, unless this holds.
pub fn demand(holds: bool, line: &[u8], cause: Cause) -> Result<(), WordFault>
    ensures { Gives (λ x. x) result (reading.demand holds (length (words_of line.now)) cause) }
{
    if holds {
        Ok(())
    } else {
        Err(wrong(line, cause))
    }
}

/// The next word of a line, and what is left behind it.
#[tactic(auto, unfolding(crate::specs::Reading::word_at))]
pub fn word(line: &[u8]) -> Result<(&[u8], &[u8]), WordFault>
    ensures given { Gives (λ x. (x.0.now, words_of x.1.now)) result (word_at (words_of line.now)) }
    ensures within { IfOk result (λ x. length x.1.now ≤ length line.now) }
{
    match next_word(line) {
        Some((word, rest)) => Ok((word, rest)),
        None => Err(WordFault {
            left: 0,
            cause: Cause::MissingWord,
        }),
    }
}

/// The number that a word gives, if it lies in this range.
pub fn number_within(word: &[u8], low: u64, high: u64) -> Option<u64>
    ensures given { result ≡ in_range low high (decimal_of word.now) }
    ensures range { IfSome result (λ n. (low ≤ n) × (n ≤ high)) }
{
    match decimal(word) {
        Some(n) if n >= u128::from(low) && n <= u128::from(high) => Some(n as u64),
        _ => None,
    }
}

/// A number in this range, and what is left of the line behind it.
#[tactic(auto, unfolding(crate::specs::Reading::number_at))]
pub fn number64(line: &[u8], low: u64, high: u64) -> Result<(u64, &[u8]), WordFault>
    ensures given { Gives (λ x. (x.0, words_of x.1.now)) result (number_at low high (words_of line.now)) }
    ensures range { IfOk result (λ x. (low ≤ x.0) × (x.0 ≤ high)) }
{
    let (word, rest) = word(line)?;
    match number_within(word, low, high) {
        Some(n) => Ok((n, rest)),
        None => Err(wrong(line, Cause::BadWord)),
    }
}

/// A number of 32 bits in this range, and what is left of the line behind it.
pub fn number32(line: &[u8], low: u32, high: u32) -> Result<(u32, &[u8]), WordFault>
    ensures given { Gives (λ x. (x.0, words_of x.1.now)) result (number_at low high (words_of line.now)) }
    ensures range { IfOk result (λ x. (low ≤ x.0) × (x.0 ≤ high)) }
{
    let (n, rest) = number64(line, u64::from(low), u64::from(high))?;
    Ok((n as u32, rest))
}

/// The number down to `-below` and up to `above` that a word gives.
#[tactic(auto, unfolding(crate::specs::Numbers::signed_of))]
fn signed_within(word: &[u8], below: u32, above: u32) -> Option<i32>
    requires low { below ≤ 2147483648 }
    requires high { above ≤ 2147483647 }
    ensures given { result ≡ signed_of below above word.now }
    ensures low { IfSome result (λ z. neg_ℤ (pos below) ≤ℤ z) }
    ensures high { IfSome result (λ z. z ≤ℤ pos above) }
{
    match word {
        [b'-', digits @ ..] => {
            let n = number_within(digits, 0, u64::from(below))?;
            Some(-(n as i64) as i32)
        }
        [_, ..] => {
            let n = number_within(word, 0, u64::from(above))?;
            Some(n as i32)
        }
        [] => None,
    }
}

/// A number down to `-below` and up to `above`, and what is left of the line behind it.
#[tactic(auto, unfolding(crate::specs::Reading::signed_at))]
pub fn signed(line: &[u8], below: u32, above: u32) -> Result<(i32, &[u8]), WordFault>
    requires low { below ≤ 2147483648 }
    requires high { above ≤ 2147483647 }
    ensures given { Gives (λ x. (x.0, words_of x.1.now)) result (signed_at below above (words_of line.now)) }
    ensures low { IfOk result (λ x. neg_ℤ (pos below) ≤ℤ x.0) }
    ensures high { IfOk result (λ x. x.0 ≤ℤ pos above) }
{
    let (word, rest) = word(line)?;
    match signed_within(word, below, above) {
        Some(z) => Ok((z, rest)),
        None => Err(wrong(line, Cause::BadWord)),
    }
}

/// A flag, 0 or 1, and what is left of the line behind it.
#[tactic(auto, unfolding(crate::specs::Reading::flag_at))]
pub fn flag(line: &[u8]) -> Result<(bool, &[u8]), WordFault>
    ensures { Gives (λ x. (x.0, words_of x.1.now)) result (flag_at (words_of line.now)) }
{
    let (number, rest) = number32(line, 0, 1)?;
    Ok((number == 1, rest))
}

/// What is left of a line behind this word, with which it has to begin.
#[tactic(auto, unfolding(crate::specs::Reading::fixed_at))]
pub fn fixed<'a>(line: &'a [u8], text: &[u8]) -> Result<&'a [u8], WordFault>
    ensures { Gives (λ x. (tt, words_of x.now)) result (fixed_at text.now (words_of line.now)) }
{
    let (word, rest) = word(line)?;
    demand(is(word, text), line, Cause::UnknownWord)?;
    Ok(rest)
}

/// Nothing, if the line ends here.
#[tactic(auto, unfolding(crate::specs::Reading::end_at))]
pub fn end(line: &[u8]) -> Result<(), WordFault>
    ensures { Gives (λ x. x) result (end_at (words_of line.now)) }
{
    match next_word(line) {
        None => Ok(()),
        Some(_) => Err(wrong(line, Cause::ExtraWord)),
    }
}
