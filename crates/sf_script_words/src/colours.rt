//! The reader of a colour's eight digits.
ghost use Rattle.std.specs.Prelude.{◌≡◌};
ghost use Rattle.sf_script_words.specs.Text.{words_of};
ghost use Rattle.sf_script_words.specs.Reading.{Gives};
ghost use Rattle.sf_script_words.specs.Colours.{colour_at, colour_of, hex_digit, hex_pair};

use crate::fault::{Cause, WordFault};
use crate::reading::{word, wrong};
use sf_base::Rgba;

/// The value of a hexadecimal digit, small or capital.
fn hex(byte: u8) -> Option<u8>
    ensures { result ≡ hex_digit byte }
{
    match byte {
        b'0'..=b'9' => Some(byte - b'0'),
        b'a'..=b'f' => Some(byte - b'a' + 10),
        b'A'..=b'F' => Some(byte - b'A' + 10),
        _ => None,
    }
}

/// A channel by its two hexadecimal digits.
#[tactic(auto, unfolding(crate::specs::Colours::hex_pair))]
fn channel(high: u8, low: u8) -> Option<u8>
    ensures { result ≡ hex_pair high low }
{
    match (hex(high), hex(low)) {
        (Some(high), Some(low)) if high < 16 && low < 16 => Some(16 * high + low),
        _ => None,
    }
}

/// A colour by its eight hexadecimal digits, RRGGBBAA.
#[tactic(auto, unfolding(crate::specs::Colours::colour_of))]
fn colour_word(word: &[u8]) -> Option<Rgba>
    ensures { result ≡ colour_of word.now }
{
    match word {
        [r, r2, g, g2, b, b2, a, a2] => {
            let r = channel(*r, *r2)?;
            let g = channel(*g, *g2)?;
            let b = channel(*b, *b2)?;
            let a = channel(*a, *a2)?;
            Some(Rgba { r, g, b, a })
        }
        _ => None,
    }
}

/// A colour of eight hexadecimal digits of either case (red, green, blue and alpha, two digits
/// each), and what is left of the line behind it.
#[tactic(auto, unfolding(crate::specs::Colours::colour_at))]
pub fn colour(line: &[u8]) -> Result<(Rgba, &[u8]), WordFault>
    ensures { Gives (λ x. (x.0, words_of x.1.now)) result (colour_at (words_of line.now)) }
{
    let (word, rest) = word(line)?;
    match colour_word(word) {
        Some(colour) => Ok((colour, rest)),
        None => Err(wrong(line, Cause::BadWord)),
    }
}
