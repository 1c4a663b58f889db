//! The reader of a name, as a step binds one.
ghost use Rattle.std.specs.Prelude.{◌≡◌};
ghost use Rattle.std.specs.List.{list_all};
ghost use Rattle.sf_script_words.specs.Text.{words_of};
ghost use Rattle.sf_script_words.specs.Reading.{Gives};
ghost use Rattle.sf_script_words.specs.Names.{is_letter, is_name, is_name_byte, name_at};

use crate::fault::{Cause, WordFault};
use crate::reading::{demand, word};

fn is_letter(byte: u8) -> bool
    ensures { result ≡ is_letter byte }
{
    byte.is_ascii_alphabetic()
}

fn is_name_byte(byte: u8) -> bool
    ensures { result ≡ is_name_byte byte }
{
    is_letter(byte) || byte.is_ascii_digit() || byte == b'_'
}

fn are_name_bytes(bytes: &[u8]) -> bool
    ensures { result ≡ list_all is_name_byte bytes.now }
{
    bytes.iter().all(|b| is_name_byte(*b))
}

/// Whether a word is a letter and up to 15 letters, digits or underscores.
#[tactic(auto, unfolding(crate::specs::Names::is_name))]
fn is_name(word: &[u8]) -> bool
    ensures { result ≡ is_name word.now }
{
    match word {
        [first, rest @ ..] => { is_letter(*first) && rest.len() <= 15 && are_name_bytes(rest) }
        [] => false,
    }
}

/// A name of 1 to 16 ASCII letters, digits and `_`, the first a letter, and what is left of the
/// line behind it.
#[tactic(auto, unfolding(crate::specs::Names::name_at))]
pub fn name(line: &[u8]) -> Result<(&[u8], &[u8]), WordFault>
    ensures { Gives (λ x. (x.0.now, words_of x.1.now)) result (name_at (words_of line.now)) }
{
    let (word, rest) = word(line)?;
    demand(is_name(word), line, Cause::BadWord)?;
    Ok((word, rest))
}
