//! From decimal digits to a number.
ghost use Rattle.std.specs.Prelude.{◌≡◌};
ghost use Rattle.sf_script_words.specs.Numbers.{decimal_of};

/// The number that a word of one to twenty decimal digits gives.
#[tactic(auto, unfolding(crate::specs::Numbers::decimal_of, crate::specs::Numbers::digits_after))]
pub fn decimal(word: &[u8]) -> Option<u128>
    ensures { result ≡ decimal_of word.now }
{
    if word.is_empty() || word.len() > 20 {
        return None;
    }
    let mut number = 0u128;
    for digit in word {
        if !digit.is_ascii_digit() {
            return None;
        }
        number = 10 * number + u128::from(*digit - b'0');
    }
    Some(number)
}
