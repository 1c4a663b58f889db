//! Cuts a script into lines and a line into words.
ghost use Rattle.std.specs.Prelude.{◌≡◌, ◌<◌, ◌≤◌, ◌∷◌, [], length, drop, IfSome, ◌+◌, MatchOption, not, ◌==◌};
ghost use Rattle.std.specs.List.{prefix_len};
ghost use Rattle.sf_script_words.specs.Text.{is_blank, lines_of, words_of, trimmed};

fn is_blank_byte(byte: u8) -> bool
    ensures { result ≡ is_blank byte }
{
    byte == b' ' || byte == b'\t'
}

/// How many blanks the text begins with.
fn blank_length(text: &[u8]) -> usize
    ensures count { result ≡ prefix_len is_blank text.now }
    ensures within { result ≤ length text.now }
{
    text.iter().take_while(|b| is_blank_byte(**b)).count()
}

/// How long the word is that the text begins with.
fn word_length(text: &[u8]) -> usize
    ensures count { result ≡ prefix_len (λ b. not (is_blank b)) text.now }
    ensures within { result ≤ length text.now }
{
    text.iter().take_while(|b| !is_blank_byte(**b)).count()
}

/// How long the first line is.
fn line_length(text: &[u8]) -> usize
    ensures count { result ≡ prefix_len (λ b. not (b == 10)) text.now }
    ensures within { result ≤ length text.now }
{
    text.iter().take_while(|b| **b != b'\n').count()
}

/// The first word of a line, and the rest of the line behind it.
pub fn next_word(line: &[u8]) -> Option<(&[u8], &[u8])>
    ensures words { MatchOption result (words_of line.now ≡ []) (λ x. words_of line.now ≡ x.0.now ∷ words_of x.1.now) }
    ensures within { IfSome result (λ x. length x.1.now ≤ length line.now) }
{
    let (_, start) = line.split_at(blank_length(line));
    if start.is_empty() {
        return None;
    }
    Some(start.split_at(word_length(start)))
}

/// A text behind its first byte.
fn without_first(text: &[u8]) -> &[u8]
    ensures { result.now ≡ drop 1 text.now }
{
    match text {
        [_, rest @ ..] => rest,
        [] => text,
    }
}

/// The first line of a text, and the text behind it.
pub fn next_line(text: &[u8]) -> Option<(&[u8], &[u8])>
    ensures lines { MatchOption result (lines_of text.now ≡ []) (λ x. lines_of text.now ≡ x.0.now ∷ lines_of x.1.now) }
    ensures shorter { IfSome result (λ x. length x.1.now < length text.now) }
    ensures together { IfSome result (λ x. length x.0.now + length x.1.now ≤ length text.now) }
{
    if text.is_empty() {
        return None;
    }
    let (line, rest) = text.split_at(line_length(text));
    Some((line, without_first(rest)))
}

/// A line without a byte 13 at its end.
#[tactic(auto, unfolding(crate::specs::Text::trimmed))]
pub fn trim(line: &[u8]) -> &[u8]
    ensures given { result.now ≡ trimmed line.now }
    ensures within { length result.now ≤ length line.now }
{
    match line {
        [front @ .., b'\r'] => front,
        _ => line,
    }
}
