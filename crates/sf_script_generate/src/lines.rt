//! Lines of a generated script, from words and numbers.
ghost use Rattle.std.specs.Prelude.{◌<◌, [], ◌∷◌, OnOk, string_bytes};
ghost use Rattle.sf_script_generate.specs.Lines.{GrowsBy, fill_line, glass_line, numbered_line, pair_line, plain_line, position_line};

use sf_base::NoMemory;

/// A colour by its channels, each a byte.
#[derive(Clone, Copy)]
pub(crate) struct Channels {
    pub(crate) r: u64,
    pub(crate) g: u64,
    pub(crate) b: u64,
    pub(crate) a: u64,
}

/// A line of these words.
#[tactic(auto, unfolding(crate::specs::Lines::plain_line))]
pub(crate) fn put(text: &mut String, words: &str) -> Result<(), NoMemory>
    ensures { OnOk result (GrowsBy (plain_line words.now ∷ []) (string_bytes text.old) (string_bytes text.new)) }
{
    writeln!(text, "{words}")?;
    Ok(())
}

/// A line of words with a number between them.
#[tactic(auto, unfolding(crate::specs::Lines::numbered_line))]
pub(crate) fn put_numbered(
    text: &mut String,
    before: &str,
    n: u64,
    behind: &str,
) -> Result<(), NoMemory>
    ensures { OnOk result (GrowsBy (numbered_line before.now n behind.now ∷ []) (string_bytes text.old) (string_bytes text.new)) }
{
    writeln!(text, "{before}{n}{behind}")?;
    Ok(())
}

/// A line of words with a number between them and one behind.
#[tactic(auto, unfolding(crate::specs::Lines::pair_line))]
pub(crate) fn put_pair(
    text: &mut String,
    before: &str,
    n: u64,
    between: &str,
    m: u64,
) -> Result<(), NoMemory>
    ensures { OnOk result (GrowsBy (pair_line before.now n between.now m ∷ []) (string_bytes text.old) (string_bytes text.new)) }
{
    writeln!(text, "{before}{n}{between}{m}")?;
    Ok(())
}

/// A line that moves a layer.
#[tactic(auto, unfolding(crate::specs::Lines::position_line))]
pub(crate) fn put_position(text: &mut String, layer: u64, x: u64, y: u64) -> Result<(), NoMemory>
    ensures { OnOk result (GrowsBy (position_line layer x y ∷ []) (string_bytes text.old) (string_bytes text.new)) }
{
    writeln!(text, "set 1 {layer} position {x} {y}")?;
    Ok(())
}

/// A line that fills a picture with an opaque colour of these channels, each a byte.
pub(crate) fn put_fill(text: &mut String, r: u64, g: u64, b: u64) -> Result<(), NoMemory>
    requires bytes { (r < 256) × (g < 256) × (b < 256) }
    ensures { OnOk result (GrowsBy (fill_line r g b ∷ []) (string_bytes text.old) (string_bytes text.new)) }
{
    writeln!(text, "fill 0 0 32 32 {r:02x}{g:02x}{b:02x}ff")?;
    Ok(())
}

/// A line that fills a square of a picture with a colour.
pub(crate) fn put_glass(text: &mut String, x: u64, y: u64, colour: Channels) -> Result<(), NoMemory>
    requires bytes { (colour.r < 256) × (colour.g < 256) × (colour.b < 256) × (colour.a < 256) }
    ensures { OnOk result (GrowsBy (glass_line x y colour.r colour.g colour.b colour.a ∷ []) (string_bytes text.old) (string_bytes text.new)) }
{
    let Channels { r, g, b, a } = colour;
    writeln!(text, "fill {x} {y} 16 16 {r:02x}{g:02x}{b:02x}{a:02x}")?;
    Ok(())
}
