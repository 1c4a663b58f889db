//! What a word asks of the program itself: its help or its version.
ghost use Rattle.std.specs.Prelude.{◌≡◌, map};
ghost use Rattle.std.specs.String.{string_bytes};
ghost use Rattle.sf_app_options.specs.Options.{about_named, about_of};

/// What a word asks of the program itself.
#[derive(Clone, Copy)]
pub enum About {
    Help,
    Version,
}

/// What a word asks of the program itself; None for any other word.
#[tactic(auto, unfolding(crate::specs::Options::about_named))]
fn about_named(word: &str) -> Option<About>
    ensures { result ≡ about_named word.now }
{
    match word {
        "--help" | "-h" => Some(About::Help),
        "--version" => Some(About::Version),
        _ => None,
    }
}

impl About {
    /// What the words ask of the program itself: `--help` or `-h`, or `--version`, each alone. With
    /// other words they are wrong words.
    pub fn read(words: &[String]) -> Option<About>
        ensures { result ≡ about_of (map string_bytes words.now) }
    {
        match words {
            [word] => about_named(word.as_str()),
            _ => None,
        }
    }
}
