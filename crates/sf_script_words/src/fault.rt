//! What can be wrong with a word, and where in its line it stands.
ghost use Rattle.std.specs.Prelude.{◌≡◌};
ghost use Rattle.sf_script_words.specs.Causes.{number_of};

/// What is wrong with a word.
#[derive(Clone, Copy)]
pub enum Cause {
    /// The line is not UTF-8.
    NotUtf8,
    /// The word begins no form, or is another one than the form needs here.
    UnknownWord,
    /// A number, name, colour or pick that is not of its form and range.
    BadWord,
    /// The line ends where a word is needed.
    MissingWord,
    /// A word behind the end of the form.
    ExtraWord,
    /// The line may not stand behind the lines before it.
    OutOfOrder,
    /// What the word names is not declared in a line before.
    Undefined,
    /// What the word declares is declared already.
    Twice,
    /// One more than there may be.
    Limit,
    /// The script ends without `end`.
    Unended,
    /// Another version of the format.
    WrongVersion,
}

impl Cause {
    /// The cause's number in records.
    pub fn number(self) -> u32
        ensures { result ≡ number_of self }
    {
        match self {
            Cause::NotUtf8 => 1,
            Cause::UnknownWord => 2,
            Cause::BadWord => 3,
            Cause::MissingWord => 4,
            Cause::ExtraWord => 5,
            Cause::OutOfOrder => 6,
            Cause::Undefined => 7,
            Cause::Twice => 8,
            Cause::Limit => 9,
            Cause::Unended => 10,
            Cause::WrongVersion => 11,
        }
    }
}

/// A fault in a line, placed by how many words there are from the wrong one on: none where a word
/// is missing, and one more than the line has where the fault is of the line.
#[derive(Clone, Copy)]
pub struct WordFault {
    pub left: usize,
    pub cause: Cause,
}
