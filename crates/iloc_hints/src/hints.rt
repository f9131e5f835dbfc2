//! Hints, and their words.
ghost use Rattle.std.specs.Prelude.{◌≡◌};
ghost use Rattle.iloc_hints.specs.Hints.{hint_words};

/// What is usually meant by a refused text.
#[derive(Clone, Copy, Debug, PartialEq, Eq)]
pub enum Hint {
    /// A byte order mark begins it.
    Mark,
    /// It has a space, a tab, a CR or a newline.
    Blanks,
    /// It is `C`, `POSIX` or `root`, perhaps with a codeset: it names no language.
    System,
    /// It has a codeset or a modifier. Without them, and with hyphens for its underscores, it is accepted.
    Codeset,
    /// With hyphens for its underscores it is accepted.
    Underscores,
}

impl Hint {
    /// What to do, in a sentence without its full stop.
    pub fn words(self) -> &'static str
        ensures { result.now ≡ hint_words self }
    {
        match self {
            Hint::Mark => "leave out the byte order mark",
            Hint::Blanks => "leave out the blanks",
            Hint::System => "use und, since this name has no language",
            Hint::Codeset =>
                "leave out the codeset and the modifier, and use hyphens in place of underscores",
            Hint::Underscores => "use hyphens in place of underscores",
        }
    }
}
