//! What was read of a text, as far as it decides what may come next.
ghost use Rattle.std.specs.Prelude.{◌≡◌};
ghost use Rattle.iloc_faults.specs.Next.{may_end, takes_any};

/// What was read of an identifier.
#[derive(Clone, Copy, PartialEq, Eq)]
pub enum Stage {
    /// The language.
    Language,
    /// The script too.
    Script,
    /// The region or variants too.
    Region,
}

/// What was read last.
#[derive(Clone, Copy, PartialEq, Eq)]
pub enum Part {
    /// Nothing.
    Start,
    /// Words of the identifier at the beginning.
    Head(Stage),
    /// The singleton `t`.
    Transform,
    /// Words of the identifier after `t`.
    Source(Stage),
    /// A key of `t`.
    FieldKey,
    /// A subtag of a value of `t`.
    FieldValue,
    /// The singleton `u`.
    Unicode,
    /// An attribute, a key or a subtag of a value of `u`.
    Keyword,
    /// Another singleton, and perhaps pieces that are no words.
    Other,
    /// A word after another singleton.
    OtherWord,
    /// The singleton `x`.
    Private,
    /// A word after `x`.
    PrivateWord,
    /// The singleton `u` of a data locale.
    Subdivision,
    /// The key `sd` of a data locale, and perhaps `true`.
    SubdivisionKey,
    /// The subdivision of a data locale.
    SubdivisionValue,
}

/// What was read of a text.
#[derive(Clone, Copy)]
pub struct State {
    /// What was read last.
    pub part: Part,
    /// Once the identifier that is read has a variant: how many that follow come before one that repeats a variant.
    pub variants: Option<usize>,
    /// A bit for each singleton that was read.
    pub seen: u64,
}

/// Whether a text may end after the part.
#[inline(always)]
pub fn may_end(part: Part) -> bool
    ensures { result ≡ may_end part }
{
    match part {
        Part::Start
        | Part::Transform
        | Part::FieldKey
        | Part::Unicode
        | Part::Other
        | Part::Private
        | Part::Subdivision
        | Part::SubdivisionKey => false,
        _ => true,
    }
}

/// Whether a piece of one byte is no singleton after the part: at the beginning, and after `x`.
#[inline(always)]
pub fn takes_any(part: Part) -> bool
    ensures { result ≡ takes_any part }
{
    match part {
        Part::Start | Part::Private | Part::PrivateWord => true,
        _ => false,
    }
}
