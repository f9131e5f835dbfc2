//! Parts of a text that stay together when they are sorted.
ghost use Rattle.std.specs.Prelude.{◌≡◌};

/// What a part is.
#[derive(Clone, Copy, PartialEq, Eq)]
pub enum Role {
    /// A variant.
    Variant,
    /// A singleton, and of what follows it all that has no span of its own.
    Singleton,
    /// An attribute.
    Attribute,
    /// A key of `u` and its values.
    Keyword,
    /// A key of `t` and its values.
    Field,
}

/// A part of a text: the bytes from `start`, where a hyphen stands, to `end`. Parts are ordered by `word`.
#[derive(Clone, Copy)]
pub struct Span {
    /// The number of its first subtag; of a singleton its rank.
    pub word: u64,
    /// Where it begins.
    pub start: usize,
    /// Where it ends.
    pub end: usize,
    /// What it is.
    pub role: Role,
    /// Whether its normal text may differ from it by more than the case of letters.
    pub edited: bool,
}

impl Span {
    /// The span, as a value that stands apart: one that is passed to a call that is not inlined would be stored first.
    #[inline(always)]
    pub fn apart(&self) -> Span
        ensures { result ≡ self.now }
    {
        Span {
            word: self.word,
            start: self.start,
            end: self.end,
            role: self.role,
            edited: self.edited,
        }
    }
}

/// Room for 64 parts, and none.
pub const NO_SPANS: &[Span; 64] = &[NO_SPAN; 64];

/// No part.
pub const NO_SPAN: Span = Span {
    word: 0,
    start: 0,
    end: 0,
    role: Role::Variant,
    edited: false,
};
