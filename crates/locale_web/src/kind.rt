//! The kinds of pieces.
ghost use Rattle.std.specs.Prelude.{◌≡◌};
ghost use Rattle.locale_web.specs.Kinds.{kind_number};

/// What a piece of a normal text is.
#[derive(Clone, Copy, PartialEq, Eq)]
pub enum Kind {
    /// A language, in front or after `t`.
    Language,
    /// A script.
    Script,
    /// A region.
    Region,
    /// A variant.
    Variant,
    /// The byte that begins an extension.
    Singleton,
    /// An attribute of `u`.
    Attribute,
    /// A key of `u`.
    Key,
    /// A subtag of a value, of `u` or `t`.
    Value,
    /// A key of `t`.
    Field,
    /// A subtag of another extension.
    Other,
    /// A subtag after `x`.
    Private,
}

impl Kind {
    /// Its number, by which callers of other languages know it.
    pub fn number(self) -> usize
        ensures { result ≡ kind_number self }
    {
        match self {
            Kind::Language => 0,
            Kind::Script => 1,
            Kind::Region => 2,
            Kind::Variant => 3,
            Kind::Singleton => 4,
            Kind::Attribute => 5,
            Kind::Key => 6,
            Kind::Value => 7,
            Kind::Field => 8,
            Kind::Other => 9,
            Kind::Private => 10,
        }
    }
}
