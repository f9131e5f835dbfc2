//! Kinds of pieces, and sets of them.
ghost use Rattle.std.specs.Prelude.{◌≡◌, ◌↔◌, ◌<◌, ◌&&◌, ◌||◌, ◌==◌, ◌≤◌, Some, None};
ghost use Rattle.iloc_expected.specs.Kinds.{has, kind_bit};
ghost use Rattle.iloc_expected.specs.declared.kinds.PieceKind.{PieceKind};

/// What a piece of a text is, or the end of the text (UTS #35, section 3).
#[derive(Clone, Copy, Debug, PartialEq, Eq)]
pub enum PieceKind {
    /// A language, at the beginning or after `t`.
    Language,
    /// A script.
    Script,
    /// A region.
    Region,
    /// A variant.
    Variant,
    /// The byte that begins an extension.
    Singleton,
    /// An attribute of `u`.
    Attribute,
    /// A key of `u`.
    Key,
    /// A subtag of the value of a key.
    Value,
    /// The key of a field of `t`.
    Field,
    /// A piece of another extension.
    Other,
    /// A subtag after `x`.
    Private,
    /// A subtag of the value of a field.
    FieldValue,
    /// The end of the text.
    End,
}

impl PieceKind {
    /// Its number, by which callers of other languages know it: the place of its bit.
    pub fn number(self) -> usize
        ensures number { result ≡ kind_bit self }
        ensures small { result < 13 }
    {
        match self {
            PieceKind::Language => 0,
            PieceKind::Script => 1,
            PieceKind::Region => 2,
            PieceKind::Variant => 3,
            PieceKind::Singleton => 4,
            PieceKind::Attribute => 5,
            PieceKind::Key => 6,
            PieceKind::Value => 7,
            PieceKind::Field => 8,
            PieceKind::Other => 9,
            PieceKind::Private => 10,
            PieceKind::FieldValue => 11,
            PieceKind::End => 12,
        }
    }

    /// The kind of this number; `None` from 13 on.
    pub fn from_number(number: usize) -> Option<PieceKind>
        ensures some { (kind : PieceKind) → (result ≡ Some kind) ↔ (kind_bit kind ≡ number) }
        ensures none { result ≡ None → 13 ≤ number }
    {
        match number {
            0 => Some(PieceKind::Language),
            1 => Some(PieceKind::Script),
            2 => Some(PieceKind::Region),
            3 => Some(PieceKind::Variant),
            4 => Some(PieceKind::Singleton),
            5 => Some(PieceKind::Attribute),
            6 => Some(PieceKind::Key),
            7 => Some(PieceKind::Value),
            8 => Some(PieceKind::Field),
            9 => Some(PieceKind::Other),
            10 => Some(PieceKind::Private),
            11 => Some(PieceKind::FieldValue),
            12 => Some(PieceKind::End),
            _ => None,
        }
    }
}

/// A set of kinds. It prints as words, such as `a script, a region, a variant or an extension`.
#[derive(Clone, Copy, Debug, PartialEq, Eq)]
pub struct Expected {
    /// A bit for each kind, at its number.
    pub bits: u16,
}

impl Expected {
    /// No kind.
    pub const NONE: Expected = Expected { bits: 0 };

    /// Whether the kind is in the set.
    pub fn contains(self, kind: PieceKind) -> bool
        ensures { result ≡ has self kind }
    {
        self.bits >> kind.number() & 1 == 1
    }

    /// The set with the kind too, if this holds.
    pub(crate) fn with(self, kind: PieceKind, holds: bool) -> Expected
        ensures { (other : PieceKind) → has result other
            ≡ (((kind_bit kind == kind_bit other) && holds) || has self other) }
    {
        if holds {
            Expected {
                bits: self.bits | (1 << kind.number()),
            }
        } else {
            self
        }
    }
}
