//! The words of a set of kinds.
ghost use Rattle.std.specs.Prelude.{◌≡◌, ◌+◌, ◌≤◌, ◌<◌, ◌∷◌, [], None, IfSome};
ghost use Rattle.iloc_writeable.specs.Writing.{Writes};
ghost use Rattle.iloc_expected.specs.Kinds.{kind_bit};
ghost use Rattle.iloc_expected.specs.Words.{after_first, before_next, kind_words, named_from, words_of};

use crate::kinds::{Expected, PieceKind};
use iloc_writeable::{Sink, Writeable};
use std::fmt;

impl PieceKind {
    /// Its words, such as `a script`.
    pub fn words(self) -> &'static str
        ensures { result.now ≡ kind_words self }
    {
        match self {
            PieceKind::Language => "a language",
            PieceKind::Script => "a script",
            PieceKind::Region => "a region",
            PieceKind::Variant => "a variant",
            PieceKind::Singleton => "an extension",
            PieceKind::Attribute => "an attribute",
            PieceKind::Key => "a key",
            PieceKind::Value => "a value",
            PieceKind::Field => "a key of a field",
            PieceKind::Other => "a subtag of the extension",
            PieceKind::Private => "a private subtag",
            PieceKind::FieldValue => "a value of a field",
            PieceKind::End => "the end",
        }
    }
}

impl Expected {
    // The kind of this number, if it is in the set.
    #[tactic(auto, using(crate::proofs::SetBits::named_in, crate::proofs::SetBits::named_out))]
    fn kind_at(self, number: usize) -> Option<PieceKind>
        requires { number < 12 }
        ensures none { result ≡ None → named_from self number ≡ named_from self (number + 1) }
        ensures some { IfSome result (λ k. (kind_bit k ≡ number)
            × (named_from self number ≡ k ∷ named_from self (number + 1))) }
    {
        let kind = PieceKind::from_number(number)?;
        if self.contains(kind) {
            Some(kind)
        } else {
            None
        }
    }

    // The first kind of a piece from the number on.
    fn first_from(self, number: usize) -> Option<PieceKind>
        ensures none { result ≡ None → number ≤ 12 → named_from self number ≡ [] }
        ensures some { IfSome result (λ k. (number ≤ kind_bit k) × (kind_bit k < 12)
            × (named_from self number ≡ k ∷ named_from self (kind_bit k + 1))) }
    {
        for place in number..12 {
            if let Some(kind) = self.kind_at(place) {
                return Some(kind);
            }
        }
        None
    }

    // What stands before the words of the kinds from the number on.
    fn before_next(self, number: usize) -> &'static str
        requires { number ≤ 12 }
        ensures { result.now ≡ before_next (named_from self number) }
    {
        match self.first_from(number) {
            Some(_) => ", ",
            None => " or ",
        }
    }

    // Writes the words of the kinds from the number on, after those of the first one.
    fn write_rest<S: Sink>(self, number: usize, sink: &mut S) -> fmt::Result
        requires { number ≤ 12 }
        ensures { Writes S.took S.failed sink.old (after_first (named_from self number)) sink.new
            result }
    {
        let Some(kind) = self.first_from(number) else {
            return Ok(());
        };
        let later = kind.number() + 1;
        sink.write_str(self.before_next(later))?;
        sink.write_str(kind.words())?;
        self.write_rest(later, sink)
    }
}

/// Its words: `a script, a region, a variant or an extension`. The end is named if no piece is in it.
impl Writeable for Expected {
    ghost text = { λ set. words_of set };

    fn write_to<S: Sink>(&self, sink: &mut S) -> fmt::Result {
        let Some(kind) = self.first_from(0) else {
            let all = if self.contains(PieceKind::End) {
                "the end"
            } else {
                "nothing"
            };
            return sink.write_str(all);
        };
        sink.write_str(kind.words())?;
        self.write_rest(kind.number() + 1, sink)
    }

    fn writeable_borrow(&self) -> Option<&str> {
        None
    }
}
